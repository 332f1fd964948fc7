//! The map that a walk starts from. The walking solver uses it, and so does the check of its moves.

ghost use Rattle.std.specs.Prelude.{◌≡◌, IfOk, unwrap_or};
ghost use Rattle.pack_defs.specs.Book.{domain_of};
ghost use Rattle.pack_defs.specs.ChannelMap.{IsAscending, channel_of};
ghost use Rattle.cert_types.specs.Certificate.{IsTaskOf};
ghost use Rattle.cert_types.specs.Moves.{least_of, start_map};

use crate::task::Task;
use pack_defs::book::Book;
use pack_defs::channel_map::ChannelMap;
use std::alloc::{AllocError as NoMemory, Global};

/// Returns the map that a walk over a task's set starts from. Each station is on its channel in the last map, if it has one.
/// Otherwise it is on the least channel of its domain, or on 0 if the domain is empty. Costs one binary search for each station in
/// the last map, and one in the book for each station that the last map lacks. Fails only if memory runs out.
pub fn start_map(alloc: Global, book: &Book, task: &Task) -> Result<Vec<(u32, u8)>, NoMemory>
    requires { IsTaskOf book.now task.now }
    ensures map { IfOk result (λ entries. entries.items ≡ start_map book.now task.now.last task.now.set) }
    ensures ascending { IfOk result (λ entries. IsAscending entries.items) }
{
    let set = task.set.as_slice();
    let mut entries = Vec::with_capacity(alloc, set.len())?;
    for s in set {
        entries.push((*s, start_channel(book, &task.last, *s)))?;
    }
    Ok(entries)
}

// Returns the channel on which a walk starts a station.
fn start_channel(book: &Book, last: &ChannelMap, station: u32) -> u8
    ensures { result ≡ unwrap_or (channel_of station last.now) (least_of (domain_of book.now station)) }
{
    match last.get(station) {
        Some(c) => c,
        None => least(book.domain(station)),
    }
}

// Returns the first channel, or 0 if there is none.
fn least(channels: &[u8]) -> u8
    ensures { result ≡ least_of channels.now }
{
    if channels.is_empty() {
        return 0;
    }
    channels[0]
}
