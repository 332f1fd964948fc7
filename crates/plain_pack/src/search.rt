//! Whether a set of stations fits, by a plain depth-first search without a budget. The time may be exponential in the number of stations.

ghost use Rattle.std.specs.Prelude.{◌≡◌, true, IfOk, IsTrue, IsFalse, MatchOption};
ghost use Rattle.pack_defs.specs.Lists.{is_ascending};
ghost use Rattle.pack_defs.specs.Packing.{IsPacking, fits, is_apart};
ghost use Rattle.plain_pack.specs.Search.{IsExtended, is_compatible_with};

use pack_defs::book::Book;
use pack_defs::channel_map::ChannelMap;
use std::alloc::{AllocError as NoMemory, Global};

/// Returns a clean map of exactly these stations, or `None` if no such map exists.
///
/// # Errors
/// Fails only if memory runs out.
pub fn fits(alloc: Global, book: &Book, set: &[u32]) -> Result<Option<ChannelMap>, NoMemory>
    requires { IsTrue (is_ascending set.now) }
    ensures { IfOk result (λ found. MatchOption found (IsFalse (fits book.now set.now)) (IsPacking book.now set.now)) }
{
    let mut chosen = Vec::new(alloc);
    if !extend(book, set, &mut chosen)? {
        return Ok(None);
    }
    Ok(Some(ChannelMap::of(alloc, &chosen)?))
}

// Gives each of the stations `left` a channel that fits the chosen entries. If that is impossible, returns false and leaves `chosen`
// unchanged.
fn extend(book: &Book, left: &[u32], chosen: &mut Vec<(u32, u8)>) -> Result<bool, NoMemory>
    requires { is_apart book.now chosen.old.items ≡ true }
    ensures { IfOk result (IsExtended book.now chosen.old.items left.now chosen.new.items) }
{
    let Some((station, others)) = left.split_first() else {
        return Ok(true);
    };
    for channel in book.domain(*station) {
        if !is_compatible(book, chosen, *station, *channel) {
            continue;
        }
        chosen.push((*station, *channel))?;
        if extend(book, others, chosen)? {
            return Ok(true);
        }
        chosen.pop();
    }
    Ok(false)
}

// Checks whether the station may be on this channel together with the chosen entries.
fn is_compatible(book: &Book, chosen: &[(u32, u8)], station: u32, channel: u8) -> bool
    ensures { result ≡ is_compatible_with book.now chosen.now (station, channel) }
{
    for x in chosen {
        if book.forbids(station, channel, x.0, x.1) {
            return false;
        }
    }
    !book.forbids(station, channel, station, channel)
}
