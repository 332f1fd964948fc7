//! The check of a receipt of moves, from a worker that walks.

ghost use Rattle.std.specs.Prelude.{◌≡◌, ◌&&◌, IfOk};
ghost use Rattle.std.specs.Bool.{OnTrue};
ghost use Rattle.pack_defs.specs.ChannelMap.{put};
ghost use Rattle.pack_defs.specs.Lists.{has_entry};
ghost use Rattle.cert_types.specs.Certificate.{IsTaskOf};
ghost use Rattle.cert_types.specs.Moves.{first_move, has_violation, is_move, start_map, violates_some};

use crate::start::start_map;
use crate::task::Task;
use assign_check::assignment::Assignment;
use pack_defs::book::Book;
use std::alloc::{AllocError as NoMemory, Global};

/// Returns the number, from 1, of the first invalid move. A move is valid if it takes a station of a violated pair to another
/// channel of its domain, and some pair is violated afterwards. Each move is made before the next is checked, beginning at the
/// start map of the task's set. Building the start map costs as much as its stations' pairs, and each move as much as the pairs and
/// the domain of its station. Fails only if memory runs out.
pub(crate) fn first_move(
    alloc: Global,
    book: &Book,
    task: &Task,
    moves: &[(u32, u8)],
) -> Result<Option<u64>, NoMemory>
    requires { IsTaskOf book.now task.now }
    ensures { IfOk result (λ place. place ≡ first_move book.now (start_map book.now task.now.last task.now.set) 1 moves.now) }
{
    let mut map = Assignment::of(book, start_map(alloc, book, task)?);
    for (i, x) in moves.iter().enumerate() {
        if !passes(book, &mut map, *x) {
            return Ok(Some(i as u64 + 1));
        }
    }
    Ok(None)
}

// Makes a move if it is valid. Returns whether it is valid and some pair is violated afterwards.
fn passes(book: &Book, map: &mut Assignment, x: (u32, u8)) -> bool
    requires { book.now ≡ map.old.book }
    ensures passes { result ≡ (is_move book.now map.old.entries x && violates_some book.now (put x map.old.entries)) }
    ensures moved { OnTrue result (map.new ≡ record { book = map.old.book; entries = put x map.old.entries }) }
{
    if !is_move(book, map, x) {
        return false;
    }
    map.put(book, x.0, x.1);
    violates_some(map)
}

// Whether a move takes a station of a violated pair to another channel of its domain.
fn is_move(book: &Book, map: &Assignment, x: (u32, u8)) -> bool
    requires { book.now ≡ map.now.book }
    ensures { result ≡ is_move book.now map.now.entries x }
{
    has_violation(book, map, x.0) && (book.domain(x.0).contains(&x.1) && !is_on_channel(map, x))
}

// Whether some pair is violated.
fn violates_some(map: &Assignment) -> bool
    ensures { result ≡ violates_some map.now.book map.now.entries }
{
    map.violations() > 0
}

// Whether some pair of the station is violated.
fn has_violation(book: &Book, map: &Assignment, station: u32) -> bool
    requires { book.now ≡ map.now.book }
    ensures { result ≡ has_violation book.now map.now.entries station }
{
    map.violations_of(book, station) > 0
}

// Whether the map has the station on this channel.
fn is_on_channel(map: &Assignment, x: (u32, u8)) -> bool
    ensures { result ≡ has_entry map.now.entries x }
{
    map.keeps_order();
    map.channel(x.0) == Some(x.1)
}
