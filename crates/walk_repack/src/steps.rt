//! The loop of the walk: move after move, until no pair is violated, a pair is dead, the budget is spent, or another query is current.
//!
//! `run` polls now and then, and ends if the poll returns another number. Otherwise it looks for a violated pair. If there is none, or
//! the pair is dead, the walk ends. If not, one station of the pair moves to another channel of its domain. Once the budget of moves is
//! spent, `run` looks once more, without a move.

ghost use Rattle.std.specs.Prelude.{ℕ, ◌≡◌, ◌≤◌, IfOk, length};
ghost use Rattle.walk_repack.specs.Steps.{WalkEndIs, WalkStepIs};

use crate::guide::Guide;
use crate::map_status::{MapStatus, map_status, other_channel};
use crate::policy::MOVES_BETWEEN_POLLS;
use crate::walk_state::WalkState;
use cert_types::poll::{Poll, moved};
use pack_defs::book::Book;
use pack_defs::pair::Pair;
use std::alloc::AllocError as NoMemory;

/// The result of a step.
#[derive(Debug, Drop)]
pub(crate) enum WalkStep {
    /// No pair is violated.
    Clean,
    /// This pair is dead.
    Dead(Pair),
    /// One move was made.
    Made,
}

/// How a walk ends.
#[derive(Debug, Drop)]
pub(crate) enum WalkEnd {
    /// No pair is violated.
    Clean,
    /// This pair is dead.
    Dead(Pair),
    /// The budget of moves is spent, and a pair is still violated.
    Spent,
    /// The poll returned another number.
    Moved { now: u64 },
}

/// Walks until no pair is violated, the chosen violated pair is dead, the budget of moves is spent, or the poll returns a number other
/// than `number`.
pub(crate) fn run<P: Poll>(
    book: &Book,
    walk_state: &mut WalkState,
    guide: &mut Guide,
    budget: u32,
    number: u64,
    poll: &mut P,
) -> Result<WalkEnd, NoMemory>
    requires book { book.now ≡ walk_state.old.book }
    requires few { length walk_state.old.moves ≤ budget }
    ensures book { walk_state.new.book ≡ walk_state.old.book }
    ensures start { walk_state.new.start ≡ walk_state.old.start }
    ensures outcome { IfOk result (λ outcome. WalkEndIs walk_state.new budget number (P.last poll.new) outcome) }
    ensures goes { P.goes poll.old poll.new }
{
    'moves: while walk_state.len() < budget as usize {
        if let Some(now) = moved(poll, number, walk_state.len(), MOVES_BETWEEN_POLLS) {
            return Ok(WalkEnd::Moved { now });
        }
        match advance(book, walk_state, guide)? {
            WalkStep::Clean => return Ok(WalkEnd::Clean),
            WalkStep::Dead(pair) => return Ok(WalkEnd::Dead(pair)),
            WalkStep::Made => {}
        }
    }
    Ok(final_status(book, walk_state, guide))
}

// Makes a move, if a move is possible.
fn advance(book: &Book, walk_state: &mut WalkState, guide: &mut Guide) -> Result<WalkStep, NoMemory>
    requires book { book.now ≡ walk_state.old.book }
    ensures book { walk_state.new.book ≡ walk_state.old.book }
    ensures start { walk_state.new.start ≡ walk_state.old.start }
    ensures step { IfOk result (λ step. WalkStepIs walk_state.old walk_state.new step) }
{
    book.keeps_order();
    walk_state.keeps_walk_state();
    match map_status(book, walk_state, guide) {
        MapStatus::Clean => Ok(WalkStep::Clean),
        MapStatus::Dead(pair) => Ok(WalkStep::Dead(pair)),
        MapStatus::Open { station, channel } => {
            let domain = book.domain(station);
            let at = guide.channel(domain, station, channel);
            let to = other_channel(domain, channel, at);
            walk_state.make(station, to)?;
            guide.note(station, channel, to);
            Ok(WalkStep::Made)
        }
    }
}

// Returns how a walk ends whose budget is spent.
fn final_status(book: &Book, walk_state: &WalkState, guide: &mut Guide) -> WalkEnd
    requires { book.now ≡ walk_state.now.book }
    ensures { (number last : ℕ) → WalkEndIs walk_state.now (length walk_state.now.moves) number last result }
{
    match map_status(book, walk_state, guide) {
        MapStatus::Clean => WalkEnd::Clean,
        MapStatus::Dead(pair) => WalkEnd::Dead(pair),
        MapStatus::Open {
            station: _,
            channel: _,
        } => WalkEnd::Spent,
    }
}
