//! The simplest use of the lock: a titled list of numbers that passes append to. `append` is one complete turn, as a caller writes
//! it.

ghost use Rattle.std.specs.Prelude.{◌≡◌, ◌++◌, ◌∷◌, [], MatchBool, Some, ⊤};
ghost use Rattle.turn_lock.specs.NumberList.{history_in, title_of};
ghost use Rattle.turn_lock.specs.Passes.{IsLegal, IsPassIdle, IsPassOf, mine_of, pass_number, seen_of, pass_identity};
ghost use Rattle.turn_lock.specs.Turns.{StartsWith, last};

use crate::chronicle::Chronicle;
use crate::lock::{Pass, TurnLock};
use std::sync::Wait;

/// Numbers under a title, each with the number of the pass that added it.
#[derive(Drop)]
pub struct NumberList {
    pub title: u32,
    pub numbers: Vec<(u64, u32)>,
}

impl Chronicle for NumberList {
    type Base = u32;

    type Entry = u32;

    ghost base = { title_of };

    ghost entries = { history_in };

    fn count(&self) -> u64 {
        self.numbers.len() as u64
    }
}

/// Appends a number in a turn of its own, and returns whether there was memory for it. Waits for the turn.
///
/// With memory, what the pass has seen now ends with its number. Without memory the pass adds nothing, and has seen the history as
/// it was at its turn.
pub fn append<R: Wait>(
    rt: &R,
    lock: &TurnLock<NumberList>,
    pass: &mut Pass<NumberList>,
    number: u32,
) -> bool
    requires own { IsPassOf title_of history_in lock.now pass.old }
    requires idle { IsPassIdle pass.old }
    ensures own { IsPassOf title_of history_in lock.now pass.new }
    ensures idle { IsPassIdle pass.new }
    ensures standing { pass_identity pass.new ≡ pass_identity pass.old }
    ensures legal { IsLegal pass.new }
    ensures seen { StartsWith (seen_of pass.new) (seen_of pass.old) }
    ensures last { MatchBool result (last (seen_of pass.new) ≡ Some (pass_number pass.old, number)) ⊤ }
    ensures mine { MatchBool result (mine_of pass.new ≡ mine_of pass.old ++ (pass_number pass.old, number) ∷ []) (mine_of pass.new ≡ mine_of pass.old) }
{
    let mut turn = lock.enter(rt, pass);
    if turn.value.numbers.reserve(1).is_err() {
        lock.leave(pass, turn);
        return false;
    }
    let by = pass.number() as u64;
    turn.value.numbers.push_reserved((by, number));
    lock.commit(pass, &mut turn);
    lock.leave(pass, turn);
    true
}
