//! What a pass does between `make` and `close`, as often as it likes. It waits for its turn (`enter`) and counts each entry that it
//! adds to the value (`commit`, any number of times). Then it gives the value back (`leave`).

ghost use Rattle.std.specs.Prelude.{◌≡◌, ◌+◌, ◌<◌, ◌^◌, ◌++◌, ◌∷◌, [], Some, length, ℕ};
ghost use Rattle.turn_lock.specs.Passes.{HasTurn, IsLegal, IsPassIdle, IsPassOf, known_of, value_under, mine_of, pass_number, seen_of, pass_identity};
ghost use Rattle.turn_lock.specs.Turns.{StartsWith};

use crate::chronicle::Chronicle;
use crate::lock::{Pass, Turn, TurnLock};
use crate::rule::{AddsEntry, CheckTicket, CountEntry, DrawTicket, ServeNext};
use std::marker::Brand;
use std::sync::Wait;
use std::thread;

impl<T: Chronicle> Pass<T> {
    /// Returns the number of the pass: its place, from 0, in the list that `make` returned. Its entries have this number.
    pub fn number(&self) -> u32
        ensures { result ≡ pass_number self.now }
    {
        self.number
    }
}

impl<T: Chronicle> TurnLock<T> {
    /// Draws a ticket, waits until the ticket is served, and returns the value. The value has the complete history that was
    /// counted, which begins with all that the pass had seen. The pass's own entries are unchanged.
    ///
    /// The pass must be idle: one that has the turn would wait for itself. No contract says that the turn comes. It does not come
    /// if another pass never leaves, or if two threads each wait for the other's turn at another lock.
    pub fn enter<R: Wait>(&self, rt: &R, pass: &mut Pass<T>) -> Turn<T>
        requires own { IsPassOf T.base T.entries self.now pass.old }
        requires idle { IsPassIdle pass.old }
        ensures own { IsPassOf T.base T.entries self.now pass.new }
        ensures turn { HasTurn pass.new }
        ensures value { T.entries result.value ≡ seen_of pass.new }
        ensures base { T.base result.value ≡ T.base (value_under self.now) }
        ensures seen { StartsWith (seen_of pass.new) (seen_of pass.old) }
        ensures mine { mine_of pass.new ≡ mine_of pass.old }
        ensures legal { IsLegal pass.new }
        ensures standing { pass_identity pass.new ≡ pass_identity pass.old }
    {
        let shared = &self.table.shared;
        pass.ticket = shared.fetch_add::<DrawTicket>(&mut pass.seat, 0, 1);
        for _ in rt.forever() {
            let serving = shared.load::<CheckTicket>(&mut pass.seat, 1);
            if serving == pass.ticket {
                let value = shared.exchange(&mut pass.seat, 0, None).unwrap();
                return Turn { value };
            }
            thread::yield_now();
        }
        unreachable!()
    }

    // Counts one more entry, the one that `W` names. `commit` chooses `W` in its proof; no value of `W` is passed.
    fn count_up<W: AddsEntry<T::Entry>>(&self, pass: &mut Pass<T>, turn: &Turn<T>)
        requires own { IsPassOf T.base T.entries self.now pass.old }
        requires turn { HasTurn pass.old }
        requires said { (e : ℕ × T.Entry) × (W.said ≡ Some e) × (e.0 ≡ pass_number pass.old) }
        requires few { length (seen_of pass.old) + 1 < 2 ^ 64 }
        ensures own { IsPassOf T.base T.entries self.now pass.new }
        ensures turn { HasTurn pass.new }
        ensures seen { (e : ℕ × T.Entry) → W.said ≡ Some e → seen_of pass.new ≡ seen_of pass.old ++ e ∷ [] }
        ensures mine { (e : ℕ × T.Entry) → W.said ≡ Some e → mine_of pass.new ≡ mine_of pass.old ++ e ∷ [] }
        ensures standing { pass_identity pass.new ≡ pass_identity pass.old }
    {
        let _ = turn;
        self.table
            .shared
            .fetch_add::<CountEntry<W>>(&mut pass.seat, 2, 1);
    }

    /// Counts one more entry of the history, made by this pass. This is the only call that lengthens the history.
    ///
    /// The value must already have the longer history. So call `commit` once for each entry, after adding that entry to the value
    /// and before adding the next. The value must keep the lock's base, and have fewer than 2^64 entries.
    pub fn commit(&self, pass: &mut Pass<T>, turn: &mut Turn<T>)
        requires own { IsPassOf T.base T.entries self.now pass.old }
        requires turn { HasTurn pass.old }
        requires entry { (e : ℕ × T.Entry) × (T.entries turn.old.value ≡ seen_of pass.old ++ e ∷ []) × (e.0 ≡ pass_number pass.old) }
        requires base { T.base turn.old.value ≡ T.base (value_under self.now) }
        requires few { length (seen_of pass.old) + 1 < 2 ^ 64 }
        ensures own { IsPassOf T.base T.entries self.now pass.new }
        ensures value { turn.new ≡ turn.old }
        ensures turn { HasTurn pass.new }
        ensures seen { seen_of pass.new ≡ T.entries turn.old.value }
        ensures mine { (e : ℕ × T.Entry) → T.entries turn.old.value ≡ seen_of pass.old ++ e ∷ [] → mine_of pass.new ≡ mine_of pass.old ++ e ∷ [] }
        ensures legal { IsLegal pass.old → IsLegal pass.new }
        ensures standing { pass_identity pass.new ≡ pass_identity pass.old }
    {
        self.count_up::<Brand>(pass, turn);
    }

    /// Puts the value back, and gives the turn to the next ticket. The pass is idle again and may move to another thread.
    ///
    /// The value must keep the lock's base and have exactly the entries that were counted, because the next pass relies on that.
    /// Every `enter` must be followed by this call, with no `?` between the two. A turn cannot be dropped, and a pass whose turn
    /// was taken apart keeps the turn for good, so `close` never accepts it.
    pub fn leave(&self, pass: &mut Pass<T>, turn: Turn<T>)
        requires own { IsPassOf T.base T.entries self.now pass.old }
        requires turn { HasTurn pass.old }
        requires value { T.entries turn.value ≡ seen_of pass.old }
        requires base { T.base turn.value ≡ T.base (value_under self.now) }
        ensures own { IsPassOf T.base T.entries self.now pass.new }
        ensures idle { IsPassIdle pass.new }
        ensures known { known_of pass.new ≡ known_of pass.old }
        ensures standing { pass_identity pass.new ≡ pass_identity pass.old }
    {
        let Turn { value } = turn;
        let shared = &self.table.shared;
        let empty = shared.exchange(&mut pass.seat, 0, Some(value));
        let None = empty else { unreachable!() };
        let next = pass.ticket.wrapping_add(1);
        shared.store::<ServeNext>(&mut pass.seat, 1, next);
    }
}
