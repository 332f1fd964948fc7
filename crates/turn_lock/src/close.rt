//! How a lock ends: all its passes are joined into one, which then knows that no pass has the turn.

ghost use Rattle.std.specs.Prelude.{◌≡◌, ◌<◌, ◌∷◌, [], IsSome, length, map, unwrap_or, ℕ};
ghost use Rattle.turn_lock.specs.Passes.{AreAllOf, IsPassIdle, IsPassOf, known_of, value_under, pass_identity};
ghost use Rattle.turn_lock.specs.Turns.{AllOf, IsClosedHistory, Knows, joined_view};

use crate::chronicle::Chronicle;
use crate::lock::{Pass, TurnLock};
use crate::rule::JoinPasses;

impl<T: Chronicle> TurnLock<T> {
    /// Ends the lock with all its passes, and returns the value. Does not wait.
    ///
    /// The value's history begins with the first history, and then has the entries of each pass, each entry once. Each pass has
    /// seen a beginning of this history. All passes must be given, idle. The first pass that `make` returned must be in front; the
    /// others may come in any order.
    pub fn close(self, passes: Vec<Pass<T>>) -> T
        requires all { AreAllOf T.base T.entries self (map pass_identity passes.items) }
        requires idle { AllOf IsPassIdle passes.items }
        ensures base { T.base result ≡ T.base (value_under self) }
        ensures whole { IsClosedHistory (length passes.items) (T.entries (value_under self)) (T.entries result) (map known_of passes.items) }
    {
        let mut rest = passes.into_iter();
        let Some(mut one) = rest.next() else {
            unreachable!()
        };
        for other in rest {
            self.absorb(&mut one, other);
        }
        self.close_joined(one)
    }

    // Joins the other pass into this one, which then knows what both knew.
    fn absorb(&self, pass: &mut Pass<T>, other: Pass<T>)
        requires own { IsPassOf T.base T.entries self.now pass.old × IsPassOf T.base T.entries self.now other }
        requires idle { IsPassIdle pass.old × IsPassIdle other }
        ensures own { IsPassOf T.base T.entries self.now pass.new }
        ensures both { pass.new.seat.me ≡ (joined_view pass.old.seat.me.0 other.seat.me.0, []) }
    {
        let Pass {
            seat,
            ticket: _,
            number: _,
        } = other;
        self.table
            .shared
            .join_seat::<JoinPasses>(&mut pass.seat, seat);
    }

    // Returns the value once all passes were joined into this one.
    fn close_joined(self, pass: Pass<T>) -> T
        requires own { IsPassOf T.base T.entries self pass }
        requires idle { IsPassIdle pass }
        requires makes { IsSome pass.seat.me.0.passes_made }
        requires many { length (pass.seat.me.0.own ∷ pass.seat.me.0.joined) ≡ unwrap_or pass.seat.me.0.passes_made 0 }
        requires all { (p : ℕ) → p < unwrap_or pass.seat.me.0.passes_made 0 → Knows p (map (λ k. k.number) (pass.seat.me.0.own ∷ pass.seat.me.0.joined)) }
        ensures base { T.base result ≡ T.base (value_under self) }
        ensures whole { IsClosedHistory (unwrap_or pass.seat.me.0.passes_made 0) (T.entries (value_under self)) (T.entries result) (pass.seat.me.0.own ∷ pass.seat.me.0.joined) }
    {
        let TurnLock { table } = self;
        let Pass {
            seat,
            ticket: _,
            number: _,
        } = pass;
        let mut closed = table.close_with(seat);
        let slot = closed.take(0);
        closed.free();
        let Some(value) = slot else { unreachable!() };
        value
    }
}
