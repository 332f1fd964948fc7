//! How a lock is made, with all the passes that it will ever have.

ghost use Rattle.std.specs.Prelude.{◌≡◌, ◌+◌, ◌<◌, ◌^◌, ◌∷◌, [], IfErr, IfOk, Some, map};
ghost use Rattle.turn_lock.specs.Passes.{AreAllOf, IsPassIdle, IsPassOf, known_of, value_under, pass_identity};
ghost use Rattle.turn_lock.specs.Turns.{AllOf, copy_of, each_new, founder, one_pass_more};

use crate::chronicle::Chronicle;
use crate::lock::{Pass, TurnLock};
use crate::rule::SplitPass;
use atomic_table::{Refused, Table};
use std::alloc::{AllocError as NoMemory, Global};
use std::snapshot::Snapshot;

// Returns the value from the slots of a table that could not be made.
fn returned<T>(mut slots: Vec<Option<T>>, value: &Snapshot<T>) -> T
    requires { slots.items ≡ Some value.now.value ∷ [] }
    ensures { result ≡ value.now.value }
{
    let _ = value;
    let Some(slot) = slots.pop() else {
        unreachable!()
    };
    slots.destroy_empty();
    let Some(back) = slot else { unreachable!() };
    back
}

impl<T: Chronicle> TurnLock<T> {
    /// Returns a lock over the value, and `n` passes; pass `i` of the list has the number `i`. Each pass has seen the value's
    /// history and has no entry of its own.
    ///
    /// Between here and `close` the caller must not use `?`: the lock cannot be dropped, and `close` requires every pass. Allocate
    /// before this call, or keep an error in a variable until the lock is closed.
    ///
    /// # Errors
    ///
    /// Fails only if memory runs out; then the value comes back.
    pub fn make(
        alloc: Global,
        value: T,
        n: u32,
    ) -> Result<(TurnLock<T>, Vec<Pass<T>>), (NoMemory, T)>
        requires some { 0 < n }
        ensures key { IfOk result (λ r. value_under r.0 ≡ value) }
        ensures all { IfOk result (λ r. AreAllOf T.base T.entries r.0 (map pass_identity r.1.items)) }
        ensures idle { IfOk result (λ r. AllOf IsPassIdle r.1.items) }
        ensures new { IfOk result (λ r. map known_of r.1.items ≡ each_new (T.entries value) n) }
        ensures back { IfErr result (λ e. e.1 ≡ value) }
    {
        let mut passes = match Vec::with_capacity(alloc, n as usize) {
            Ok(passes) => passes,
            Err(_) => return Err((NoMemory, value)),
        };
        let (lock, mut first) = match TurnLock::open(alloc, value) {
            Ok(pair) => pair,
            Err(refused) => return Err(refused),
        };
        for number in 1..n {
            let pass = lock.next_pass(&mut first, number);
            passes.push_reserved(pass);
        }
        passes.push_reserved(first);
        passes.rotate_right(1);
        Ok((lock, passes))
    }

    // Returns a lock over the value, and its first pass.
    fn open(alloc: Global, value: T) -> Result<(TurnLock<T>, Pass<T>), (NoMemory, T)>
        ensures own { IfOk result (λ r. r.1.seat.table_id ≡ r.0.table.shared.table_id) }
        ensures key { IfOk result (λ r. value_under r.0 ≡ value) }
        ensures pass { IfOk result (λ r. r.1.seat.me ≡ (founder (T.base value) (T.entries value), [])) }
        ensures back { IfErr result (λ e. e.1 ≡ value) }
    {
        let count = value.count();
        let key = Snapshot::of(&value);
        let mut slots = match Vec::with_capacity(alloc, 1) {
            Ok(slots) => slots,
            Err(_) => return Err((NoMemory, value)),
        };
        slots.push_reserved(Some(value));
        match Table::new(alloc, &[0, 0, count], slots, &key) {
            Ok((table, seat)) => {
                let first = Pass {
                    seat,
                    ticket: 0,
                    number: 0,
                };
                Ok((TurnLock { table }, first))
            }
            Err(Refused { slots }) => Err((NoMemory, returned(slots, &key))),
        }
    }

    // Returns a new pass with the next number. The first pass, `pass`, counts the passes that were made.
    fn next_pass(&self, pass: &mut Pass<T>, number: u32) -> Pass<T>
        requires own { IsPassOf T.base T.entries self.now pass.old }
        requires idle { IsPassIdle pass.old }
        requires makes { pass.old.seat.me.0.passes_made ≡ Some number }
        requires room { number + 1 < 2 ^ 32 }
        ensures own { (pass.new.seat.table_id ≡ self.now.table.shared.table_id) × (result.seat.table_id ≡ self.now.table.shared.table_id) }
        ensures pass { pass.new.seat.me ≡ (one_pass_more pass.old.seat.me.0, []) }
        ensures new { result.seat.me ≡ (copy_of pass.old.seat.me.0, []) }
    {
        let seat = self.table.shared.split_seat::<SplitPass>(&mut pass.seat);
        Pass {
            seat,
            ticket: 0,
            number,
        }
    }
}
