//! The types of the lock, its passes and its turns. The calls on them are in `make`, `turns` and `close`.

ghost use Rattle.std.specs.Prelude.{◌≡◌};

use crate::chronicle::{Chronicle, View};
use crate::rule::LockRule;
use atomic_table::{Seat, Table};
use std::alloc::Global;
use std::snapshot::Snapshot;

/// A ticket lock around a value. The value is in the one slot of a table, or lent to the pass that has the turn. Three words are
/// stored beside it: the next ticket, the ticket that is served, and the length of the value's history.
///
/// A lock cannot be dropped: `close` ends it together with all its passes.
pub struct TurnLock<T: Chronicle> {
    pub(crate) table: Table<Option<T>, View<T::Base, T::Entry>, Snapshot<T>, LockRule<T>, Global>,
    ghost sized: { (table.shared.table_id.words ≡ 3) × (table.shared.table_id.slots ≡ 1) },
}

/// The right to take turns, one after another. A pass may move to another thread between two turns.
///
/// Keep every pass: `close` requires all of them, so a lock with a dropped pass can never be ended.
#[derive(Drop)]
pub struct Pass<T: Chronicle> {
    pub(crate) seat: Seat<Option<T>, View<T::Base, T::Entry>>,
    pub(crate) ticket: u64,
    pub(crate) number: u32,
    ghost numbered: { number ≡ seat.me.0.own.number },
}

/// The value of a lock during a turn, from `enter` to `leave`.
///
/// A turn cannot be dropped, because the lock's slot is empty during the turn; `leave` takes the value back.
pub struct Turn<T> {
    pub value: T,
}
