//! The rule of the lock, and what a pass learns from each step on the lock's words. `specs/Turns.antt` defines their meaning. No
//! value of these types is made; `make`, `turns` and `close` name them at their steps.

ghost use Rattle.std.specs.Prelude.{ℕ, Option, None};
ghost use Rattle.turn_lock.specs.Turns.{RuleKept, copy_of, counted, drawn, founder, joined_view, left, looked, nobody, one_pass_more};

use crate::chronicle::{Chronicle, View};
use atomic_table::{Join, Play, Split, TableRule};
use std::marker::{Brand, PhantomData};
use std::snapshot::Snapshot;

/// The rule: what holds of the words, the slot and all views between two steps.
pub struct LockRule<T> {
    marker: PhantomData<T>,
}

impl<T: Chronicle> TableRule<Option<T>, View<T::Base, T::Entry>, Snapshot<T>> for LockRule<T> {
    ghost holds = { λ key. RuleKept (T.base key.value) (T.entries key.value) T.base T.entries };

    ghost first = { λ key. founder (T.base key.value) (T.entries key.value) };
}

/// The step that draws a ticket.
pub struct DrawTicket;

impl<T: Chronicle> Play<Option<T>, View<T::Base, T::Entry>> for DrawTicket {
    ghost then = { drawn T.base T.entries };
}

/// The step that reads the ticket that is served. If the ticket is the pass's own, the pass has the turn.
pub struct CheckTicket;

impl<T: Chronicle> Play<Option<T>, View<T::Base, T::Entry>> for CheckTicket {
    ghost then = { looked T.base T.entries };
}

/// The entry that a step adds.
pub trait AddsEntry<E> {
    ghost said: { Option (ℕ × E) };
}

impl<E> AddsEntry<E> for Brand {
    ghost said = { None };
}

/// The step that counts one more entry of the history, the one that `W` names.
pub struct CountEntry<W> {
    marker: PhantomData<W>,
}

impl<T: Chronicle, W: AddsEntry<T::Entry>> Play<Option<T>, View<T::Base, T::Entry>>
    for CountEntry<W> {
    ghost then = { counted T.base T.entries W.said };
}

/// The step that gives the turn to the next ticket.
pub struct ServeNext;

impl<T: Chronicle> Play<Option<T>, View<T::Base, T::Entry>> for ServeNext {
    ghost then = { left T.base T.entries };
}

/// The step that makes a pass.
pub struct SplitPass;

impl<B, E> Split<View<B, E>> for SplitPass {
    ghost left = { one_pass_more };

    ghost right = { copy_of };
}

/// The step that joins two passes into one.
pub struct JoinPasses;

impl<B, E> Join<View<B, E>> for JoinPasses {
    ghost both = { joined_view };

    ghost spent = { nobody };
}
