//! What a lock requires of its value, and what the proofs know of a pass. Everything except `count` exists in proofs only.

ghost use Rattle.std.specs.Prelude.{ℕ, List, length, ◌≡◌};

use std::collections::LinkedList;

/// A value with a history: a list of entries, each with the number of the pass that made it.
pub trait Chronicle {
    /// The part of the value that never changes, as contracts see it.
    type Base;

    /// An entry of the history, as contracts see it.
    type Entry;

    ghost base: { Self → Self.Base };

    ghost entries: { Self → List (ℕ × Self.Entry) };

    /// Returns the number of entries in the history.
    fn count(&self) -> u64
        ensures { result ≡ length (entries self.now) };
}

/// What is known of one pass: its number, the history that it has seen, and its own entries in the history.
pub struct PassKnowledge<E> {
    pub number: u64,
    pub seen: LinkedList<(u64, E)>,
    pub mine: LinkedList<(u64, E)>,
}

/// The view of a pass, for proofs only; no value of this type is made at run time.
pub struct View<B, E> {
    /// The ticket with which the pass waits or has the turn.
    pub ticket: Option<u64>,
    /// Whether the pass has the turn.
    pub turn: bool,
    /// How many passes were made, for the pass that counts them.
    pub passes_made: Option<u64>,
    /// The lock's base.
    pub base: Option<B>,
    /// The lock's first history.
    pub start: LinkedList<(u64, E)>,
    /// What is known of the pass.
    pub own: PassKnowledge<E>,
    /// What is known of the passes that were joined into it.
    pub joined: LinkedList<PassKnowledge<E>>,
}
