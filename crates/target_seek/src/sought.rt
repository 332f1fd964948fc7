//! What a search for the least top channel found.

/// The result of a search for the least top channel.
#[derive(Clone, Copy, Debug, PartialEq, Eq)]
pub enum Sought {
    /// The start set does not fit up to the last top, and so up to none.
    NoneFits,
    /// The test of the last top is undecided.
    LastOpen,
    /// The set fits up to this top, and up to no lesser one from the first on.
    Least { top: u8 },
    /// The set fits up to this top; the test of the top below is undecided.
    AboveOpen { top: u8 },
}
