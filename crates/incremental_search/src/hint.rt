//! The clauses that a learnt line depends on.

/// A clause that a line's derivation uses.
#[derive(Clone, Copy, Debug, PartialEq, Eq)]
pub(crate) enum Hint {
    /// Two variables that may not both be true: two channels of one station, or two that interfere.
    Pair { v: u32, w: u32 },
    /// The clause of the station at this place: the station, if in the set, is on one of its channels.
    Own(u32),
    /// An earlier line.
    Line(u32),
}

/// Why a literal is true.
#[derive(Clone, Copy, Debug, PartialEq, Eq)]
pub(crate) enum Reason {
    /// The literal was decided or assumed.
    Decision,
    /// The literal negates one of two variables that may not both be true, and the other variable is true.
    Pair { v: u32, w: u32 },
    /// All other literals of the stored clause at this place are false.
    Clause { at: u32 },
}
