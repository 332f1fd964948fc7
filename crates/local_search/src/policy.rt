//! The numbers of the local search. Nothing else depends on them, so they can change by measurement.

/// A station that lost a channel may not return to it for this many moves, and for up to `MOST_MORE_MOVES - 1` more at random. Taken
/// over from a model of the search (`docs/DECISIONS.md`), like the other numbers here.
pub(crate) const FEWEST_MOVES_AWAY: u64 = 3;

/// The number of different stays away, each one move longer than the one before.
pub(crate) const MOST_MORE_MOVES: u32 = 5;

/// If a station weighs more than this, all weights are divided by `WEIGHT_DIVISOR`, so that the sums of weights stay small.
pub(crate) const MOST_WEIGHT: u32 = 100_000;

/// What weights are divided by.
pub(crate) const WEIGHT_DIVISOR: u32 = 4;
