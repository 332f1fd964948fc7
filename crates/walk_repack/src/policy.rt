//! The walk's policy: parameters that no proof depends on, so that measurements can change them. `benchmarks/walk` times a walk with
//! these parameters; none of them was compared with others.

/// The walk polls before the first move and then after this many moves. A poll takes a lock that other threads share, and this many moves
/// take 5 to 7 milliseconds (`benchmarks/walk`: 150,000 to 190,000 a second). No other number was measured.
pub(crate) const MOVES_BETWEEN_POLLS: usize = 1024;

/// A channel is closed to a station that left it for at least this many moves, so that the walk doesn't move back and forth. Chosen
/// without a measurement.
pub(crate) const LEAST_TABU_MOVES: u32 = 3;

/// The random number of additional closed moves is below this, so that a walk doesn't cycle. Chosen without a measurement.
pub(crate) const TABU_MOVES_SPREAD: u32 = 10;

/// A closed channel counts as if the station violated this many more pairs on it, so it comes after every open channel. Chosen without a
/// measurement.
pub(crate) const TABU_PENALTY: u32 = 1 << 24;

/// The fewest slots in which stations are looked up. Chosen without a measurement.
pub(crate) const LEAST_SLOTS: usize = 64;

/// At least this many slots for each station, so that most have a slot of their own. Chosen without a measurement.
pub(crate) const SLOTS_OF_STATION: usize = 4;

/// The slots are doubled at most this often, up to 4,194,304, which suffice for 1,048,576 stations; with more stations, some are found by
/// binary search. Chosen without a measurement.
pub(crate) const SLOT_DOUBLINGS: u32 = 16;
