//! The searcher's policy: parameters that no proof depends on, so that measurements can change them.
//!
//! `benchmarks/time/run` times single auctions with the searcher, and `benchmarks/time/batch` many at once. `docs/DECISIONS.md` has what
//! a model of the searcher showed of single parameters.

/// What an engine searches for.
#[derive(Clone, Copy, Debug, PartialEq, Eq)]
pub(crate) enum Purpose {
    /// Answers to the queries of an auction. Only stations whose last channel is lost come into play, since most fits leave most
    /// stations where they are, and the local search looks for fits beside the search.
    Answers,
    /// A shorter log of a refutation. Each of its stations is in play from the start.
    ShorterLog,
}

/// The search restarts after Luby's numbers times this many conflicts. The local search finds most fits, so restarts are as rare as
/// refutations like them.
pub(crate) const RESTART_UNIT: u64 = 4096;

/// The moves of the local search before a search.
pub(crate) const MOVES_BEFORE_SEARCH: u32 = 300;

/// The moves of the local search for each conflict of the search beside it.
pub(crate) const MOVES_OF_CONFLICT: u32 = 20;

/// The local search makes its moves after every this many conflicts.
pub(crate) const CONFLICTS_BETWEEN_MOVES: u32 = 256;

/// A clause with more literals than this remembers where its last watch was found.
pub(crate) const LITERALS_OF_SHORT_CLAUSE: u32 = 6;

/// A search for a shorter log has this many times the worker's budget of conflicts.
pub(crate) const BUDGETS_OF_SHORTER_LOG: u32 = 3;

/// If no log is short enough then, one is searched for from nothing, over the stations of the shortest, up to this many times. Of three
/// auctions, twelve decided one test more in one, and three fewer in another, in three times the time (`benchmarks/runs`).
pub(crate) const SEARCHES_FROM_NOTHING: u32 = 4;

/// The crowd's engine is used if at most one in this many of a log's stations is new to it. Lines learnt of other stations lead through
/// those stations. With one engine for all crowds, the model left a quarter more lines of logs (`docs/DECISIONS.md`). The share was chosen
/// without a measurement.
pub(crate) const GROUP_STATIONS_TO_ONE_NEW: u32 = 5;

/// A conflict makes each variable that it meets more active by this many steps. Chosen without a measurement.
pub(crate) const STEPS_OF_CONFLICT: f64 = 1.0;

/// The step of variable activity grows by 1 / 0.92 with each conflict.
pub(crate) const VARIABLE_DECAY: f64 = 0.92;

/// The step of line use grows by 1 / 0.999 with each conflict, so that lines of late conflicts are kept. Chosen without a measurement.
pub(crate) const LINE_DECAY: f64 = 0.999;

/// If a line's use exceeds this, all are scaled down, so that none overflows an `f64`. Chosen without a measurement.
pub(crate) const MOST_USE: f64 = 1e100;

/// The number of lines learnt between two thinnings, so that propagation doesn't visit ever more of them. Chosen without a measurement.
pub(crate) const LINES_BETWEEN_REDUCTIONS: usize = 4000;

/// A thinning drops one in this many of the droppable lines, the least used first. Chosen without a measurement.
pub(crate) const LINES_TO_ONE_DROPPED: usize = 2;

/// A line with literals of at most this many levels is never dropped: the fewer levels, the sooner the line forces a literal. Chosen
/// without a measurement.
pub(crate) const MOST_LEVELS_OF_KEPT_LINE: u32 = 4;

/// Lines that no stored clause needs are deleted in a sweep. A sweep is due when the stored lines have grown, since the last sweep, by
/// one for each this many, and by `SPARE_LINES_BEFORE_SWEEP` more. A sweep moves all lines that stay, so more lines delay the next.
/// Chosen without a measurement.
pub(crate) const LINES_HELD_TO_ONE_NEW: usize = 2;

/// The additional lines before a sweep, so that few lines aren't swept again and again. Chosen without a measurement.
pub(crate) const SPARE_LINES_BEFORE_SWEEP: usize = 20_000;
