//! The figures of the search. Nothing else depends on them, so they can change by measurement. `benchmarks/solver` times the solver
//! with them.

/// The poll is called before the first line or conflict and then after every this many. A call takes a turn of a lock that threads
/// share; if another query is current, up to this many lines are learnt in vain. Chosen without a measurement.
pub(crate) const LINES_BETWEEN_POLLS: u32 = 16;

/// The unit of the restart intervals, in conflicts: the search restarts after Luby's numbers (Luby et al. 1993) of this unit. The
/// first value was 100; `benchmarks/solver` has figures for 1,000 only.
pub(crate) const RESTART_UNIT: u64 = 1000;

/// Each conflict raises the activity of its variables by 1 / 0.95 times what the conflict before it added. Chosen without a
/// measurement.
pub(crate) const VARIABLE_DECAY: f64 = 0.95;

/// The initial activity, in steps, of each channel of a station that has none in the last map. These stations come before all
/// others. Chosen without a measurement.
pub(crate) const STEPS_WITHOUT_CHANNEL: f64 = 2.0;

/// The initial activity, in steps, of the channel that a station has in the last map. Chosen without a measurement.
pub(crate) const STEPS_OF_LAST_CHANNEL: f64 = 1.0;

/// How much a conflict raises the activity of a variable that it involves, in steps. Chosen without a measurement.
pub(crate) const STEPS_OF_CONFLICT: f64 = 1.0;
