//! The content of a step's first line, before the lines after it are read. `heads` reads it.

use pack_defs::pair::Pair;

/// The test that a step answers.
#[derive(Clone, Copy, Debug, PartialEq, Eq)]
pub struct StepTest {
    /// The round, as the line has it.
    pub round: u32,
    /// The station's facility number.
    pub station: u32,
}

/// The content of a step's first line, or of a transcript's last line.
#[derive(Clone, Copy, Debug, PartialEq, Eq)]
pub enum Head {
    /// `fit`: the test's set fits. The next `count` lines are the entries of its change.
    Fit {
        test: StepTest,
        count: u64,
    },
    /// `same`: the test fits with the same change as the station's test one round before.
    Same {
        test: StepTest,
    },
    /// `none`: the station has no channel.
    NoChannel {
        test: StepTest,
    },
    /// `log`: a proof by this worker, of `count` lines.
    Log {
        test: StepTest,
        worker: u32,
        count: u64,
    },
    /// `dead`: a dead pair found by this worker.
    Dead {
        test: StepTest,
        worker: u32,
        pair: Pair,
    },
    /// `outside`: a proof from outside, of `count` lines.
    Outside {
        test: StepTest,
        count: u64,
    },
    /// `undecided`: a receipt of each worker follows.
    Undecided {
        test: StepTest,
    },
    /// `end`: the last line. No step follows.
    End,
}
