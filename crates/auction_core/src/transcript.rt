//! A transcript as a value. The parser makes one from the text; `check_sequence` checks it.

use crate::record::{Shown, Step};
use pack_defs::items::Items;
use pack_defs::order::Order;

/// A step of a transcript, with the line numbers of its logs.
#[derive(Debug, Drop)]
pub struct TranscriptStep {
    pub step: Step,
    /// The number of the first line of each log in this step that extends the clauses of the test's set.
    ///
    /// An undecided step has one number for each receipt, 0 where the receipt has no log line. A step settled by a proof from
    /// outside has one number. Every other step has none. The right number depends on the steps before, so the check compares it.
    pub firsts: Items<u64>,
}

/// A transcript: the test order of a round, how the start test was settled, and the steps after it.
#[derive(Debug, Drop)]
pub struct Transcript {
    /// The test order of a round: the version that the first line names.
    pub order: Order,
    pub start: Shown,
    pub steps: Items<TranscriptStep>,
}
