//! The beginning of a transcript, and why it may not be continued. The parser makes a `Prefix` from a text that may be cut
//! anywhere; `auction` resumes from it.

ghost use Rattle.std.specs.Prelude.{◌≡◌};
ghost use Rattle.auction_core.specs.declared.prefix.ResumeErr.TheVariants.{NoMemory};

use crate::record::Shown;
use crate::transcript::TranscriptStep;
use cert_types::answer::Place;
use pack_defs::items::Items;
use pack_defs::order::Order;
use std::alloc::{AllocError, AllocFailed};

/// The beginning of a transcript, cut anywhere: the parts that are complete.
#[derive(Debug, Drop)]
pub struct Prefix {
    /// The test order of a round, if the first line is there.
    pub order: Option<Order>,
    /// How the start test was settled, if that line is there.
    pub start: Option<Shown>,
    /// The complete steps after the start.
    pub steps: Items<TranscriptStep>,
    /// Whether the `end` line is there.
    pub ended: bool,
}

/// Why a step of a transcript is not proved.
#[derive(Clone, Copy, Debug, PartialEq, Eq)]
pub enum ShownWhy {
    /// The clock rule asks another test there, or none, or the transcript ends too soon.
    Order,
    /// The step's certificate is invalid at this place. `Place::Kind` also covers three mistakes. A step is settled by a query
    /// where none is needed, or the reverse. A step names a worker that the scenario does not have. An undecided step lacks a
    /// receipt of some worker.
    NotValid(Place),
}

/// Why an auction does not continue from a transcript or from the beginning of one.
#[derive(Clone, Copy, Debug, PartialEq, Eq)]
pub enum ResumeErr {
    /// The first step that is not proved. 0 is the start; the first step after it is 1.
    NotShown { step: u64, why: ShownWhy },
    /// Memory ran out.
    NoMemory,
}

impl From<AllocError> for ResumeErr {
    ghost from_gives = { λ _ e. e ≡ NoMemory };

    fn from(_e: AllocError) -> ResumeErr {
        ResumeErr::NoMemory
    }
}

impl<T: Drop> From<AllocFailed<T>> for ResumeErr {
    ghost from_gives = { λ _ e. e ≡ NoMemory };

    fn from(_e: AllocFailed<T>) -> ResumeErr {
        ResumeErr::NoMemory
    }
}
