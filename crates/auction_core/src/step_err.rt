//! Why a step of a transcript was rejected. Internal to the check: `check_sequence` turns these into `ResumeErr`.

ghost use Rattle.std.specs.Prelude.{◌≡◌, IfErr, None, OnOk, Option, Some, option_map};
ghost use Rattle.cert_types.specs.declared.answer.Place.{Place};
ghost use Rattle.auction_core.specs.Checked.{IsStepFault, numbered_fault, step_err};
ghost use Rattle.auction_core.specs.NotShown.{or_first_line};
ghost use Rattle.auction_core.specs.declared.prefix.ShownWhy.TheVariants.{NotValid};
ghost use Rattle.auction_core.specs.declared.step_err.StepErr.TheVariants.{NoMemory};

use crate::prefix::ShownWhy;
use cert_types::answer::{CertifyWhy, Place};
use std::alloc::{AllocError, AllocFailed};

/// Why a step was rejected.
#[derive(Clone, Copy, Debug, PartialEq, Eq)]
pub(crate) enum StepErr {
    /// The step is not proved.
    Fault(ShownWhy),
    /// Memory ran out.
    NoMemory,
}

impl From<AllocError> for StepErr {
    ghost from_gives = { λ _ e. e ≡ NoMemory };

    fn from(_e: AllocError) -> StepErr {
        StepErr::NoMemory
    }
}

impl<T: Drop> From<AllocFailed<T>> for StepErr {
    ghost from_gives = { λ _ e. e ≡ NoMemory };

    fn from(_e: AllocFailed<T>) -> StepErr {
        StepErr::NoMemory
    }
}

/// Returns the error of an answer that is invalid at this place.
pub(crate) fn not_valid(place: Place) -> StepErr
    ensures { result ≡ step_err (CertifyWhy.Rejected place) }
{
    StepErr::Fault(ShownWhy::NotValid(place))
}

/// Returns the error of an answer that was rejected for this reason.
pub(crate) fn why_of(why: CertifyWhy) -> StepErr
    ensures { result ≡ step_err why }
{
    match why {
        CertifyWhy::Rejected(place) => StepErr::Fault(ShownWhy::NotValid(place)),
        CertifyWhy::NoMemory => StepErr::NoMemory,
    }
}

/// Turns a fault into an error, and no fault into success.
pub(crate) fn told(why: Option<ShownWhy>) -> Result<(), StepErr>
    ensures told { OnOk result (why ≡ None) }
    ensures why { IfErr result (λ e. IsStepFault e why) }
{
    match why {
        Some(why) => Err(StepErr::Fault(why)),
        None => Ok(()),
    }
}

// Returns the first error of a log whose first line has a wrong number: line 1, unless an earlier place is invalid.
fn or_first_line(place: Place) -> Place
    ensures { Some result ≡ or_first_line (Some place) }
{
    match place {
        Place::Kind => Place::Kind,
        Place::Count => Place::Count,
        _ => Place::LineAt(1),
    }
}

/// Returns the error of a step with a log. If the log begins with a wrong number (`right` is false), the error moves to line 1.
pub(crate) fn numbered(right: bool, e: StepErr) -> StepErr
    ensures { (fault : Option Place) → IsStepFault e (option_map NotValid fault) → IsStepFault result (option_map NotValid (numbered_fault right fault)) }
{
    if right {
        return e;
    }
    match e {
        StepErr::Fault(ShownWhy::NotValid(place)) => not_valid(or_first_line(place)),
        StepErr::Fault(ShownWhy::Order) => e,
        StepErr::NoMemory => e,
    }
}
