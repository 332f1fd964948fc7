//! Why an owners' file is rejected.

ghost use Rattle.std.specs.Prelude.{◌≡◌};
ghost use Rattle.owner_line.specs.declared.error.OwnerAddErr.TheVariants.{NoMemory as NoRoom, Refused};
ghost use Rattle.owner_line.specs.declared.error.OwnerErr.TheVariants.{NoMemory};

use std::alloc::{AllocError, AllocFailed};
use thiserror::Error;

/// Why a record of an owners' file is invalid: the first reason that applies, in this order.
#[derive(Clone, Copy, Debug, PartialEq, Eq, Error)]
pub enum OwnerWhy {
    /// The record has fewer or more than three fields.
    #[error("not three fields")]
    Fields,
    /// The first or the second field isn't a number.
    #[error("bad number")]
    BadNumber,
    /// The round is above the last one in which the price falls.
    #[error("round out of range")]
    RoundRange,
    /// The auction has no station of this number.
    #[error("unknown station")]
    UnknownStation,
    /// The third field is neither `stay` nor `leave`.
    #[error("bad word")]
    BadWord,
    /// An earlier record has the same round and station.
    #[error("repeated")]
    Repeated,
}

/// Why an owners' file was not read.
#[derive(Clone, Copy, Debug, PartialEq, Eq)]
pub enum OwnerErr {
    /// A record is invalid: the first one, in this line. Lines are counted from 1.
    Row { line: u64, why: OwnerWhy },
    /// Memory ran out.
    NoMemory,
}

impl From<AllocError> for OwnerErr {
    ghost from_gives = { λ _ e. e ≡ NoMemory };

    fn from(_e: AllocError) -> OwnerErr {
        OwnerErr::NoMemory
    }
}

/// Why a record was not added.
#[derive(Clone, Copy, Debug, PartialEq, Eq)]
pub(crate) enum OwnerAddErr {
    /// The record is invalid.
    Refused(OwnerWhy),
    /// Memory ran out.
    NoMemory,
}

impl From<OwnerWhy> for OwnerAddErr {
    ghost from_gives = { λ why e. e ≡ Refused why };

    fn from(why: OwnerWhy) -> OwnerAddErr {
        OwnerAddErr::Refused(why)
    }
}

impl From<AllocError> for OwnerAddErr {
    ghost from_gives = { λ _ e. e ≡ NoRoom };

    fn from(_e: AllocError) -> OwnerAddErr {
        OwnerAddErr::NoMemory
    }
}

impl<T: Drop> From<AllocFailed<T>> for OwnerAddErr {
    ghost from_gives = { λ _ e. e ≡ NoRoom };

    fn from(_e: AllocFailed<T>) -> OwnerAddErr {
        OwnerAddErr::NoMemory
    }
}
