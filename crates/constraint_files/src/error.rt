//! Why a constraint file is rejected.

ghost use Rattle.std.specs.Prelude.{◌≡◌};
ghost use Rattle.constraint_files.specs.declared.error.ReadErr.TheVariants.{NoMemory};
ghost use Rattle.constraint_files.specs.declared.error.RowErr.TheVariants.{NoMemory as NoRoom, Refused};

use std::alloc::{AllocError, AllocFailed};
use thiserror::Error;

/// Why a record of a constraint file is invalid: the first reason that applies, in this order.
#[derive(Clone, Copy, Debug, PartialEq, Eq, Error)]
pub enum RowWhy {
    /// The record has fewer than two fields, in a domains file, or fewer than four, in a rows file.
    #[error("short row")]
    ShortRow,
    /// The first field isn't `DOMAIN`, in a domains file, or none of the five keys, in a rows file.
    #[error("unknown key")]
    BadKey,
    /// A later field isn't a number.
    #[error("bad number")]
    BadNumber,
    /// A channel is outside 2 to 51.
    #[error("channel out of range")]
    ChannelRange,
    /// The second channel of a row differs from the first by another offset than the key says.
    #[error("channels do not fit the key")]
    BadOffset,
    /// The facility has a domain row already.
    #[error("second domain row")]
    SecondDomain,
    /// The record is the 65,537th domain row, or its pairs bring the kept pairs above 4,000,000.
    #[error("too many")]
    TooMany,
}

/// Why a constraint file was not read.
#[derive(Clone, Copy, Debug, PartialEq, Eq)]
pub enum ReadErr {
    /// A record is invalid: the first one, in this line. Lines are counted from 1.
    Row { line: u64, why: RowWhy },
    /// Memory ran out.
    NoMemory,
}

impl From<AllocError> for ReadErr {
    ghost from_gives = { λ _ e. e ≡ NoMemory };

    fn from(_e: AllocError) -> ReadErr {
        ReadErr::NoMemory
    }
}

/// Why a record was not added.
#[derive(Clone, Copy, Debug, PartialEq, Eq)]
pub(crate) enum RowErr {
    /// The record is invalid.
    Refused(RowWhy),
    /// Memory ran out.
    NoMemory,
}

impl From<RowWhy> for RowErr {
    ghost from_gives = { λ why e. e ≡ Refused why };

    fn from(why: RowWhy) -> RowErr {
        RowErr::Refused(why)
    }
}

impl From<AllocError> for RowErr {
    ghost from_gives = { λ _ e. e ≡ NoRoom };

    fn from(_e: AllocError) -> RowErr {
        RowErr::NoMemory
    }
}

impl<T: Drop> From<AllocFailed<T>> for RowErr {
    ghost from_gives = { λ _ e. e ≡ NoRoom };

    fn from(_e: AllocFailed<T>) -> RowErr {
        RowErr::NoMemory
    }
}
