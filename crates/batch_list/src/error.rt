//! Why a list is rejected.

ghost use Rattle.std.specs.Prelude.{◌≡◌};
ghost use Rattle.batch_list.specs.declared.error.ListAddErr.TheVariants.{NoMemory as NoRoom};
ghost use Rattle.batch_list.specs.declared.error.ListErr.TheVariants.{NoMemory};

use std::alloc::{AllocError, AllocFailed};

/// Why a list was not read.
#[derive(Clone, Copy, Debug, PartialEq, Eq)]
pub enum ListErr {
    /// A record is invalid: the first one, in this line. Lines are counted from 1.
    BadLine { line: u64 },
    /// The list has no record.
    Empty,
    /// Memory ran out.
    NoMemory,
}

impl From<AllocError> for ListErr {
    ghost from_gives = { λ _ e. e ≡ NoMemory };

    fn from(_e: AllocError) -> ListErr {
        ListErr::NoMemory
    }
}

/// Why a record was not added.
#[derive(Clone, Copy, Debug, PartialEq, Eq)]
pub(crate) enum ListAddErr {
    /// The record is invalid.
    Refused,
    /// Memory ran out.
    NoMemory,
}

impl From<AllocError> for ListAddErr {
    ghost from_gives = { λ _ e. e ≡ NoRoom };

    fn from(_e: AllocError) -> ListAddErr {
        ListAddErr::NoMemory
    }
}

impl<T: Drop> From<AllocFailed<T>> for ListAddErr {
    ghost from_gives = { λ _ e. e ≡ NoRoom };

    fn from(_e: AllocFailed<T>) -> ListAddErr {
        ListAddErr::NoMemory
    }
}
