//! The error of the reader.

ghost use Rattle.std.specs.Prelude.{◌≡◌};
ghost use Rattle.lrat_text.specs.declared.error.LratErr.TheVariants.{NoMemory};

use std::alloc::{AllocError, AllocFailed};
use thiserror::Error;

/// Why a text is not a proof log. Lines are counted from 1.
///
/// `Truncated`: the text ends within a line; this error comes before all others. `BadLine`: the line is not a line of
/// a log. `RatStep`: a hint of the line is negative, so the line is a RAT step of LRAT, which the checker does not
/// support. `NoMemory`: memory ran out.
#[derive(Clone, Copy, Debug, PartialEq, Eq, Error)]
pub enum LratErr {
    #[error("truncated")]
    Truncated,
    #[error("line {n}: bad line")]
    BadLine { n: u64 },
    #[error("line {n}: RAT step")]
    RatStep { n: u64 },
    #[error("out of memory")]
    NoMemory,
}

impl From<AllocError> for LratErr {
    ghost from_gives = { λ _ e. e ≡ NoMemory };

    fn from(_e: AllocError) -> LratErr {
        LratErr::NoMemory
    }
}

impl<T: Drop> From<AllocFailed<T>> for LratErr {
    ghost from_gives = { λ _ e. e ≡ NoMemory };

    fn from(_e: AllocFailed<T>) -> LratErr {
        LratErr::NoMemory
    }
}
