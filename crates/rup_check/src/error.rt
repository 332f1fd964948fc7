//! Why a line or a log is rejected.

ghost use Rattle.std.specs.Prelude.{◌≡◌};
ghost use Rattle.rup_check.specs.declared.error.LineErr.TheVariants as why;
ghost use Rattle.rup_check.specs.declared.error.LogErr.TheVariants as log;

use std::alloc::{AllocError, AllocFailed};
use thiserror::Error;

/// Why a line does not follow. A hint is named by its place in the line, from 1.
#[derive(Clone, Copy, Debug, PartialEq, Eq, Error)]
pub enum LineErr {
    /// A variable of the line is 0 or above the number of variables, or occurs in two literals of the line.
    #[error("bad literals")]
    BadLits,
    /// The hint names no clause and no earlier line.
    #[error("hint {hint} names no clause")]
    NoSuchClause { hint: u64 },
    /// The hint's clause does not force a literal. Either none or several of its literals are not false, or the only one is true
    /// already.
    #[error("hint {hint} is not unit")]
    NotUnit { hint: u64 },
    /// The last hint's clause has a literal that is not false, or there is no hint.
    #[error("no clause is falsified")]
    NotFalsified,
    /// Memory ran out.
    #[error("out of memory")]
    NoMemory,
}

/// Why a log is rejected: its first line that does not follow, by its place from 1.
#[derive(Clone, Copy, Debug, PartialEq, Eq, Error)]
pub enum LogErr {
    /// The line does not follow.
    #[error("line {line}: {why}")]
    BadLine { line: u64, why: LineErr },
    /// Memory ran out.
    #[error("out of memory")]
    NoMemory,
}

impl From<AllocError> for LineErr {
    ghost from_gives = { λ _ e. e ≡ why.NoMemory };

    fn from(_e: AllocError) -> LineErr {
        LineErr::NoMemory
    }
}

impl<T: Drop> From<AllocFailed<T>> for LineErr {
    ghost from_gives = { λ _ e. e ≡ why.NoMemory };

    fn from(_e: AllocFailed<T>) -> LineErr {
        LineErr::NoMemory
    }
}

impl From<AllocError> for LogErr {
    ghost from_gives = { λ _ e. e ≡ log.NoMemory };

    fn from(_e: AllocError) -> LogErr {
        LogErr::NoMemory
    }
}
