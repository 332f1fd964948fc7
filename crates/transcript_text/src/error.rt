//! The error of every reader in this crate.

ghost use Rattle.std.specs.Prelude.{◌≡◌};
ghost use Rattle.transcript_text.specs.declared.error.TextErr.TheVariants.{NoMemory};

use std::alloc::{AllocError, AllocFailed};
use thiserror::Error;

/// Why a text is not a transcript.
///
/// `Version`: the first line is complete and names no version of transcripts. `BadLine`: line `n`, counted from 1, is
/// the first complete line that is not allowed at its place. Bytes after the `end` line count as a line. `Truncated`:
/// the text ends before its `end` line. `NoMemory`: memory ran out.
#[derive(Clone, Copy, Debug, PartialEq, Eq, Error)]
pub enum TextErr {
    #[error("version")]
    Version,
    #[error("line {n}: bad line")]
    BadLine { n: u64 },
    #[error("truncated")]
    Truncated,
    #[error("out of memory")]
    NoMemory,
}

impl From<AllocError> for TextErr {
    ghost from_gives = { λ _ e. e ≡ NoMemory };

    fn from(_e: AllocError) -> TextErr {
        TextErr::NoMemory
    }
}

impl<T: Drop> From<AllocFailed<T>> for TextErr {
    ghost from_gives = { λ _ e. e ≡ NoMemory };

    fn from(_e: AllocFailed<T>) -> TextErr {
        TextErr::NoMemory
    }
}
