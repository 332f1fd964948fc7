//! Reads one input file, and names why the reading of the inputs stops. The limits on the lengths of files are here.
//!
//! `constraints`, `sources`, `inputs` and `batch_inputs`, which read the inputs, build on it. It calls none of them.

ghost use Rattle.std.specs.Prelude.{◌≡◌, List, Some};
ghost use Rattle.outside_io.specs.Files.{StoredFile};
ghost use Rattle.commands.specs.declared.inputs.input_file.Stop.TheVariants.{NoMemory};
ghost use Rattle.outside_io.specs.declared.diary.CallEnd.TheVariants.{Done};
ghost use Rattle.commands.specs.Calls.{CallsOne, loaded_as, stopped_by};
ghost use Rattle.commands.specs.Inputs.{Agrees, CountsFault, file_of, stop_of};

use crate::messages::refusal::Refusal;
use command_words::run_words::Input;
use outside_io::folder::{Folder, LoadErr};
use std::alloc::{AllocError, Global};

/// The greatest length of an input file, in bytes.
pub const FILE_LIMIT: u64 = 268_435_456;

/// The greatest length of a transcript, or of the beginning of one, in bytes.
pub const TRANSCRIPT_LIMIT: u64 = 68_719_476_736;

/// Why the inputs were not read.
#[derive(Clone, Copy, Debug, PartialEq, Eq)]
pub enum Stop {
    /// This file cannot be read.
    CannotRead(Input),
    /// A file is too long, or its contents are rejected.
    Refused(Refusal),
    /// Memory ran out.
    NoMemory,
}

impl From<AllocError> for Stop {
    ghost from_gives = { λ _ e. e ≡ NoMemory };

    fn from(_error: AllocError) -> Stop {
        Stop::NoMemory
    }
}

/// Returns why the reading of an input file stops, for this error of the folder.
pub(crate) fn stop_of(why: LoadErr, input: Input) -> Stop
    ensures { result ≡ stop_of why input }
{
    match why {
        LoadErr::Failed => Stop::CannotRead(input),
        LoadErr::TooLong => Stop::Refused(Refusal::TooLong(input)),
        LoadErr::NoMemory => Stop::NoMemory,
    }
}

/// Returns the bytes of an input file, at most `FILE_LIMIT` of them.
pub(crate) fn load<F: Folder>(
    alloc: Global,
    folder: &mut F,
    name: &str,
    input: Input,
) -> Result<Vec<u8>, Stop>
    ensures modelled { (files : List StoredFile) → (F.modelled folder.old).files ≡ Some files →
        Agrees (λ v. v.items) (F.modelled folder.old).steady (file_of files name.now input) result }
    ensures files { (F.modelled folder.new).files ≡ (F.modelled folder.old).files }
    ensures steady { (F.modelled folder.new).steady ≡ (F.modelled folder.old).steady }
    ensures counted { CountsFault (F.modelled folder.old).faults (F.modelled folder.new).faults result }
    ensures called { CallsOne (loaded_as Done name.now) input (F.modelled folder.old).calls (F.modelled folder.new).calls (stopped_by result) }
{
    let mut bytes = Vec::new(alloc);
    match folder.load(name, FILE_LIMIT, &mut bytes) {
        Ok(()) => Ok(bytes),
        Err(why) => Err(stop_of(why, input)),
    }
}
