//! Reads the constraint files in pieces.
//!
//! Whatever the length of a file, no more of it is held than one piece and the line that the piece's end cuts. `sources` and
//! `batch_inputs` call it.

ghost use Rattle.std.specs.Prelude.{◌≡◌, ◌≤◌, ◌+◌, ◌++◌, ℕ, List, Ok, OnOk, Some, [], length};
ghost use Rattle.outside_io.specs.Files.{StoredFile};
ghost use Rattle.constraint_files.specs.Domains.{domains_fed, domains_of};
ghost use Rattle.constraint_files.specs.PairTable.{pairs_fed, pairs_of};
ghost use Rattle.pack_defs.specs.declared.domain.Domain.{Domain};
ghost use Rattle.outside_io.specs.declared.diary.CallEnd.TheVariants.{Done};
ghost use Rattle.commands.specs.Calls.{CallsOne, CallsPieces, begun_as, stopped_by};
ghost use Rattle.commands.specs.Inputs.{Agrees, CountsFault, and_then, file_of, refused_by, rows_read};
ghost use Rattle.commands.specs.Constraints.{IsBegun, IsFed, IsHandedOut};

use crate::inputs::input_file::{FILE_LIMIT, Stop, stop_of};
use crate::messages::refusal::Refusal;
use command_words::run_words::Input;
use constraint_files::domains::{DomainReader, Domains};
use constraint_files::error::ReadErr;
use constraint_files::pairs::{PairReader, Pairs};
use outside_io::folder::Folder;
use std::alloc::Global;

// Returns why the reading of a constraint file stops, for this error of its reader.
fn refused_by(input: Input, why: ReadErr) -> Stop
    ensures { result ≡ refused_by input why }
{
    match why {
        ReadErr::Row { line, why } => Stop::Refused(Refusal::Row { input, line, why }),
        ReadErr::NoMemory => Stop::NoMemory,
    }
}

// Begins an input file, which `next_piece` then reads.
fn begin<F: Folder>(folder: &mut F, name: &str, input: Input) -> Result<(), Stop>
    ensures modelled { (files : List StoredFile) → (F.modelled folder.old).files ≡ Some files →
        IsBegun (F.modelled folder.old).steady (file_of files name.now input) (F.left folder.new) result }
    ensures files { (F.modelled folder.new).files ≡ (F.modelled folder.old).files }
    ensures steady { (F.modelled folder.new).steady ≡ (F.modelled folder.old).steady }
    ensures counted { CountsFault (F.modelled folder.old).faults (F.modelled folder.new).faults result }
    ensures called { CallsOne (begun_as Done name.now) input (F.modelled folder.old).calls (F.modelled folder.new).calls (stopped_by result) }
{
    match folder.begin(name, FILE_LIMIT) {
        Ok(()) => Ok(()),
        Err(why) => Err(stop_of(why, input)),
    }
}

// Replaces `piece` with the next piece of the file that is begun. An empty piece is the end of the file.
fn next_piece<F: Folder>(folder: &mut F, input: Input, piece: &mut Vec<u8>) -> Result<(), Stop>
    ensures modelled { (rest : List ℕ) → F.left folder.old ≡ Some rest →
        IsHandedOut (F.modelled folder.old).steady rest (F.left folder.new) piece.new.items result }
    // Whatever the folder tells: a piece without bytes is the end of the file.
    ensures ended { OnOk result (length piece.new.items ≡ 0 → F.left folder.new ≡ Some []) }
    ensures come { F.come folder.new ≡ F.come folder.old + length piece.new.items }
    ensures most { F.most folder.new ≡ F.most folder.old }
    ensures within { F.come folder.new ≤ F.most folder.new }
    ensures files { (F.modelled folder.new).files ≡ (F.modelled folder.old).files }
    ensures steady { (F.modelled folder.new).steady ≡ (F.modelled folder.old).steady }
    ensures counted { CountsFault (F.modelled folder.old).faults (F.modelled folder.new).faults result }
    ensures called { CallsPieces input (F.modelled folder.old).calls (F.modelled folder.new).calls (stopped_by result) }
{
    match folder.piece(piece) {
        Ok(()) => Ok(()),
        Err(why) => Err(stop_of(why, input)),
    }
}

// Feeds the rest of the file that is begun to a reader of domains.
fn feed_domains<F: Folder>(
    alloc: Global,
    folder: &mut F,
    reader: DomainReader,
) -> Result<DomainReader, Stop>
    ensures modelled { (done rest : List ℕ) → F.left folder.old ≡ Some rest → domains_fed done ≡ Ok reader →
        IsFed (F.modelled folder.old).steady (domains_fed (done ++ rest)) (rows_read Input.Domains (domains_of (done ++ rest))) result }
    // Whatever the folder tells: the file was read to its end.
    ensures ended { OnOk result (F.left folder.new ≡ Some []) }
    ensures files { (F.modelled folder.new).files ≡ (F.modelled folder.old).files }
    ensures steady { (F.modelled folder.new).steady ≡ (F.modelled folder.old).steady }
    ensures counted { CountsFault (F.modelled folder.old).faults (F.modelled folder.new).faults result }
    ensures called { CallsPieces Input.Domains (F.modelled folder.old).calls (F.modelled folder.new).calls (stopped_by result) }
{
    let mut reader = reader;
    let mut piece = Vec::new(alloc);
    loop {
        next_piece(folder, Input::Domains, &mut piece)?;
        if piece.is_empty() {
            return Ok(reader);
        }
        match reader.feed(&piece) {
            Ok(fed) => reader = fed,
            Err(why) => return Err(refused_by(Input::Domains, why)),
        }
    }
}

/// Returns the domains that the domains file of this name holds.
///
/// # Errors
///
/// `CannotRead` if the file cannot be read, `Refused` if it is too long or one of its records is rejected, `NoMemory` if memory
/// runs out. No file is changed.
pub(crate) fn domains_from<F: Folder>(
    alloc: Global,
    folder: &mut F,
    name: &str,
) -> Result<Domains, Stop>
    ensures modelled { (files : List StoredFile) → (F.modelled folder.old).files ≡ Some files → Agrees (λ d. d) (F.modelled folder.old).steady
        (and_then (file_of files name.now Input.Domains) (λ bytes. rows_read Input.Domains (domains_of bytes))) result }
    // Whatever the folder tells: the file was read to its end.
    ensures ended { OnOk result (F.left folder.new ≡ Some []) }
    ensures files { (F.modelled folder.new).files ≡ (F.modelled folder.old).files }
    ensures steady { (F.modelled folder.new).steady ≡ (F.modelled folder.old).steady }
    ensures counted { CountsFault (F.modelled folder.old).faults (F.modelled folder.new).faults result }
    ensures called { CallsOne (begun_as Done name.now) Input.Domains (F.modelled folder.old).calls (F.modelled folder.new).calls (stopped_by result) }
{
    let Ok(reader) = DomainReader::make(alloc) else {
        return Err(Stop::NoMemory);
    };
    begin(folder, name, Input::Domains)?;
    match feed_domains(alloc, folder, reader)?.finish() {
        Ok(domains) => Ok(domains),
        Err(why) => Err(refused_by(Input::Domains, why)),
    }
}

// Feeds the rest of the file that is begun to a reader of pairs.
fn feed_pairs<'a, F: Folder>(
    alloc: Global,
    folder: &mut F,
    reader: PairReader<'a>,
) -> Result<PairReader<'a>, Stop>
    ensures modelled { (done rest : List ℕ) (domains : List Domain) → F.left folder.old ≡ Some rest → pairs_fed done domains ≡ Ok reader.entry →
        IsFed (F.modelled folder.old).steady (pairs_fed (done ++ rest) domains) (rows_read Input.Rows (pairs_of (done ++ rest) domains)) result }
    // Whatever the folder tells: the file was read to its end.
    ensures ended { OnOk result (F.left folder.new ≡ Some []) }
    ensures files { (F.modelled folder.new).files ≡ (F.modelled folder.old).files }
    ensures steady { (F.modelled folder.new).steady ≡ (F.modelled folder.old).steady }
    ensures counted { CountsFault (F.modelled folder.old).faults (F.modelled folder.new).faults result }
    ensures called { CallsPieces Input.Rows (F.modelled folder.old).calls (F.modelled folder.new).calls (stopped_by result) }
{
    let mut reader = reader;
    let mut piece = Vec::new(alloc);
    loop {
        next_piece(folder, Input::Rows, &mut piece)?;
        if piece.is_empty() {
            return Ok(reader);
        }
        match reader.feed(&piece) {
            Ok(fed) => reader = fed,
            Err(why) => return Err(refused_by(Input::Rows, why)),
        }
    }
}

/// Returns the pairs that the rows file of this name holds, over these domains.
///
/// # Errors
///
/// `CannotRead` if the file cannot be read, `Refused` if it is too long or one of its records is rejected, `NoMemory` if memory
/// runs out. No file is changed.
pub(crate) fn pairs_from<F: Folder>(
    alloc: Global,
    folder: &mut F,
    name: &str,
    domains: &Domains,
) -> Result<Pairs, Stop>
    ensures modelled { (files : List StoredFile) → (F.modelled folder.old).files ≡ Some files → Agrees (λ p. p) (F.modelled folder.old).steady
        (and_then (file_of files name.now Input.Rows) (λ bytes. rows_read Input.Rows (pairs_of bytes domains.now))) result }
    // Whatever the folder tells: the file was read to its end.
    ensures ended { OnOk result (F.left folder.new ≡ Some []) }
    ensures files { (F.modelled folder.new).files ≡ (F.modelled folder.old).files }
    ensures steady { (F.modelled folder.new).steady ≡ (F.modelled folder.old).steady }
    ensures counted { CountsFault (F.modelled folder.old).faults (F.modelled folder.new).faults result }
    ensures called { CallsOne (begun_as Done name.now) Input.Rows (F.modelled folder.old).calls (F.modelled folder.new).calls (stopped_by result) }
{
    let Ok(reader) = PairReader::make(alloc, domains) else {
        return Err(Stop::NoMemory);
    };
    begin(folder, name, Input::Rows)?;
    match feed_pairs(alloc, folder, reader)?.finish() {
        Ok(pairs) => Ok(pairs),
        Err(why) => Err(refused_by(Input::Rows, why)),
    }
}
