//! Reads the inputs and a transcript, checks each of its steps, and returns the record that the transcript certifies.
//!
//! `verify`, the views and `import` begin with `read_verified`. `resume` uses `read_text` and the messages.

ghost use Rattle.std.specs.Prelude.{◌≡◌, ◌≢◌, ◌⊎◌, ◌<◌, ◌≤◌, ◌+◌, [], ℕ, IfErr, IfOk, List, None, Some, Ok, Err, OnOk};
ghost use Rattle.outside_io.specs.Pieces.{piece_size};
ghost use Rattle.pack_defs.specs.Scenario.{IsWithinLimits};
ghost use Rattle.auction_core.specs.Setup.{IsOfAuction};
ghost use Rattle.transcript_text.specs.Pieces.{HasRead};
ghost use Rattle.commands.specs.Ends.{IsShown, VerifyEnds};
ghost use Rattle.commands.specs.Faults.{AreFaultsCounted};
ghost use Rattle.commands.specs.Inputs.{transcript_limit};
ghost use Rattle.commands.specs.Outside.{outside};
ghost use Rattle.commands.specs.Shown.{ExplainsRecordErr, ExplainsLoad, IsFileRead, IsTextRead, IsVerdict, not_read};
ghost use Rattle.commands.specs.Verified.{record_by, verified};
ghost use Rattle.command_words.specs.Words.{verify_view};

use crate::finish::Finish;
use crate::inputs::input_file::{FILE_LIMIT, TRANSCRIPT_LIMIT};
use crate::inputs::{Inputs, read_inputs};
use crate::messages::explain::{explain, print_out_of_memory};
use crate::messages::fault::{TranscriptFault, print_fault};
use crate::messages::print_line;
use crate::status::{NO_MEMORY, NOT_SHOWN, REFUSED, UNREAD};
use auction_core::record::Record;
use auction_core::transcript::Transcript;
use command_words::run_words::VerifyArgs;
use outside_io::folder::{Folder, LoadErr};
use outside_io::sink::Sink;
use std::alloc::Global;
use transcript_check::VerifyErr;
use transcript_check::verify::verify as check_transcript;
use transcript_text::TextErr;
use transcript_text::reader::TranscriptReader;
use transcript_text::round_trip::keeps_named_numbers;

/// The inputs, and the record that a transcript of their auction certifies.
#[derive(Drop)]
pub struct ShownAuction {
    pub inputs: Inputs,
    pub record: Record,
}

// Why a transcript has no record.
pub enum RecordErr {
    // The transcript is rejected.
    Fault(TranscriptFault),
    // Memory ran out.
    NoMemory,
}

/// Reads the transcript of this name to the end of its file, and returns the reader. The text may also be the beginning of a
/// transcript.
///
/// The text is read in pieces. No more of it is held than one piece and the step that is read; for the start and receipts, up to
/// twice the step (see `transcript_text::reader`). An invalid text is reported only when the reader finishes.
///
/// # Errors
///
/// `Failed` if the file cannot be read, `TooLong` if it has more than `TRANSCRIPT_LIMIT` bytes, `NoMemory` if memory runs out. No
/// file is changed.
pub(crate) fn read_text<F: Folder>(
    alloc: Global,
    folder: &mut F,
    inputs: &Inputs,
    name: &str,
) -> Result<TranscriptReader, LoadErr>
    requires { IsWithinLimits inputs.now.scenario }
    ensures read { IsTextRead inputs.now (F.modelled folder.old).files (F.modelled folder.old).steady
        (F.modelled folder.old).faults (F.modelled folder.new).faults (F.come folder.new) name.now result }
    ensures files { (F.modelled folder.new).files ≡ (F.modelled folder.old).files }
    ensures steady { (F.modelled folder.new).steady ≡ (F.modelled folder.old).steady }
    ensures counted { (F.modelled folder.old).faults ≤ (F.modelled folder.new).faults }
    ensures faults_unchanged { result ≢ Err LoadErr.Failed → (F.modelled folder.new).faults ≡ (F.modelled folder.old).faults }
    // Whatever the folder tells: the file was read to its end, and is too long by its length or at a piece near the limit.
    ensures ended { OnOk result (F.left folder.new ≡ Some []) }
    ensures within { OnOk result (F.come folder.new ≤ transcript_limit) }
    ensures long { result ≡ Err LoadErr.TooLong → (F.come folder.new ≡ 0) ⊎ (transcript_limit < F.come folder.new + piece_size) }
{
    let mut reader = TranscriptReader::new(alloc);
    let mut piece = Vec::new(alloc);
    folder.begin(name, TRANSCRIPT_LIMIT)?;
    loop {
        folder.piece(&mut piece)?;
        if piece.is_empty() {
            return Ok(reader);
        }
        reader = reader.feed(&inputs.scenario, &inputs.book, &piece)?;
    }
}

/// Returns the bytes of the file of this name.
///
/// # Errors
///
/// `Failed` if the file cannot be read, `TooLong` if it has more than `FILE_LIMIT` bytes, `NoMemory` if memory runs out. No file
/// is changed.
pub(crate) fn file_bytes<F: Folder>(
    alloc: Global,
    folder: &mut F,
    name: &str,
) -> Result<Vec<u8>, LoadErr>
    ensures read { IsFileRead (F.modelled folder.old).files (F.modelled folder.old).steady
        (F.modelled folder.old).faults (F.modelled folder.new).faults name.now result }
    ensures files { (F.modelled folder.new).files ≡ (F.modelled folder.old).files }
    ensures steady { (F.modelled folder.new).steady ≡ (F.modelled folder.old).steady }
    ensures counted { (F.modelled folder.old).faults ≤ (F.modelled folder.new).faults }
    ensures faults_unchanged { result ≢ Err LoadErr.Failed → (F.modelled folder.new).faults ≡ (F.modelled folder.old).faults }
{
    let mut bytes = Vec::new(alloc);
    folder.load(name, FILE_LIMIT, &mut bytes)?;
    Ok(bytes)
}

/// Prints why the file of this name was not loaded, and returns the status for it: `UNREAD`, `REFUSED` or `NO_MEMORY`. Allocates
/// no memory.
pub fn print_unloaded<K: Sink>(out: &mut K, name: &str, why: LoadErr) -> u8
    ensures { ExplainsLoad name.now why
        (K.modelled out.old).held (K.modelled out.new).held (K.modelled out.old).faults (K.modelled out.new).faults result }
{
    match why {
        LoadErr::Failed => {
            print_line(out, &["cannot read ", name, "\n"]);
            UNREAD
        }
        LoadErr::TooLong => {
            print_line(out, &[name, ": too long\n"]);
            REFUSED
        }
        LoadErr::NoMemory => {
            print_out_of_memory(out);
            NO_MEMORY
        }
    }
}

// Returns the record that a transcript certifies, if each of its steps can be verified.
fn record_from(alloc: Global, inputs: &Inputs, transcript: Transcript) -> Result<Record, RecordErr>
    requires { IsOfAuction inputs.now.scenario inputs.now.book }
    ensures { IsVerdict inputs.now (record_by inputs.now (Ok transcript)) result }
{
    inputs.book.keeps_order();
    match check_transcript(alloc, &inputs.book, &inputs.scenario, transcript) {
        Ok(record) => Ok(record),
        Err(VerifyErr::NotShown { step, why }) => {
            Err(RecordErr::Fault(TranscriptFault::Unshown { step, why }))
        }
        Err(VerifyErr::NoMemory) => Err(RecordErr::NoMemory),
    }
}

/// Returns why there is no record, for this error in the reading of a transcript's text.
pub(crate) fn not_read(why: TextErr) -> RecordErr
    ensures { result ≡ not_read why }
{
    match why {
        TextErr::Version => RecordErr::Fault(TranscriptFault::Unread(TextErr::Version)),
        TextErr::BadLine { n } => RecordErr::Fault(TranscriptFault::Unread(TextErr::BadLine { n })),
        TextErr::Truncated => RecordErr::Fault(TranscriptFault::Unread(TextErr::Truncated)),
        TextErr::NoMemory => RecordErr::NoMemory,
    }
}

// Returns the record that a transcript certifies, from the reader of its text. Uses neither folder nor sink.
fn record_of(alloc: Global, inputs: &Inputs, read: TranscriptReader) -> Result<Record, RecordErr>
    requires { IsOfAuction inputs.now.scenario inputs.now.book }
    ensures { (text : List ℕ) → HasRead inputs.now.scenario inputs.now.book text read → IsVerdict inputs.now (verified inputs.now text) result }
{
    match read.finish(&inputs.scenario, &inputs.book) {
        Ok(transcript) => record_from(alloc, inputs, transcript),
        Err(why) => Err(not_read(why)),
    }
}

/// Prints why the transcript of this name has no record, and returns the status for it: `NOT_SHOWN` or `NO_MEMORY`.
pub(crate) fn print_record_err<K: Sink>(out: &mut K, name: &str, why: RecordErr) -> u8
    ensures { ExplainsRecordErr name.now why
        (K.modelled out.old).held (K.modelled out.new).held (K.modelled out.old).faults (K.modelled out.new).faults result }
{
    match why {
        RecordErr::Fault(fault) => {
            print_fault(out, name, fault);
            NOT_SHOWN
        }
        RecordErr::NoMemory => {
            print_out_of_memory(out);
            NO_MEMORY
        }
    }
}

/// Reads the inputs and the transcript, checks each step, and returns the inputs and the record that the transcript certifies.
///
/// Stores nothing. If it succeeds, nothing outside has changed.
///
/// # Errors
///
/// The error is how the program ends, without a record. A file cannot be read or is rejected, a step cannot be verified, or
/// memory ran out. A line on the sink says why.
pub fn read_verified<F: Folder, K: Sink>(
    alloc: Global,
    files: &VerifyArgs<'_>,
    folder: &mut F,
    out: &mut K,
) -> Result<ShownAuction, Finish>
    ensures shown { IfOk result (λ s. IsShown (verify_view files.now)
        (outside (F.modelled folder.old) (K.modelled out.old)) s.inputs s.record) }
    ensures limits { IfOk result (λ s. IsOfAuction s.inputs.scenario s.inputs.book) }
    ensures same { OnOk result (outside (F.modelled folder.new) (K.modelled out.new) ≡ outside (F.modelled folder.old) (K.modelled out.old)) }
    ensures ends { IfErr result (λ finish. VerifyEnds (verify_view files.now)
        (outside (F.modelled folder.old) (K.modelled out.old)) (outside (F.modelled folder.new) (K.modelled out.new)) finish.status finish.result) }
    ensures none { IfErr result (λ finish. finish.result ≡ None) }
    ensures no_other { IfErr result (λ finish. finish.below ≡ None) }
    ensures no_batch { IfErr result (λ finish. finish.batch ≡ []) }
    ensures counted { IfErr result (λ finish. AreFaultsCounted
        (outside (F.modelled folder.old) (K.modelled out.old)) (outside (F.modelled folder.new) (K.modelled out.new)) finish.status) }
{
    let inputs = match read_inputs(alloc, folder, &files.inputs) {
        Ok(inputs) => inputs,
        Err(stop) => return Err(Finish::without_record(explain(out, &files.inputs, stop))),
    };
    let read = match read_text(alloc, folder, &inputs, files.transcript) {
        Ok(read) => read,
        Err(why) => return Err(Finish::without_record(print_unloaded(out, files.transcript, why))),
    };
    keeps_named_numbers(&inputs.scenario, &inputs.book);
    match record_of(alloc, &inputs, read) {
        Ok(record) => Ok(ShownAuction { inputs, record }),
        Err(why) => Err(Finish::without_record(print_record_err(out, files.transcript, why))),
    }
}
