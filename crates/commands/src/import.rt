//! The command `import`: settles an undecided step by a proof from outside.
//!
//! `shown` reads and checks the transcript, and `undecided_tests` settles the step. Only `auction_cmd` calls it.

ghost use Rattle.std.specs.Prelude.{◌≡◌, [], IfOk, None};
ghost use Rattle.pack_defs.specs.Scenario.{IsWithinLimits};
ghost use Rattle.auction_core.specs.Backed.{undecided_of};
ghost use Rattle.auction_core.specs.Setup.{IsOfAuction};
ghost use Rattle.transcript_text.specs.Spelling.{transcript_text};
ghost use Rattle.undecided_tests.specs.Queries.{step_numbered};
ghost use Rattle.undecided_tests.specs.Settling.{settled_text};
ghost use Rattle.commands.specs.Ends.{ImportEnds, IsShown};
ghost use Rattle.commands.specs.Faults.{AreFaultsCounted};
ghost use Rattle.commands.specs.Outside.{outside};
ghost use Rattle.commands.specs.Records.{IsRecordIn, result_of, summary_in};
ghost use Rattle.commands.specs.Settling.{open_fault};
ghost use Rattle.commands.specs.Shown.{ExplainsLog, IsSettling};
ghost use Rattle.command_words.specs.Words.{import_view};

use crate::delivery::deliver;
use crate::finish::Finish;
use crate::inputs::Inputs;
use crate::messages::explain::{end_out_of_memory, print_out_of_memory};
use crate::run::done_status;
use crate::settling::{open_fault, print_log_fault, print_step_fault};
use crate::shown::{ShownAuction, file_bytes, print_unloaded, read_verified};
use crate::status::{NO_MEMORY, NOT_SETTLED};
use crate::verify::result_text;
use auction_core::record::Record;
use command_words::proof_words::ImportArgs;
use outside_io::folder::{Folder, NewFile};
use outside_io::sink::Sink;
use result_text::counts::summary;
use std::alloc::{AllocError as NoMemory, Global};
use transcript_text::round_trip::keeps_ascending_fits;
use transcript_text::write::write_transcript;
use undecided_tests::settle::{SettleErr, settle_from_text};

// The texts of a record in which a step was settled.
#[derive(Drop)]
struct Texts {
    result: Vec<u8>,
    transcript: Vec<u8>,
    summary: Vec<u8>,
}

// Returns the record with its undecided step of this number settled by the log in this text. Uses neither folder nor sink.
fn settled_by(
    alloc: Global,
    inputs: &Inputs,
    rec: Record,
    step: u32,
    text: &[u8],
) -> Result<Record, SettleErr>
    requires auction { IsOfAuction inputs.now.scenario inputs.now.book }
    requires own { IsRecordIn rec.order inputs.now rec }
    requires undecided { open_fault (step_numbered rec.steps step) ≡ None }
    ensures { IsSettling inputs.now (settled_text inputs.now.book rec step text.now) result }
{
    inputs.book.keeps_order();
    settle_from_text(alloc, rec, &inputs.book, step, text)
}

// Prints why the log of this name settled nothing, and returns the status for it.
fn print_unsettled<K: Sink>(out: &mut K, name: &str, why: SettleErr) -> u8
    ensures { ExplainsLog name.now why
        (K.modelled out.old).held (K.modelled out.new).held (K.modelled out.old).faults (K.modelled out.new).faults result }
{
    if let SettleErr::NoMemory = why {
        print_out_of_memory(out);
        return NO_MEMORY;
    }
    print_log_fault(out, name, why);
    NOT_SETTLED
}

// Returns the texts of this record, which is one of the inputs' auction. Uses neither folder nor sink.
fn texts_of(alloc: Global, inputs: &Inputs, rec: &Record) -> Result<Texts, NoMemory>
    requires limits { IsWithinLimits inputs.now.scenario }
    requires of { IsRecordIn rec.now.order inputs.now rec.now }
    ensures result { IfOk result (λ texts. texts.result.items ≡ result_of rec.now.order inputs.now (undecided_of rec.now.steps)) }
    ensures transcript { IfOk result (λ texts. texts.transcript.items ≡ transcript_text inputs.now.scenario inputs.now.book rec.now) }
    ensures summary { IfOk result (λ texts. texts.summary.items ≡ summary_in rec.now.order inputs.now (undecided_of rec.now.steps)) }
{
    let result = result_text(alloc, inputs, rec)?;
    let transcript = write_transcript(alloc, rec, &inputs.book)?;
    let summary = summary(alloc, rec, &inputs.book)?;
    Ok(Texts {
        result,
        transcript,
        summary,
    })
}

// Settles the step by the log, and stores and prints the texts of the new record. `inputs` and `rec` are what `read_verified`
// returned.
fn settle<F: Folder, K: Sink>(
    alloc: Global,
    files: &ImportArgs<'_>,
    folder: &mut F,
    out: &mut K,
    inputs: &Inputs,
    rec: Record,
) -> Finish
    requires auction { IsOfAuction inputs.now.scenario inputs.now.book }
    requires shown { IsShown (import_view files.now).shown (outside (F.modelled folder.old) (K.modelled out.old)) inputs.now rec }
    ensures ends { ImportEnds (import_view files.now)
        (outside (F.modelled folder.old) (K.modelled out.old)) (outside (F.modelled folder.new) (K.modelled out.new)) result.status result.result }
    ensures no_other { result.below ≡ None }
    ensures no_batch { result.batch ≡ [] }
    ensures counted { AreFaultsCounted
        (outside (F.modelled folder.old) (K.modelled out.old)) (outside (F.modelled folder.new) (K.modelled out.new)) result.status }
{
    if let Some(fault) = open_fault(&rec, files.step) {
        print_step_fault(out, files.step, fault);
        return Finish::without_record(NOT_SETTLED);
    }
    let log = match file_bytes(alloc, folder, files.proof) {
        Ok(log) => log,
        Err(why) => return Finish::without_record(print_unloaded(out, files.proof, why)),
    };
    let settled = match settled_by(alloc, inputs, rec, files.step, &log) {
        Ok(settled) => settled,
        Err(why) => return Finish::without_record(print_unsettled(out, files.proof, why)),
    };
    let Ok(texts) = texts_of(alloc, inputs, &settled) else {
        return end_out_of_memory(out);
    };
    keeps_ascending_fits(&settled);
    let done = done_status(&settled);
    let stored = [
        NewFile {
            name: files.result,
            bytes: &texts.result,
        },
        NewFile {
            name: files.transcript,
            bytes: &texts.transcript,
        },
    ];
    let status = deliver(folder, out, &stored, &texts.summary, done);
    Finish::with_record(status, settled)
}

/// Reads the inputs and the transcript, checks each step, and settles an undecided step by a log that refutes the step's set.
///
/// The log is in the lines of LRAT (Cruz-Filipe et al. 2017), over the clauses that `export` stores for that step. What comes
/// after the log's first empty line is read, but not used. The result and the transcript of the new record are stored, in this
/// order, and its summary is printed.
pub fn import<F: Folder, K: Sink>(
    alloc: Global,
    files: &ImportArgs<'_>,
    folder: &mut F,
    out: &mut K,
) -> Finish
    ensures ends { ImportEnds (import_view files.now)
        (outside (F.modelled folder.old) (K.modelled out.old)) (outside (F.modelled folder.new) (K.modelled out.new)) result.status result.result }
    ensures no_other { result.below ≡ None }
    ensures no_batch { result.batch ≡ [] }
    ensures counted { AreFaultsCounted
        (outside (F.modelled folder.old) (K.modelled out.old)) (outside (F.modelled folder.new) (K.modelled out.new)) result.status }
{
    match read_verified(alloc, &files.shown, folder, out) {
        Ok(ShownAuction { inputs, record }) => settle(alloc, files, folder, out, &inputs, record),
        Err(finish) => finish,
    }
}
