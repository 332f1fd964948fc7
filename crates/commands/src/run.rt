//! The command `run`: runs an auction from its input files to its result.
//!
//! Only `auction_cmd` calls `run`, for `live` too. Other commands use its parts: `resume` concludes an auction with `conclude`,
//! and `make` and `top_channel_runs` run one with `auction_of`.

ghost use Rattle.std.specs.Prelude.{◌≡◌, [], IfOk, IsSome, None};
ghost use Rattle.std.specs.List.{list_any};
ghost use Rattle.pack_defs.specs.Scenario.{IsWithinLimits};
ghost use Rattle.auction_core.specs.Backed.{is_undecided, undecided_of};
ghost use Rattle.auction_core.specs.Setup.{IsOfAuction};
ghost use Rattle.result_text.specs.ChannelsText.{channels_text};
ghost use Rattle.transcript_text.specs.Spelling.{transcript_text};
ghost use Rattle.commands.specs.Calls.{ConcludesCalls, KeepsRunDiary, input_calls};
ghost use Rattle.commands.specs.Ends.{ConcludesUnlessOutOfMemory, RunEnds};
ghost use Rattle.commands.specs.Faults.{AreFaultsCounted};
ghost use Rattle.commands.specs.Outside.{outside};
ghost use Rattle.commands.specs.Records.{IsEndedRecordIn, IsRecordBy, IsRecordIn, done_status, result_of, run_order, summary_in};
ghost use Rattle.command_words.specs.Words.{inputs_view, run_names_view};

use crate::delivery::deliver;
use crate::finish::Finish;
use crate::inputs::{Inputs, read_inputs};
use crate::messages::explain::{end_out_of_memory, explain};
use crate::messages::print_line;
use crate::status::{DONE, LEFT_OPEN, START_OPEN, START_UNFIT};
use auction_core::record::{Ending, Record, Shown, Step};
use command_words::run_words::RunArgs;
use outside_io::folder::{Folder, NewFile};
use outside_io::sink::Sink;
use race_wave::run::run_auction;
use result_text::channels::channels_csv;
use result_text::counts::summary;
use result_text::rows::result_csv;
use solver_gate::gate::Gate;
use std::alloc::{AllocError as NoMemory, Global};
use std::sync::Wait;
use std::thread::Threads;
use transcript_text::round_trip::{keeps_ascending_fits, keeps_named_numbers};
use transcript_text::write::write_transcript;

// The texts of an auction that did not end at its start.
#[derive(Drop)]
struct Texts {
    result: Vec<u8>,
    channels: Vec<u8>,
    transcript: Vec<u8>,
    summary: Vec<u8>,
}

/// Returns the record of the auction of these inputs. Uses the gate, and neither folder nor sink.
///
/// # Errors
///
/// Memory ran out. Then no record is returned.
pub fn auction_of<G: Gate + Sync, W: Threads + Wait + Sync>(
    rt: &W,
    alloc: Global,
    inputs: &Inputs,
    gate: &G,
) -> Result<Record, NoMemory>
    requires { IsOfAuction inputs.now.scenario inputs.now.book }
    ensures { IfOk result (λ rec. IsRecordBy inputs.now rec rec.ending) }
{
    inputs.book.keeps_order();
    let record = run_auction(rt, alloc, &inputs.scenario, &inputs.book, gate)?;
    Ok(record)
}

// Whether the step's test is undecided.
fn is_undecided(step: &Step) -> bool
    ensures { result ≡ is_undecided step.now.shown }
{
    matches!(step.shown, Shown::Undecided(_))
}

// Whether the test of some step is undecided.
fn any_undecided(steps: &[Step]) -> bool
    ensures { result ≡ list_any (λ x. is_undecided x.shown) steps.now }
{
    steps.iter().any(is_undecided)
}

// Returns the status of an auction that did not end at its start: `LEFT_OPEN` if a test is undecided, else `DONE`.
pub fn done_status(rec: &Record) -> u8
    ensures { result ≡ done_status (undecided_of rec.now.steps) }
{
    if any_undecided(rec.steps.as_slice()) {
        return LEFT_OPEN;
    }
    DONE
}

// Returns the texts of this record, which is one of the inputs' auction. Uses neither folder nor sink.
fn texts_of(alloc: Global, inputs: &Inputs, rec: &Record) -> Result<Texts, NoMemory>
    requires limits { IsWithinLimits inputs.now.scenario }
    requires of { IsRecordIn rec.now.order inputs.now rec.now }
    ensures result { IfOk result (λ texts. texts.result.items ≡ result_of rec.now.order inputs.now (undecided_of rec.now.steps)) }
    ensures channels { IfOk result (λ texts. texts.channels.items ≡ channels_text rec.now.map) }
    ensures transcript { IfOk result (λ texts. texts.transcript.items ≡ transcript_text inputs.now.scenario inputs.now.book rec.now) }
    ensures summary { IfOk result (λ texts. texts.summary.items ≡ summary_in rec.now.order inputs.now (undecided_of rec.now.steps)) }
{
    let result = result_csv(alloc, rec, &inputs.book)?;
    let channels = channels_csv(alloc, rec)?;
    let transcript = write_transcript(alloc, rec, &inputs.book)?;
    let summary = summary(alloc, rec, &inputs.book)?;
    Ok(Texts {
        result,
        channels,
        transcript,
        summary,
    })
}

/// Concludes the auction of this record: stores the result, the channels and the transcript, and prints the summary.
///
/// If the start set does not fit, or whether it fits is undecided, a line reports this and nothing is stored. The record is
/// returned, unless memory runs out before the first store.
pub fn conclude<F: Folder, K: Sink>(
    alloc: Global,
    inputs: &Inputs,
    rec: Record,
    names: &RunArgs<'_>,
    folder: &mut F,
    out: &mut K,
) -> Finish
    requires limits { IsWithinLimits inputs.now.scenario }
    requires of { IsEndedRecordIn rec.order inputs.now rec rec.ending }
    ensures ends { ConcludesUnlessOutOfMemory rec.order (run_names_view names.now) inputs.now rec
        (outside (F.modelled folder.old) (K.modelled out.old)) (outside (F.modelled folder.new) (K.modelled out.new)) result.status result.result }
    ensures no_other { result.below ≡ None }
    ensures no_batch { result.batch ≡ [] }
    ensures counted { AreFaultsCounted
        (outside (F.modelled folder.old) (K.modelled out.old)) (outside (F.modelled folder.new) (K.modelled out.new)) result.status }
    ensures called { IsSome (F.modelled folder.new).calls → ConcludesCalls (F.modelled folder.old).calls (F.modelled folder.new).calls result.status result.result }
{
    match rec.ending {
        Ending::Done => {}
        Ending::StartRefuted => {
            print_line(out, &["the start set does not fit\n"]);
            return Finish::with_record(START_UNFIT, rec);
        }
        Ending::StartUndecided => {
            print_line(out, &["the start set is undecided\n"]);
            return Finish::with_record(START_OPEN, rec);
        }
    }
    let Ok(texts) = texts_of(alloc, inputs, &rec) else {
        return end_out_of_memory(out);
    };
    keeps_named_numbers(&inputs.scenario, &inputs.book);
    keeps_ascending_fits(&rec);
    let done = done_status(&rec);
    let files = [
        NewFile {
            name: names.result,
            bytes: &texts.result,
        },
        NewFile {
            name: names.channels,
            bytes: &texts.channels,
        },
        NewFile {
            name: names.transcript,
            bytes: &texts.transcript,
        },
    ];
    let status = deliver(folder, out, &files, &texts.summary, done);
    Finish::with_record(status, rec)
}

/// Reads the inputs, runs the auction, stores the result, the channels and the transcript, and prints the summary.
///
/// The solvers of the scenario's workers race for each query, each in a thread of its own if one can be made. After a race they
/// try the current query one after another on this thread. If the start set does not fit, or no worker decides whether it fits,
/// no auction follows and nothing is stored.
pub fn run<F: Folder, K: Sink, G: Gate + Sync, W: Threads + Wait + Sync>(
    rt: &W,
    alloc: Global,
    files: &RunArgs<'_>,
    folder: &mut F,
    out: &mut K,
    gate: &G,
) -> Finish
    ensures ends { RunEnds run_order (run_names_view files.now)
        (outside (F.modelled folder.old) (K.modelled out.old)) (outside (F.modelled folder.new) (K.modelled out.new)) result.status result.result }
    ensures no_other { result.below ≡ None }
    ensures no_batch { result.batch ≡ [] }
    ensures counted { AreFaultsCounted
        (outside (F.modelled folder.old) (K.modelled out.old)) (outside (F.modelled folder.new) (K.modelled out.new)) result.status }
    ensures called { KeepsRunDiary (input_calls (inputs_view files.now.inputs))
        (outside (F.modelled folder.old) (K.modelled out.old)) (outside (F.modelled folder.new) (K.modelled out.new))
        (F.modelled folder.old).calls (F.modelled folder.new).calls result.status result.result }
{
    let inputs = match read_inputs(alloc, folder, &files.inputs) {
        Ok(inputs) => inputs,
        Err(stop) => return Finish::without_record(explain(out, &files.inputs, stop)),
    };
    let Ok(record) = auction_of(rt, alloc, &inputs, gate) else {
        return end_out_of_memory(out);
    };
    conclude(alloc, &inputs, record, files, folder, out)
}
