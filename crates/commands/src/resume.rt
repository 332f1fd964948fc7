//! The command `resume`: continues an auction from the beginning of its transcript.
//!
//! The inputs and the beginning are read, the beginning piece by piece. Each complete step of the beginning is kept, and checked
//! as `verify` checks a transcript. The auction continues after the last kept step, and ends as in `run`. Only `auction_cmd`
//! calls it.

ghost use Rattle.std.specs.Prelude.{◌≡◌, [], ℕ, IfErr, IfOk, List, None, Ok, OnOk};
ghost use Rattle.auction_core.specs.declared.prefix.Prefix.{Prefix};
ghost use Rattle.auction_core.specs.Setup.{IsOfAuction};
ghost use Rattle.transcript_text.specs.Pieces.{HasRead};
ghost use Rattle.commands.specs.Faults.{AreFaultsCounted};
ghost use Rattle.commands.specs.Outside.{outside};
ghost use Rattle.commands.specs.Records.{IsEndedRecordIn};
ghost use Rattle.commands.specs.ResumeEnds.{IsResumable, ResumeEnds};
ghost use Rattle.commands.specs.Resume.{ContinuesFrom, IsResumption, IsAfterPrefix, begun, kept_prefix};
ghost use Rattle.command_words.specs.Words.{resume_view};

use crate::finish::Finish;
use crate::inputs::{Inputs, read_inputs};
use crate::messages::explain::{end_out_of_memory, explain};
use crate::messages::fault::TranscriptFault;
use crate::run::conclude;
use crate::shown::{RecordErr, not_read, print_record_err, print_unloaded, read_text};
use auction_core::auction::Auction;
use auction_core::prefix::{Prefix, ResumeErr};
use auction_core::record::Record;
use command_words::resume_words::ResumeArgs;
use outside_io::folder::Folder;
use outside_io::sink::Sink;
use race_wave::run::go_on;
use solver_gate::gate::Gate;
use std::alloc::{AllocError as NoMemory, Global};
use std::sync::Wait;
use std::thread::Threads;
use transcript_text::reader::TranscriptReader;
use transcript_text::round_trip::keeps_named_numbers;

// The inputs, and their auction at the point where the beginning of its transcript ends.
#[derive(Drop)]
struct ResumedAuction {
    inputs: Inputs,
    auction: Auction,
}

// Returns the auction at the point where what was kept of a transcript ends.
fn auction_after_prefix(alloc: Global, inputs: &Inputs, kept: Prefix) -> Result<Auction, RecordErr>
    requires { IsOfAuction inputs.now.scenario inputs.now.book }
    ensures { IsResumption inputs.now (kept_prefix inputs.now (Ok kept)) result }
{
    match Auction::resume(alloc, &inputs.scenario, &inputs.book, kept) {
        Ok(auction) => Ok(auction),
        Err(ResumeErr::NotShown { step, why }) => {
            Err(RecordErr::Fault(TranscriptFault::Unshown { step, why }))
        }
        Err(ResumeErr::NoMemory) => Err(RecordErr::NoMemory),
    }
}

// Returns the auction at the point where the beginning of a transcript ends, from the reader of that beginning. Uses neither
// folder nor sink.
fn begun(alloc: Global, inputs: &Inputs, read: TranscriptReader) -> Result<Auction, RecordErr>
    requires { IsOfAuction inputs.now.scenario inputs.now.book }
    ensures { (text : List ℕ) → HasRead inputs.now.scenario inputs.now.book text read → IsResumption inputs.now (begun inputs.now text) result }
{
    match read.finish_prefix(&inputs.scenario, &inputs.book) {
        Ok(kept) => auction_after_prefix(alloc, inputs, kept),
        Err(why) => Err(not_read(why)),
    }
}

// Reads the inputs and the beginning, and checks each kept step. The error is how the program ends: a file cannot be read or is
// rejected, a step cannot be verified, or memory ran out. A line says why. Stores nothing. On success nothing outside has
// changed.
fn resumable<F: Folder, K: Sink>(
    alloc: Global,
    files: &ResumeArgs<'_>,
    folder: &mut F,
    out: &mut K,
) -> Result<ResumedAuction, Finish>
    ensures resumable { IfOk result (λ r. IsResumable (resume_view files.now)
        (outside (F.modelled folder.old) (K.modelled out.old)) r.inputs r.auction) }
    ensures limits { IfOk result (λ r. IsOfAuction r.inputs.scenario r.inputs.book) }
    ensures same { OnOk result (outside (F.modelled folder.new) (K.modelled out.new) ≡ outside (F.modelled folder.old) (K.modelled out.old)) }
    ensures ends { IfErr result (λ finish. ResumeEnds (resume_view files.now)
        (outside (F.modelled folder.old) (K.modelled out.old)) (outside (F.modelled folder.new) (K.modelled out.new)) finish.status finish.result) }
    ensures no_other { IfErr result (λ finish. finish.below ≡ None) }
    ensures no_batch { IfErr result (λ finish. finish.batch ≡ []) }
    ensures counted { IfErr result (λ finish. AreFaultsCounted
        (outside (F.modelled folder.old) (K.modelled out.old)) (outside (F.modelled folder.new) (K.modelled out.new)) finish.status) }
{
    let names = files.run_files.inputs;
    let inputs = match read_inputs(alloc, folder, &names) {
        Ok(inputs) => inputs,
        Err(stop) => return Err(Finish::without_record(explain(out, &names, stop))),
    };
    let read = match read_text(alloc, folder, &inputs, files.prefix) {
        Ok(read) => read,
        Err(why) => return Err(Finish::without_record(print_unloaded(out, files.prefix, why))),
    };
    keeps_named_numbers(&inputs.scenario, &inputs.book);
    match begun(alloc, &inputs, read) {
        Ok(auction) => Ok(ResumedAuction { inputs, auction }),
        Err(why) => Err(Finish::without_record(print_record_err(out, files.prefix, why))),
    }
}

// Returns the record of this auction of the inputs, continued to its end. Uses the gate, and neither folder nor sink.
fn finish_auction<G: Gate + Sync, W: Threads + Wait + Sync>(
    rt: &W,
    alloc: Global,
    inputs: &Inputs,
    auction: Auction,
    gate: &G,
) -> Result<Record, NoMemory>
    requires auction { IsOfAuction inputs.now.scenario inputs.now.book }
    requires scenario { auction.scenario ≡ inputs.now.scenario }
    requires book { auction.book ≡ inputs.now.book }
    ensures ended { IfOk result (λ rec. IsEndedRecordIn rec.order inputs.now rec rec.ending) }
    ensures continues { IfOk result (λ rec. (kept : Prefix) → IsAfterPrefix inputs.now kept auction → ContinuesFrom kept rec) }
{
    inputs.book.keeps_order();
    let scenario = inputs.scenario.copy(alloc)?;
    let rec = go_on(rt, alloc, auction, scenario, &inputs.book, gate)?;
    Ok(rec)
}

/// Reads the inputs and the beginning of a transcript of their auction, checks each complete step, and continues the auction
/// after them.
///
/// The beginning may be cut anywhere. The auction ends as in `run`: the three texts are stored and the summary is printed. If the
/// beginning has no verdict on the start set, the set may turn out not to fit or stay undecided. In both cases nothing is stored.
pub fn resume<F: Folder, K: Sink, G: Gate + Sync, W: Threads + Wait + Sync>(
    rt: &W,
    alloc: Global,
    files: &ResumeArgs<'_>,
    folder: &mut F,
    out: &mut K,
    gate: &G,
) -> Finish
    ensures ends { ResumeEnds (resume_view files.now)
        (outside (F.modelled folder.old) (K.modelled out.old)) (outside (F.modelled folder.new) (K.modelled out.new)) result.status result.result }
    ensures no_other { result.below ≡ None }
    ensures no_batch { result.batch ≡ [] }
    ensures counted { AreFaultsCounted
        (outside (F.modelled folder.old) (K.modelled out.old)) (outside (F.modelled folder.new) (K.modelled out.new)) result.status }
{
    let ResumedAuction { inputs, auction } = match resumable(alloc, files, folder, out) {
        Ok(found) => found,
        Err(finish) => return finish,
    };
    let Ok(rec) = finish_auction(rt, alloc, &inputs, auction, gate) else {
        return end_out_of_memory(out);
    };
    conclude(alloc, &inputs, rec, &files.run_files, folder, out)
}
