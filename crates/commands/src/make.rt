//! The command `make`: generates the files of an auction from a number, stores them, and runs the auction.
//!
//! `scenario_make` generates the files. Only `auction_cmd` calls it.

ghost use Rattle.std.specs.Prelude.{◌≡◌, ◌≤◌, [], IfErr, IfOk, Ok, OnOk, None};
ghost use Rattle.pack_defs.specs.Book.{stations_of};
ghost use Rattle.pack_defs.specs.Prices.{start_set};
ghost use Rattle.pack_defs.specs.Scenario.{IsWithinLimits, facilities};
ghost use Rattle.auction_core.specs.Backed.{undecided_of};
ghost use Rattle.auction_core.specs.Setup.{IsOfAuction};
ghost use Rattle.scenario_make.specs.declared.limits.TheConstants.{MOST_GENERATED};
ghost use Rattle.scenario_make.specs.Accepted.{AreAccepted};
ghost use Rattle.commands.specs.Delivery.{AreAllStored, StopsAtOne};
ghost use Rattle.commands.specs.Ends.{MakeEnds};
ghost use Rattle.commands.specs.Faults.{AreFaultsCounted};
ghost use Rattle.commands.specs.Make.{HasRun, input_texts_under, inputs_in};
ghost use Rattle.commands.specs.Outside.{outside};
ghost use Rattle.commands.specs.Records.{IsRecordOf, summary_of};
ghost use Rattle.command_words.specs.Words.{inputs_view, make_view};

use crate::delivery::store_all;
use crate::finish::Finish;
use crate::inputs::Inputs;
use crate::messages::explain::end_out_of_memory;
use crate::run::{auction_of, done_status};
use crate::status::UNWRITTEN;
use auction_core::record::Record;
use command_words::make_words::MakeArgs;
use command_words::run_words::InputArgs;
use constraint_files::domains::read_domains;
use constraint_files::pairs::read_pairs;
use outside_io::folder::{Folder, NewFile};
use outside_io::sink::Sink;
use result_text::counts::summary;
use scenario_json::join::join;
use scenario_json::scenario::read_scenario;
use scenario_make::make::{Made, make as make_files};
use solver_gate::gate::Gate;
use std::alloc::{AllocError as NoMemory, Global};
use std::sync::Wait;
use std::thread::Threads;

// A generated auction that was run.
#[derive(Drop)]
struct MakeResult {
    record: Record,
    summary: Vec<u8>,
}

// Returns the inputs that generated files hold. Fails only if memory runs out, since the readers accept these files.
#[tactic(auto, unfolding(crate::specs::Make::inputs_in))]
fn inputs_in(alloc: Global, made: &Made) -> Result<Inputs, NoMemory>
    requires { AreAccepted made.now.domains.items made.now.rows.items made.now.scenario.items }
    ensures held { IfOk result (λ i. inputs_in made.now.domains.items made.now.rows.items made.now.scenario.items ≡ Ok i) }
    ensures limits { IfOk result (λ i. IsWithinLimits i.scenario) }
    ensures stations { IfOk result (λ i. stations_of i.book ≡ facilities i.scenario) }
    ensures nobody { IfOk result (λ i. start_set i.scenario ≡ []) }
{
    let Ok(domains) = read_domains(alloc, &made.domains) else {
        return Err(NoMemory);
    };
    let Ok(pairs) = read_pairs(alloc, &made.rows, &domains) else {
        return Err(NoMemory);
    };
    let Ok(scenario) = read_scenario(alloc, &made.scenario) else {
        return Err(NoMemory);
    };
    let Ok(book) = join(alloc, &scenario, &domains, &pairs) else {
        return Err(NoMemory);
    };
    Ok(Inputs {
        scenario,
        book,
        self_pairs: pairs.self_pairs(),
        strangers: pairs.strangers(),
    })
}

// Returns the record of the auction of these inputs. The auction does not end at its start, since no station starts on air.
fn record_of<G: Gate + Sync, W: Threads + Wait + Sync>(
    rt: &W,
    alloc: Global,
    inputs: &Inputs,
    gate: &G,
) -> Result<Record, NoMemory>
    requires auction { IsOfAuction inputs.now.scenario inputs.now.book }
    requires nobody { start_set inputs.now.scenario ≡ [] }
    ensures { IfOk result (λ rec. IsRecordOf inputs.now rec) }
{
    let record = auction_of(rt, alloc, inputs, gate)?;
    Ok(record)
}

// Returns the summary of the record, which depends only on the inputs and on which tests are undecided.
fn summary_of(alloc: Global, inputs: &Inputs, rec: &Record) -> Result<Vec<u8>, NoMemory>
    requires limits { IsWithinLimits inputs.now.scenario }
    requires of { IsRecordOf inputs.now rec.now }
    ensures { IfOk result (λ text. text.items ≡ summary_of inputs.now (undecided_of rec.now.steps)) }
{
    let text = summary(alloc, rec, &inputs.book)?;
    Ok(text)
}

// Runs the auction of generated files. Uses the gate, and neither folder nor sink.
fn carry_out<G: Gate + Sync, W: Threads + Wait + Sync>(
    rt: &W,
    alloc: Global,
    made: &Made,
    gate: &G,
) -> Result<MakeResult, NoMemory>
    requires { AreAccepted made.now.domains.items made.now.rows.items made.now.scenario.items }
    ensures { IfOk result (λ carried. HasRun (inputs_in made.now.domains.items made.now.rows.items made.now.scenario.items) carried.record carried.summary.items) }
{
    let inputs = inputs_in(alloc, made)?;
    let record = record_of(rt, alloc, &inputs, gate)?;
    let summary = summary_of(alloc, &inputs, &record)?;
    Ok(MakeResult { record, summary })
}

// Stores generated files under these names, in order. If one is not stored, a line says why, and the error is the status.
fn store_files<F: Folder, K: Sink>(
    folder: &mut F,
    out: &mut K,
    names: &InputArgs<'_>,
    made: &Made,
) -> Result<(), u8>
    ensures stored { OnOk result (AreAllStored (input_texts_under (inputs_view names.now) made.now.domains.items made.now.rows.items made.now.scenario.items)
        (outside (F.modelled folder.old) (K.modelled out.old)) (outside (F.modelled folder.new) (K.modelled out.new))) }
    ensures faults_unchanged { OnOk result ((F.modelled folder.new).faults ≡ (F.modelled folder.old).faults) }
    ensures sink_faults_unchanged { OnOk result ((K.modelled out.new).faults ≡ (K.modelled out.old).faults) }
    ensures counted { IfErr result (AreFaultsCounted
        (outside (F.modelled folder.old) (K.modelled out.old)) (outside (F.modelled folder.new) (K.modelled out.new))) }
    ensures stopped { IfErr result (StopsAtOne (input_texts_under (inputs_view names.now) made.now.domains.items made.now.rows.items made.now.scenario.items)
        (outside (F.modelled folder.old) (K.modelled out.old)) (outside (F.modelled folder.new) (K.modelled out.new))) }
{
    let files = [
        NewFile {
            name: names.domains,
            bytes: &made.domains,
        },
        NewFile {
            name: names.rows,
            bytes: &made.rows,
        },
        NewFile {
            name: names.scenario,
            bytes: &made.scenario,
        },
    ];
    store_all(folder, out, &files)
}

/// Generates the files of the auction of a seed and a size, stores them, runs the auction and prints the summary.
///
/// The size is the number of stations. The generated files are accepted, and no station is on air at the start. The command fails
/// only if memory runs out, or a store or the print fails.
pub fn make<F: Folder, K: Sink, G: Gate + Sync, W: Threads + Wait + Sync>(
    rt: &W,
    alloc: Global,
    files: &MakeArgs<'_>,
    folder: &mut F,
    out: &mut K,
    gate: &G,
) -> Finish
    requires some { 1 ≤ files.now.size }
    requires most { files.now.size ≤ MOST_GENERATED }
    ensures ends { MakeEnds (make_view files.now)
        (outside (F.modelled folder.old) (K.modelled out.old)) (outside (F.modelled folder.new) (K.modelled out.new)) result.status result.result }
    ensures no_other { result.below ≡ None }
    ensures no_batch { result.batch ≡ [] }
    ensures counted { AreFaultsCounted
        (outside (F.modelled folder.old) (K.modelled out.old)) (outside (F.modelled folder.new) (K.modelled out.new)) result.status }
{
    let Ok(made) = make_files(alloc, files.seed, files.size) else {
        return end_out_of_memory(out);
    };
    if let Err(status) = store_files(folder, out, &files.outputs, &made) {
        return Finish::without_record(status);
    }
    let Ok(carried) = carry_out(rt, alloc, &made, gate) else {
        return end_out_of_memory(out);
    };
    let done = done_status(&carried.record);
    match out.write(&carried.summary) {
        Ok(()) => Finish::with_record(done, carried.record),
        Err(_) => Finish::with_record(UNWRITTEN, carried.record),
    }
}
