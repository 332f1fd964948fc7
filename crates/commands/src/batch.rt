//! The command `batch`: runs the auctions of many scenarios over the same constraint files, as many at a time as there are
//! processors.
//!
//! `batch_inputs` reads the files and `batch_run` runs the auctions. This module stores the results and prints the statuses. Only
//! `auction_cmd` calls it.

ghost use Rattle.std.specs.Prelude.{◌≡◌, ◌==◌, ◌++◌, ◌∷◌, [], All, IfOk, None, OnOk, length, map, option_map};
ghost use Rattle.std.specs.List.{list_any};
ghost use Rattle.auction_core.specs.Setup.{IsOfAuction};
ghost use Rattle.commands.specs.Batch.{batch_status, ends_at_start, own_status, own_texts, status_lines, texts_under};
ghost use Rattle.commands.specs.BatchEnds.{AreRecordsOf, BatchEnds};
ghost use Rattle.commands.specs.Delivery.{Delivers};
ghost use Rattle.commands.specs.Faults.{AreFaultsCounted};
ghost use Rattle.commands.specs.Outside.{outside};
ghost use Rattle.commands.specs.Statuses.{LEFT_OPEN};
ghost use Rattle.command_words.specs.Words.{batch_view};

use crate::batch_run::{BatchRunResult, run_all};
use crate::delivery::store;
use crate::finish::Finish;
use crate::inputs::Inputs;
use crate::inputs::batch_inputs::{ReadBatch, read_each, read_listed};
use crate::messages::explain::{end_out_of_memory, explain};
use crate::messages::print_line;
use crate::run::done_status;
use crate::status::{DONE, LEFT_OPEN, REFUSED, SOME_UNSTARTED, START_OPEN, START_UNFIT, UNWRITTEN};
use auction_core::record::{Ending, Record};
use batch_list::line::BatchLine;
use batch_list::repeated::first_repeated;
use command_words::batch_words::BatchArgs;
use outside_io::folder::Folder;
use outside_io::sink::Sink;
use result_text::counts::push_count;
use solver_gate::gate::Gate;
use std::alloc::{AllocError as NoMemory, Global};
use std::sync::Wait;
use std::thread::Threads;

/// The records of a batch's auctions and the texts of their results, in the order of the list. An auction that ended at its start
/// has no text.
#[derive(Drop)]
struct Results {
    records: Vec<Record>,
    texts: Vec<Option<Vec<u8>>>,
}

impl Results {
    // Appends one auction. Fails only if memory runs out.
    fn push(&mut self, ran: BatchRunResult) -> Result<(), NoMemory>
        ensures records { OnOk result (self.new.records.items ≡ self.old.records.items ++ ran.record ∷ []) }
        ensures texts { OnOk result (self.new.texts.items ≡ self.old.texts.items ++ ran.result ∷ []) }
    {
        let BatchRunResult { record, result } = ran;
        self.records.push(record)?;
        self.texts.push(result)?;
        Ok(())
    }
}

// Separates the records of these auctions from the texts of their results. Fails only if memory runs out.
fn split_results(alloc: Global, rans: Vec<BatchRunResult>) -> Result<Results, NoMemory>
    ensures records { IfOk result (λ r. r.records.items ≡ map (λ ran. ran.record) rans.items) }
    ensures texts { IfOk result (λ r. r.texts.items ≡ map (λ ran. ran.result) rans.items) }
{
    let mut results = Results {
        records: Vec::new(alloc),
        texts: Vec::new(alloc),
    };
    for ran in rans {
        results.push(ran)?;
    }
    Ok(results)
}

// Whether the auction ended at its start: the start set does not fit, or whether it fits is undecided.
fn ends_at_start(ending: Ending) -> bool
    ensures { result ≡ ends_at_start ending }
{
    match ending {
        Ending::Done => false,
        Ending::StartRefuted | Ending::StartUndecided => true,
    }
}

// Returns the status of one auction of the batch, as `run` defines it: by how the auction ended, and whether a test is undecided.
fn own_status(rec: &Record) -> u8
    ensures { result ≡ own_status rec.now }
{
    match rec.ending {
        Ending::Done => done_status(rec),
        Ending::StartRefuted => START_UNFIT,
        Ending::StartUndecided => START_OPEN,
    }
}

// Whether some auction ended at its start.
fn any_at_start(records: &[Record]) -> bool
    ensures { result ≡ list_any (λ rec. ends_at_start rec.ending) records.now }
{
    records.iter().any(|rec| ends_at_start(rec.ending))
}

// Whether some auction did not end at its start and has an undecided test.
fn any_left_open(records: &[Record]) -> bool
    ensures { result ≡ list_any (λ rec. own_status rec == LEFT_OPEN) records.now }
{
    records.iter().any(|rec| own_status(rec) == LEFT_OPEN)
}

// Returns the status of the batch. An auction that ended at its start takes precedence over an undecided test.
fn batch_status(records: &[Record]) -> u8
    ensures { result ≡ batch_status records.now }
{
    if any_at_start(records) {
        return SOME_UNSTARTED;
    }
    if any_left_open(records) {
        return LEFT_OPEN;
    }
    DONE
}

// Appends a line for each scenario: its name and the status of its auction.
fn push_lines(text: &mut Vec<u8>, lines: &[BatchLine], records: &[Record]) -> Result<(), NoMemory>
    ensures { OnOk result (text.new.items ≡ text.old.items ++ status_lines lines.now records.now) }
{
    let Some((line, lines_left)) = lines.split_first() else {
        return Ok(());
    };
    let Some((rec, records_left)) = records.split_first() else {
        return Ok(());
    };
    push_count(text, line.scenario(), u64::from(own_status(rec)))?;
    push_lines(text, lines_left, records_left)
}

// Returns the lines of the scenarios' names and their auctions' statuses.
fn status_lines(alloc: Global, lines: &[BatchLine], records: &[Record]) -> Result<Vec<u8>, NoMemory>
    ensures { IfOk result (λ text. text.items ≡ status_lines lines.now records.now) }
{
    let mut text = Vec::new(alloc);
    push_lines(&mut text, lines, records)?;
    Ok(text)
}

// Stores each text that exists under its line's name for the result, in order, and then prints the lines. Returns `done` if all
// succeeds, else the status of what failed.
fn deliver<F: Folder, K: Sink>(
    folder: &mut F,
    out: &mut K,
    lines: &[BatchLine],
    texts: &[Option<Vec<u8>>],
    printed: &[u8],
    done: u8,
) -> u8
    requires { length texts.now ≡ length lines.now }
    ensures delivers { Delivers (texts_under lines.now (map (option_map (λ v. v.items)) texts.now)) printed.now done
        (outside (F.modelled folder.old) (K.modelled out.old)) (outside (F.modelled folder.new) (K.modelled out.new)) result }
    ensures counted { AreFaultsCounted
        (outside (F.modelled folder.old) (K.modelled out.old)) (outside (F.modelled folder.new) (K.modelled out.new)) result }
{
    let Some((line, lines_left)) = lines.split_first() else {
        return match out.write(printed) {
            Ok(()) => done,
            Err(_) => UNWRITTEN,
        };
    };
    let Some((text, texts_left)) = texts.split_first() else {
        unreachable!();
    };
    if let Some(text) = text {
        if let Err(status) = store(folder, out, line.result(), text) {
            return status;
        }
    }
    deliver(folder, out, lines_left, texts_left, printed, done)
}

/// A batch whose auctions were run: their records, their results' texts, and the text to print. An auction that ended at its
/// start has no result's text.
#[derive(Drop)]
struct CarriedBatch {
    records: Vec<Record>,
    texts: Vec<Option<Vec<u8>>>,
    printed: Vec<u8>,
}

// Runs all auctions and makes all texts, before anything is stored. Uses the gate, and neither folder nor sink.
fn carry_all_out<G: Gate + Sync, W: Threads + Wait + Sync>(
    rt: &W,
    alloc: Global,
    lines: &[BatchLine],
    auctions: Vec<Inputs>,
    gate: &G,
) -> Result<CarriedBatch, NoMemory>
    requires auctions { All (λ i. IsOfAuction i.scenario i.book) auctions.items }
    requires many { length auctions.items ≡ length lines.now }
    ensures auctions { IfOk result (λ c. AreRecordsOf (record { lines = lines.now; inputs = auctions.items }) c.records.items) }
    ensures texts { IfOk result (λ c. map (option_map (λ v. v.items)) c.texts.items ≡ own_texts auctions.items c.records.items) }
    ensures printed { IfOk result (λ c. c.printed.items ≡ status_lines lines.now c.records.items) }
    ensures long { IfOk result (λ c. length c.texts.items ≡ length lines.now) }
{
    let rans = run_all(rt, alloc, auctions, gate)?;
    let Results { records, texts } = split_results(alloc, rans)?;
    let printed = status_lines(alloc, lines, &records)?;
    Ok(CarriedBatch {
        records,
        texts,
        printed,
    })
}

/// Runs the auction of each scenario of the list, stores the results and prints a line for each scenario.
///
/// Reads the constraint files, the list, and the scenario of each of its lines. A result's name that is given twice ends the
/// command with `REFUSED` before a scenario is read.
///
/// As many auctions run at a time as the machine has processors. Each runs as in `run`, except that the solvers of all auctions
/// share the answers they found. Nothing is stored before all auctions are done. Then the results are stored in the list's order,
/// except those of auctions that ended at their start.
///
/// The line of a scenario has the status of its own auction: `DONE`, `LEFT_OPEN`, `START_UNFIT` or `START_OPEN` of `status`, as
/// `run` defines them. The records are returned once all auctions are done, also if a store or the print fails.
pub fn batch<F: Folder, K: Sink, G: Gate + Sync, W: Threads + Wait + Sync>(
    rt: &W,
    alloc: Global,
    files: &BatchArgs<'_>,
    folder: &mut F,
    out: &mut K,
    gate: &G,
) -> Finish
    ensures ends { BatchEnds (batch_view files.now)
        (outside (F.modelled folder.old) (K.modelled out.old)) (outside (F.modelled folder.new) (K.modelled out.new)) result.status result.batch }
    ensures none { result.result ≡ None }
    ensures no_other { result.below ≡ None }
    ensures counted { AreFaultsCounted
        (outside (F.modelled folder.old) (K.modelled out.old)) (outside (F.modelled folder.new) (K.modelled out.new)) result.status }
{
    let names = files.inputs_with(files.list);
    let listed = match read_listed(alloc, folder, &names) {
        Ok(listed) => listed,
        Err(stop) => return Finish::without_record(explain(out, &names, stop)),
    };
    if let Some(name) = first_repeated(&[files.domains, files.rows, files.list], &listed.lines) {
        print_line(out, &[name, ": given twice\n"]);
        return Finish::without_record(REFUSED);
    }
    let ReadBatch { lines, inputs } = match read_each(alloc, folder, out, files, listed) {
        Ok(read) => read,
        Err(status) => return Finish::without_record(status),
    };
    let Ok(carried) = carry_all_out(rt, alloc, &lines, inputs, gate) else {
        return end_out_of_memory(out);
    };
    let done = batch_status(&carried.records);
    let status = deliver(folder, out, &lines, &carried.texts, &carried.printed, done);
    Finish::with_batch(status, carried.records)
}
