//! Writes the parts of a transcript: its first line, its start, a step and its last line. `write` calls them in
//! order. Each function appends to a text and fails only if memory runs out.

ghost use Rattle.std.specs.Prelude.{◌≡◌, ◌≤◌, ◌+◌, ◌^◌, ◌++◌, ◌∷◌, [], OnOk, codes, decimal, length, map};
ghost use Rattle.std.specs.List.{All, flat_map};
ghost use Rattle.lrat_text.specs.Lines.{line_of};
ghost use Rattle.transcript_text.specs.Fields.{most_counted};
ghost use Rattle.transcript_text.specs.Spelling.{end_text, entry_text, outside_text, receipt_text, receipts_text, refuted_text, shown_text, start_text, version_text};
ghost use Rattle.auction_core.specs.LogNumbers.{first_number, first_of, firsts_of};
ghost use Rattle.transcript_text.specs.Writable.{IsShownWritable, IsWritable, lines_in};

use auction_core::record::{Shown, Step};
use cert_types::answer::{Receipt, Refutation};
use cnf_encode::count::clause_count;
use lrat_text::write::{push_log, push_number, push_numbers};
use pack_defs::book::Book;
use pack_defs::order::Order;
use rup_check::line::Log;
use std::alloc::AllocError as NoMemory;

// Appends a line: a word, and numbers after it.
fn push_line(text: &mut Vec<u8>, word: &[u8], numbers: &[u64]) -> Result<(), NoMemory>
    ensures { OnOk result (text.new.items ≡ text.old.items ++ line_of (word.now ∷ map decimal numbers.now)) }
{
    text.extend_from_slice(word)?;
    push_numbers(text, numbers)?;
    text.extend_from_slice(b"\n")?;
    Ok(())
}

// Appends a line for each entry, beginning with `word`.
fn push_entries(text: &mut Vec<u8>, word: &[u8], entries: &[(u32, u8)]) -> Result<(), NoMemory>
    ensures { OnOk result (text.new.items ≡ text.old.items ++ flat_map (entry_text word.now) entries.now) }
{
    for entry in entries {
        push_line(text, word, &[u64::from(entry.0), u64::from(entry.1)])?;
    }
    Ok(())
}

/// Appends the first line, which names the order in which a round tests the stations. Fails only if memory runs out.
#[tactic(auto, unfolding(crate::specs::Spelling::version_text, lrat_text::specs::Lines::with_spaces))]
pub(crate) fn push_version(text: &mut Vec<u8>, order: Order) -> Result<(), NoMemory>
    ensures { OnOk result (text.new.items ≡ text.old.items ++ version_text order) }
{
    match order {
        Order::ByFacility => return text.extend_from_slice(b"transcript 1\n"),
        Order::ByVolume => return text.extend_from_slice(b"transcript 2\n"),
    }
}

/// Appends the last line, which counts the steps. Fails only if memory runs out.
#[tactic(auto, unfolding(crate::specs::Spelling::end_text))]
pub(crate) fn push_end(text: &mut Vec<u8>, steps: u64) -> Result<(), NoMemory>
    ensures { OnOk result (text.new.items ≡ text.old.items ++ end_text steps) }
{
    push_line(text, b"end", &[steps])
}

/// Appends the start. Fails only if memory runs out.
#[tactic(auto, unfolding(crate::specs::Spelling::start_text, lrat_text::specs::Lines::with_spaces))]
pub(crate) fn push_start(text: &mut Vec<u8>, start: &Shown) -> Result<(), NoMemory>
    ensures { OnOk result (text.new.items ≡ text.old.items ++ start_text start.now) }
{
    match start {
        Shown::Empty => {
            text.extend_from_slice(b"start empty\n")?;
            return Ok(());
        }
        Shown::Fits(delta) => {
            let count = u64::from(delta.len());
            push_line(text, b"start fit", &[count])?;
            push_entries(text, b"at", delta.entries())?;
            return Ok(());
        }
        Shown::Same | Shown::NoChannel(_) => return Ok(()),
        Shown::Refuted { .. } | Shown::Outside(_) => return Ok(()),
        Shown::Undecided(_) => return Ok(()),
    }
}

// Appends a worker's receipt. `first` is the number of its log's first line.
#[tactic(auto, unfolding(crate::specs::Spelling::receipt_text, lrat_text::specs::Lines::with_spaces))]
fn push_receipt(
    text: &mut Vec<u8>,
    worker: u64,
    receipt: &Receipt,
    first: u64,
) -> Result<(), NoMemory>
    requires { first + lines_in receipt.now ≤ 2 ^ 63 }
    ensures { OnOk result (text.new.items ≡ text.old.items ++ receipt_text worker receipt.now first) }
{
    match receipt {
        Receipt::Lines(log) => {
            let count = log.lines.len() as u64;
            push_line(text, b"lines", &[worker, count])?;
            push_log(text, first, log)?;
            return Ok(());
        }
        Receipt::Moves(moves) => {
            let count = moves.as_slice().len() as u64;
            push_line(text, b"moves", &[worker, count])?;
            push_entries(text, b"move", moves.as_slice())?;
            return Ok(());
        }
    }
}

// Appends the line of a proof's stations.
fn push_subset(text: &mut Vec<u8>, subset: &[u32]) -> Result<(), NoMemory>
    ensures { OnOk result (text.new.items ≡ text.old.items ++ line_of (codes "on" ∷ map decimal subset.now)) }
{
    text.extend_from_slice(b"on")?;
    for s in subset {
        text.extend_from_slice(b" ")?;
        push_number(text, u64::from(*s))?;
    }
    text.extend_from_slice(b"\n")?;
    Ok(())
}

// Appends a worker's refutation of a test: its round, station and worker.
#[tactic(auto, unfolding(crate::specs::Spelling::refuted_text, lrat_text::specs::Lines::with_spaces))]
fn push_refuted(
    text: &mut Vec<u8>,
    book: &Book,
    test: (u32, u32, u32),
    how: &Refutation,
) -> Result<(), NoMemory>
    requires { IsWritable how.now }
    ensures { OnOk result (text.new.items ≡ text.old.items ++ refuted_text book.now test.0 test.1 test.2 how.now) }
{
    let round = u64::from(test.0);
    let station = u64::from(test.1);
    let worker = u64::from(test.2);
    match how {
        Refutation::Proof { subset, log } => {
            let count = log.lines.len() as u64;
            push_line(text, b"log", &[round, station, worker, count])?;
            push_subset(text, subset.as_slice())?;
            push_log(text, clause_count(book, subset.as_slice()) + 1, log)?;
            return Ok(());
        }
        Refutation::Dead(p) => {
            let f = u64::from(p.f);
            let a = u64::from(p.a);
            let g = u64::from(p.g);
            let b = u64::from(p.b);
            push_line(text, b"dead", &[round, station, worker, f, a, g, b])?;
            return Ok(());
        }
    }
}

// Returns the number of a log's first line over this many clauses, or 0 if the log has no line.
fn first_number(clauses: u64, log: &Log) -> u64
    requires { clauses + (most_counted + 1) ≤ 2 ^ 63 }
    ensures first { result ≡ first_number clauses log.now.lines }
    ensures few { result ≤ clauses + 1 }
{
    if log.lines.is_empty() {
        return 0;
    }
    clauses + 1
}

// Appends a proof from outside of a test (round, station), over this many clauses of its set.
#[tactic(auto, unfolding(crate::specs::Spelling::outside_text, lrat_text::specs::Lines::with_spaces))]
fn push_outside(
    text: &mut Vec<u8>,
    clauses: u64,
    test: (u32, u32),
    log: &Log,
) -> Result<(), NoMemory>
    requires lines { length log.now.lines ≤ most_counted }
    requires few { clauses + (most_counted + 1) ≤ 2 ^ 63 }
    ensures { OnOk result (text.new.items ≡ text.old.items ++ outside_text test.0 test.1 log.now.lines (first_number clauses log.now.lines ∷ [])) }
{
    let round = u64::from(test.0);
    let station = u64::from(test.1);
    let count = log.lines.len() as u64;
    push_line(text, b"outside", &[round, station, count])?;
    push_log(text, first_number(clauses, log), log)?;
    Ok(())
}

// Returns the number of the first line of a receipt's log over this many clauses, or 0 if it has none.
fn first_of(clauses: u64, receipt: &Receipt) -> u64
    requires { clauses + (most_counted + 1) ≤ 2 ^ 63 }
    ensures first { result ≡ first_of clauses receipt.now }
    ensures few { result ≤ clauses + 1 }
{
    match receipt {
        Receipt::Lines(log) => first_number(clauses, log),
        Receipt::Moves(_) => 0,
    }
}

// Appends the receipts of the workers in order, over this many clauses of their test's set.
fn push_receipts(text: &mut Vec<u8>, clauses: u64, receipts: &[Receipt]) -> Result<(), NoMemory>
    requires lines { All (λ x. lines_in x ≤ most_counted) receipts.now }
    requires few { clauses + (most_counted + 1) ≤ 2 ^ 63 }
    ensures { OnOk result (text.new.items ≡ text.old.items ++ receipts_text 0 receipts.now (map (first_of clauses) receipts.now)) }
{
    for (i, receipt) in receipts.iter().enumerate() {
        let first = first_of(clauses, receipt);
        push_receipt(text, i as u64, receipt, first)?;
    }
    Ok(())
}

/// Appends a step. `clauses` counts the clauses of its test's set. Fails only if memory runs out.
#[tactic(auto, unfolding(crate::specs::Spelling::shown_text, lrat_text::specs::Lines::with_spaces))]
pub(crate) fn push_step(
    text: &mut Vec<u8>,
    book: &Book,
    clauses: u64,
    step: &Step,
) -> Result<(), NoMemory>
    requires writable { IsShownWritable step.now.shown }
    requires few { clauses + (most_counted + 1) ≤ 2 ^ 63 }
    ensures { OnOk result (text.new.items ≡ text.old.items ++ shown_text book.now step.now.round step.now.station step.now.shown (firsts_of clauses step.now.shown)) }
{
    let round = u64::from(step.round);
    let station = u64::from(step.station);
    match &step.shown {
        Shown::Empty => return Ok(()),
        Shown::Fits(delta) => {
            let count = u64::from(delta.len());
            push_line(text, b"fit", &[round, station, count])?;
            push_entries(text, b"at", delta.entries())?;
            return Ok(());
        }
        Shown::Same => return push_line(text, b"same", &[round, station]),
        Shown::NoChannel(_) => return push_line(text, b"none", &[round, station]),
        Shown::Refuted { worker, how } => {
            return push_refuted(text, book, (step.round, step.station, *worker), how);
        }
        Shown::Outside(proof) => {
            return push_outside(text, clauses, (step.round, step.station), &proof.log);
        }
        Shown::Undecided(receipts) => {
            let count = receipts.as_slice().len() as u64;
            push_line(text, b"undecided", &[round, station, count])?;
            push_receipts(text, clauses, receipts.as_slice())?;
            return Ok(());
        }
    }
}
