//! Reads the receipts of an undecided test, and a log whose first line may have any number. `steps` calls
//! `receipts_at` and `numbered_log`.

ghost use Rattle.std.specs.Prelude.{◌≡◌, ◌≤◌, ◌++◌, ◌∷◌, IfOk, [], length};
ghost use Rattle.pack_defs.specs.Scenario.{StationsAscend};
ghost use Rattle.transcript_text.specs.Fields.{most_counted};
ghost use Rattle.transcript_text.specs.Reading.{lines_receipt, moves_receipt, numbered_log, receipt_at, receipt_of_word, receipt_count, receipts_at, some_log};
ghost use Rattle.transcript_text.specs.Steps.{Gives};

use crate::error::TextErr;
use crate::fields::{
    LineFields, TextLines, count_at, exact_number_at, line_end, next_field, next_line, number_at,
};
use crate::log_lines::{log_at, moves_at};
use cert_types::answer::Receipt;
use lrat_text::field::GREATEST;
use pack_defs::items::Items;
use pack_defs::scenario::Scenario;
use rup_check::line::Log;
use rup_check::lines::Lines;
use std::alloc::{AllocError as NoMemory, Global};
use std::marker::Model;

/// A log, and the number of its first line, which is 0 if the log is empty.
#[derive(Drop)]
pub(crate) struct NumberedLog {
    pub(crate) log: Log,
    pub(crate) first: u64,
}

impl Model for NumberedLog {
    ghost use Rattle.transcript_text.specs.Reading.{FoundLog};

    ghost Value = { FoundLog };

    ghost view = { λ s. record { log = s.log; first = s.first } };
}

/// A receipt, and the number of its log's first line, which is 0 if it has none.
#[derive(Drop)]
pub(crate) struct NumberedReceipt {
    receipt: Receipt,
    first: u64,
}

impl Model for NumberedReceipt {
    ghost use Rattle.transcript_text.specs.Reading.{FoundReceipt};

    ghost Value = { FoundReceipt };

    ghost view = { λ s. record { receipt = s.receipt; first = s.first } };
}

// Reads a log of one line or more. The first line may have any number.
#[tactic(auto, unfolding(crate::specs::Reading::some_log))]
fn some_log<'a>(
    alloc: Global,
    count: u64,
    lines: TextLines<'a>,
) -> Result<(NumberedLog, TextLines<'a>), TextErr>
    requires { count ≤ most_counted }
    ensures { Gives (λ x. x) (some_log count lines.entry) result }
{
    let (line, _) = next_line(lines.same_lines())?;
    let (first, _) = number_at(GREATEST, line)?;
    let (log, rest) = log_at(alloc, first, count, lines)?;
    let log = Log { lines: log };
    Ok((NumberedLog { log, first }, rest))
}

/// Reads a log of `count` lines. The first line may have any number, because the number of clauses before it is not
/// known here. Returns the log, and the lines after it.
///
/// # Errors
///
/// `Truncated` if lines are missing, `BadLine` for the first invalid line, `NoMemory` if memory runs out.
#[tactic(auto, unfolding(crate::specs::Reading::numbered_log))]
pub(crate) fn numbered_log<'a>(
    alloc: Global,
    count: u64,
    lines: TextLines<'a>,
) -> Result<(NumberedLog, TextLines<'a>), TextErr>
    requires { count ≤ most_counted }
    ensures { Gives (λ x. x) (numbered_log count lines.entry) result }
{
    if count == 0 {
        let log = Log {
            lines: Lines::new(alloc),
        };
        return Ok((NumberedLog { log, first: 0 }, lines));
    }
    some_log(alloc, count, lines)
}

// Reads a receipt of `count` log lines.
#[tactic(auto, unfolding(crate::specs::Reading::lines_receipt))]
fn lines_receipt<'a>(
    alloc: Global,
    count: u64,
    lines: TextLines<'a>,
) -> Result<(NumberedReceipt, TextLines<'a>), TextErr>
    requires { count ≤ most_counted }
    ensures { Gives (λ x. x) (lines_receipt count lines.entry) result }
{
    let (found, rest) = numbered_log(alloc, count, lines)?;
    let NumberedLog { log, first } = found;
    let receipt = Receipt::Lines(log);
    Ok((NumberedReceipt { receipt, first }, rest))
}

// Reads a receipt of `count` moves.
#[tactic(auto, unfolding(crate::specs::Reading::moves_receipt))]
fn moves_receipt<'a>(
    alloc: Global,
    sc: &Scenario,
    count: u64,
    lines: TextLines<'a>,
) -> Result<(NumberedReceipt, TextLines<'a>), TextErr>
    requires { StationsAscend sc.now }
    ensures { Gives (λ x. x) (moves_receipt sc.now count lines.entry) result }
{
    let (moves, rest) = moves_at(alloc, sc, count, lines)?;
    let receipt = Receipt::Moves(Items::from_vec(moves));
    Ok((NumberedReceipt { receipt, first: 0 }, rest))
}

// Reads the rest of a receipt's first line: this worker, and a count, which is returned.
#[tactic(auto, unfolding(crate::specs::Reading::receipt_count))]
fn receipt_count<'a>(worker: u64, line: LineFields<'a>) -> Result<u64, TextErr>
    ensures count { Gives (λ x. x) (receipt_count worker line.entry) result }
    ensures few { IfOk result (λ k. k ≤ most_counted) }
{
    let rest = exact_number_at(worker, line)?;
    let (count, rest) = count_at(rest)?;
    line_end(rest)?;
    Ok(count)
}

// Reads the receipt whose first line, line `n`, begins with `word`.
fn receipt_of_word<'a>(
    alloc: Global,
    sc: &Scenario,
    n: u64,
    word: &[u8],
    count: u64,
    lines: TextLines<'a>,
) -> Result<(NumberedReceipt, TextLines<'a>), TextErr>
    requires ascend { StationsAscend sc.now }
    requires few { count ≤ most_counted }
    ensures { Gives (λ x. x) (receipt_of_word sc.now n word.now count lines.entry) result }
{
    if word == b"lines".as_slice() {
        return lines_receipt(alloc, count, lines);
    }
    if word == b"moves".as_slice() {
        return moves_receipt(alloc, sc, count, lines);
    }
    Err(TextErr::BadLine { n })
}

// Reads the receipt of this worker.
#[tactic(auto, unfolding(crate::specs::Reading::receipt_at))]
fn receipt_at<'a>(
    alloc: Global,
    sc: &Scenario,
    worker: u64,
    lines: TextLines<'a>,
) -> Result<(NumberedReceipt, TextLines<'a>), TextErr>
    requires { StationsAscend sc.now }
    ensures { Gives (λ x. x) (receipt_at sc.now worker lines.entry) result }
{
    let n = lines.number;
    let (line, rest) = next_line(lines)?;
    let (word, fields) = next_field(line)?;
    let count = receipt_count(worker, fields)?;
    receipt_of_word(alloc, sc, n, word, count, rest)
}

/// The receipts that were read, and the number of each log's first line.
#[derive(Drop)]
pub(crate) struct Receipts {
    pub(crate) receipts: Vec<Receipt>,
    pub(crate) firsts: Vec<u64>,
}

impl Model for Receipts {
    ghost use Rattle.std.specs.Prelude.{List, ℕ};
    ghost use Rattle.cert_types.specs.declared.answer.Receipt.{Receipt};

    ghost Value = { List Receipt × List ℕ };

    ghost view = { λ s. (s.receipts.items, s.firsts.items) };
}

// Returns the receipts with another one at the end.
fn with_receipt(so_far: Receipts, found: NumberedReceipt) -> Result<Receipts, NoMemory>
    ensures { IfOk result (λ new. new ≡ (so_far.0 ++ found.receipt ∷ [], so_far.1 ++ found.first ∷ [])) }
{
    let Receipts {
        mut receipts,
        mut firsts,
    } = so_far;
    let NumberedReceipt { receipt, first } = found;
    receipts.push(receipt)?;
    firsts.push(first)?;
    Ok(Receipts { receipts, firsts })
}

/// Reads a receipt of each worker. Returns the receipts, and the lines after them.
///
/// # Errors
///
/// `Truncated` if lines are missing, `BadLine` for the first invalid line, `NoMemory` if memory runs out.
pub(crate) fn receipts_at<'a>(
    alloc: Global,
    sc: &Scenario,
    lines: TextLines<'a>,
) -> Result<(Receipts, TextLines<'a>), TextErr>
    requires { StationsAscend sc.now }
    ensures { Gives (λ x. x) (receipts_at sc.now 0 (length sc.now.workers) lines.entry) result }
{
    let mut so_far = Receipts {
        receipts: Vec::new(alloc),
        firsts: Vec::new(alloc),
    };
    let mut rest = lines;
    for worker in 0..sc.workers.as_slice().len() {
        match receipt_at(alloc, sc, worker as u64, rest) {
            Ok((found, after)) => {
                rest = after;
                match with_receipt(so_far, found) {
                    Ok(next) => so_far = next,
                    Err(_) => return Err(TextErr::NoMemory),
                }
            }
            Err(why) => return Err(why),
        }
    }
    Ok((so_far, rest))
}
