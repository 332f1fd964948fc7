//! The check of a proof log. Logs come from solvers and transcripts; `cert_types` calls this check for every answer with a log.

ghost use Rattle.std.specs.Prelude.{◌≡◌, ◌<◌, [], length, take};
ghost use Rattle.rup_check.specs.Answers.{LineAnswer, LogAnswer};
ghost use Rattle.rup_check.specs.Follows.{clauses_before, line_fault, log_fault};
ghost use Rattle.rup_check.specs.Packed.{line_at};

use crate::cursors::Literals;
use crate::error::{LineErr, LogErr};
use crate::hints::{check_hints, deny};
use crate::known_literals::KnownLiterals;
use crate::line::{Line, Log};
use crate::lines::Lines;
use clause_db::list::ClauseList;
use std::alloc::Global;

/// Checks whether a line follows from the clauses, by its hints.
///
/// # Errors
///
/// Returns the line's first fault, of its literals and then of its hints in order, or `NoMemory`.
pub fn check_line(alloc: Global, clauses: &ClauseList, line: &Line) -> Result<(), LineErr>
    ensures { LineAnswer (line_fault clauses.now.vars clauses.now.list line.now) result }
{
    let mut known = KnownLiterals::new(alloc, clauses.vars())?;
    if !deny(&mut known, Literals::of_clause(line.lits.as_slice()))? {
        return Err(LineErr::BadLits);
    }
    let mut packed = Lines::new(alloc);
    packed.push(&[], line.hints.as_slice())?;
    check_hints(&mut known, clauses, &packed, 0, packed.hints(0))
}

/// Checks whether each line of a log follows from the clauses and the lines before it.
///
/// Costs a mark for each literal of the clauses' variables, made once. After that, the cost is that of the lines' literals and
/// hints, and of the literals of each clause or line that a hint names. For a literal of a greater variable, all known literals are
/// searched.
///
/// # Errors
///
/// Returns the first line that does not follow, with its fault, or `NoMemory`.
pub fn check_log(alloc: Global, clauses: &ClauseList, log: &Log) -> Result<(), LogErr>
    ensures { LogAnswer (log_fault clauses.now.vars clauses.now.list log.now.lines) result }
{
    let mut known = KnownLiterals::new(alloc, clauses.vars())?;
    let lines = &log.lines;
    for i in 0..lines.len() {
        if let Err(why) = check_at(&mut known, clauses, lines, i) {
            match why {
                LineErr::NoMemory => return Err(LogErr::NoMemory),
                _ => {
                    let line = i as u64 + 1;
                    return Err(LogErr::BadLine { line, why });
                }
            }
        }
        known.clear();
    }
    Ok(())
}

// Checks whether the line at a place, from 0, follows from the clauses and the lines before it. Nothing may be known before.
fn check_at(
    known: &mut KnownLiterals,
    clauses: &ClauseList,
    lines: &Lines,
    place: usize,
) -> Result<(), LineErr>
    requires there { place < length lines.now }
    requires same { known.old.vars ≡ clauses.now.vars }
    requires nothing { known.old.lits ≡ [] }
    ensures answer { LineAnswer (line_fault clauses.now.vars (clauses_before clauses.now.list (take place lines.now)) (line_at lines.now place)) result }
    ensures vars { known.new.vars ≡ known.old.vars }
{
    if !deny(known, lines.lits(place))? {
        return Err(LineErr::BadLits);
    }
    check_hints(known, clauses, lines, place, lines.hints(place))
}
