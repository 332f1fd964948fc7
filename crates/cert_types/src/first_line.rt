//! The first invalid line of a log, by each of the tests of proofs and receipts. The test that a line is new is in `fresh`.

ghost use Rattle.std.specs.Prelude.{◌≡◌, IfOk, List};
ghost use Rattle.clause_db.specs.declared.lit.Lit.{Lit};
ghost use Rattle.cert_types.specs.FirstLine.{line_follows, is_empty_iff_last, first_line, has_literal, lesser};

use clause_db::list::ClauseList;
use rup_check::LogErr;
use rup_check::check::check_log;
use rup_check::line::Log;
use rup_check::lines::Lines;
use std::alloc::{AllocError as NoMemory, Global};

/// Returns the number, from 1, of the first line that does not follow from the clauses and the lines before it. Fails only if
/// memory runs out.
pub(crate) fn first_not_following(
    alloc: Global,
    clauses: &ClauseList,
    log: &Log,
) -> Result<Option<u64>, NoMemory>
    ensures { IfOk result (λ place. place ≡ first_line (line_follows clauses.now.vars) clauses.now.list 1 log.now.lines) }
{
    match check_log(alloc, clauses, log) {
        Ok(()) => Ok(None),
        Err(LogErr::BadLine { line, why: _ }) => Ok(Some(line)),
        Err(LogErr::NoMemory) => Err(NoMemory),
    }
}

/// Returns the number, from 1, of the first line that is empty before the end, or is last and not empty. No clause is needed for
/// this.
pub(crate) fn first_misplaced(lines: &Lines) -> Option<u64>
    ensures { (clauses : List (List Lit)) → result ≡ first_line is_empty_iff_last clauses 1 lines.now }
{
    let count = lines.len();
    for i in 0..count {
        let is_last = i + 1 == count;
        if lines.is_empty_at(i) != is_last {
            return Some(i as u64 + 1);
        }
    }
    None
}

/// Returns the number, from 1, of the first empty line. No clause is needed for this.
pub(crate) fn first_empty(lines: &Lines) -> Option<u64>
    ensures { (clauses : List (List Lit)) → result ≡ first_line has_literal clauses 1 lines.now }
{
    for i in 0..lines.len() {
        if lines.is_empty_at(i) {
            return Some(i as u64 + 1);
        }
    }
    None
}

/// Returns the lesser of two places, each of which may be missing.
pub(crate) fn lesser(one: Option<u64>, other: Option<u64>) -> Option<u64>
    ensures { result ≡ lesser one other }
{
    match one {
        None => other,
        Some(m) => match other {
            None => Some(m),
            Some(n) => Some(m.min(n)),
        },
    }
}
