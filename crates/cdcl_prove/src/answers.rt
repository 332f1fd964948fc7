//! The last step of a search: from a model, a refutation or a spent budget to an answer.

ghost use Rattle.std.specs.Prelude.{ℕ, ◌≡◌, ◌≤◌, IfOk};
ghost use Rattle.clause_db.specs.Clause.{has_lit, pos_lit};
ghost use Rattle.pack_defs.specs.declared.worker.Worker.{Worker};
ghost use Rattle.cert_types.specs.Query.{IsQuery};
ghost use Rattle.cert_types.specs.Valid.{IsValid};
ghost use Rattle.cnf_encode.specs.Decode.{listed_model};
ghost use Rattle.trail_prop.specs.Entries.{lits_of};
ghost use Rattle.cdcl_prove.specs.Formulas.{IsFormulaOf};
ghost use Rattle.cdcl_prove.specs.Search.{IsFitOfChanges, IsLast, IsModel, IsReceiptBy, IsRefutationBy};

use crate::derivation::Derivation;
use cert_types::answer::{Answer, Receipt, Refutation};
use cert_types::delta::delta;
use cert_types::task::Task;
use cnf_encode::decode::decode;
use pack_defs::book::Book;
use pack_defs::items::Items;
use rup_check::line::{Line, Log};
use std::alloc::{AllocError as NoMemory, Global};
use trail_prop::trail::Trail;

/// Returns the fit that a model of the set's formula describes. The fit names the stations that have another channel in the last
/// map, or none there. Fails only if memory runs out.
pub(crate) fn fit(
    alloc: Global,
    book: &Book,
    task: &Task,
    derivation: &Derivation,
) -> Result<Answer, NoMemory>
    requires query { IsQuery book.now task.now }
    requires formula { IsFormulaOf book.now task.now.set derivation.now.formula }
    requires model { IsModel derivation.now }
    ensures valid { (worker : Worker) → IfOk result (λ answer. IsValid book.now task.now worker answer) }
    ensures changes { IfOk result (λ answer. IsFitOfChanges task.now.last answer) }
{
    let model = values(alloc, derivation.trail())?;
    let map = decode(alloc, book, task.set.as_slice(), &model)?;
    Ok(Answer::Fit(delta(alloc, &task.last, &map)?))
}

// Returns whether each variable is true on the trail, variable 1 first.
fn values(alloc: Global, trail: &Trail) -> Result<Vec<bool>, NoMemory>
    ensures { IfOk result (λ values. (v : ℕ) → 1 ≤ v → v ≤ trail.now.clauses.vars → listed_model values.items v ≡ has_lit (lits_of trail.now.entries) (pos_lit v)) }
{
    let mut values = Vec::new(alloc);
    for i in 0..trail.clauses().vars() as u64 {
        values.push(trail.value(i + 1).unwrap_or(false))?;
    }
    Ok(values)
}

/// Returns the refutation of a subset of stations by the lines derived from their formula and a last line, which is empty. Fails
/// only if memory runs out.
pub(crate) fn refutation(
    alloc: Global,
    subset: &[u32],
    derivation: Derivation,
    last: Line,
) -> Result<Answer, NoMemory>
    requires { IsLast derivation last }
    ensures { IfOk result (IsRefutationBy subset.now derivation) }
{
    let mut lines = derivation.into_lines();
    lines.push(last.lits.as_slice(), last.hints.as_slice())?;
    Ok(Answer::Refuted(Refutation::Proof {
        subset: Items::from_vec(Vec::from_slice(alloc, subset)?),
        log: Log {
            lines: lines.fitted(),
        },
    }))
}

/// Returns the lines derived from the set's formula as a receipt. There must be as many as the budget has.
pub(crate) fn receipt(derivation: Derivation) -> Answer
    ensures { IsReceiptBy derivation result }
{
    Answer::Spent(Receipt::Lines(Log {
        lines: derivation.into_lines().fitted(),
    }))
}
