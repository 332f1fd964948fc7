//! The search that begins from nothing, over the complete set of a query. It is asked last, and always answers.

ghost use Rattle.std.specs.Prelude.{ℕ, ◌≡◌, IfOk, IsTrue, length, true};
ghost use Rattle.pack_defs.specs.Lists.{is_ascending};
ghost use Rattle.pack_defs.specs.Scenario.{learns};
ghost use Rattle.pack_defs.specs.declared.worker.Worker.{Worker};
ghost use Rattle.cert_types.specs.Query.{AttemptIs, IsQuery};
ghost use Rattle.cdcl_prove.specs.Formulas.{IsFormulaOf};
ghost use Rattle.cdcl_prove.specs.Search.{IsModel, SearchEndIs};

use crate::answers::{fit, receipt, refutation};
use crate::derivation::Derivation;
use crate::guide::DecisionGuide;
use crate::policy::{STEPS_OF_LAST_CHANNEL, STEPS_WITHOUT_CHANNEL};
use crate::search::Search;
use crate::solve::{SearchEnd, solve};
use cert_types::poll::{Attempt, Poll};
use cert_types::task::Task;
use cnf_encode::encode::encode;
use pack_defs::book::Book;
use pack_defs::worker::Worker;
use search_base::tie_breaking::TieBreaking;
use std::alloc::{AllocError as NoMemory, Global};

/// The search of a worker that learns. It keeps nothing from query to query.
#[derive(Drop)]
pub(crate) struct ProvingSearch {
    pub(crate) worker: Worker,
}

impl ProvingSearch {
    /// Tries to answer a query, with the worker's whole budget. Fails only if memory runs out.
    pub(crate) fn attempt<P: Poll>(
        &self,
        alloc: Global,
        book: &Book,
        task: &Task,
        poll: &mut P,
    ) -> Result<Attempt, NoMemory>
        requires query { IsQuery book.now task.now }
        requires learner { learns self.now.worker.kind ≡ true }
        ensures said { IfOk result (λ attempt. AttemptIs book.now task.now self.now.worker (P.last poll.new) attempt) }
        ensures goes { P.goes poll.old poll.new }
    {
        attempt_set(alloc, book, task, self.worker, poll)
    }
}

// Tries the complete set.
fn attempt_set<P: Poll>(
    alloc: Global,
    book: &Book,
    task: &Task,
    worker: Worker,
    poll: &mut P,
) -> Result<Attempt, NoMemory>
    requires query { IsQuery book.now task.now }
    requires learner { learns worker.kind ≡ true }
    ensures said { IfOk result (λ attempt. AttemptIs book.now task.now worker (P.last poll.new) attempt) }
    ensures goes { P.goes poll.old poll.new }
{
    let set = task.set.as_slice();
    let (derivation, outcome) = search_set(alloc, book, task, set, worker, poll)?;
    match outcome {
        SearchEnd::Model => fit_attempt(alloc, book, task, derivation),
        SearchEnd::Refuted(last) => {
            let answer = refutation(alloc, set, derivation, last)?;
            Ok(Attempt::Said(answer))
        }
        SearchEnd::Spent => Ok(Attempt::Said(receipt(derivation))),
        SearchEnd::Moved { now } => Ok(Attempt::Moved { now }),
    }
}

// Returns the fit that a model of the complete set's formula describes, as an attempt at the query.
fn fit_attempt(
    alloc: Global,
    book: &Book,
    task: &Task,
    derivation: Derivation,
) -> Result<Attempt, NoMemory>
    requires query { IsQuery book.now task.now }
    requires formula { IsFormulaOf book.now task.now.set derivation.formula }
    requires model { IsModel derivation }
    ensures { (worker : Worker) (last : ℕ) → IfOk result (λ attempt. AttemptIs book.now task.now worker last attempt) }
{
    let answer = fit(alloc, book, task, &derivation)?;
    Ok(Attempt::Said(answer))
}

// Searches over the packing formula of a set until the search ends. Returns what was derived, and how the search ended.
fn search_set<P: Poll>(
    alloc: Global,
    book: &Book,
    task: &Task,
    set: &[u32],
    worker: Worker,
    poll: &mut P,
) -> Result<(Derivation, SearchEnd), NoMemory>
    requires { IsTrue (is_ascending set.now) }
    ensures formula { IfOk result (λ r. IsFormulaOf book.now set.now r.0.formula) }
    ensures outcome { IfOk result (λ r. SearchEndIs r.0 worker.budget task.now.number (P.last poll.new) r.1) }
    ensures goes { P.goes poll.old poll.new }
{
    let mut search = begin(alloc, book, task, set, worker.seed)?;
    let outcome = solve(alloc, &mut search, worker.budget, task.number, poll)?;
    Ok((search.into_derivation(), outcome))
}

// Returns a search over the packing formula of a set, guided by the query's last map and this seed.
fn begin(
    alloc: Global,
    book: &Book,
    task: &Task,
    set: &[u32],
    seed: u64,
) -> Result<Search, NoMemory>
    requires { IsTrue (is_ascending set.now) }
    ensures formula { IfOk result (λ search. IsFormulaOf book.now set.now search.derivation.formula) }
    ensures empty { IfOk result (λ search. length search.derivation.lines ≡ 0) }
{
    let formula = encode(alloc, book, set)?;
    let ties = TieBreaking::new(seed, task.number);
    let guide = guide_by_map(alloc, book, task, set, formula.vars(), ties)?;
    Search::new(alloc, formula, guide)
}

// Returns the guide by the last map. A station's channel in the last map is tried first, and stations without one come before all
// others.
fn guide_by_map(
    alloc: Global,
    book: &Book,
    task: &Task,
    set: &[u32],
    vars: u32,
    ties: TieBreaking,
) -> Result<DecisionGuide, NoMemory> {
    let mut guide = DecisionGuide::new(alloc, vars, ties)?;
    let mut var: u32 = 0;
    for s in set {
        let last = task.last.get(*s);
        for c in book.domain(*s) {
            var = var.saturating_add(1);
            match last {
                None => guide.prefer(var, STEPS_WITHOUT_CHANNEL),
                Some(d) => {
                    if d == *c {
                        guide.prefer(var, STEPS_OF_LAST_CHANNEL);
                    }
                }
            }
        }
    }
    Ok(guide)
}
