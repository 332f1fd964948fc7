//! Checks the certificate that settles one query: a fit, a worker's refutation, or a proof from outside. `step_check`, `receipts`
//! and `check_sequence` call these functions.

ghost use Rattle.std.specs.Prelude.{◌≡◌, IfErr, IfOk, None, Some, option_map, slice_get};
ghost use Rattle.cert_types.specs.Outside.{outside_fault};
ghost use Rattle.cert_types.specs.Query.{IsQuery};
ghost use Rattle.cert_types.specs.Valid.{answer_fault, fit_fault};
ghost use Rattle.auction_core.specs.Checked.{IsStepFault};
ghost use Rattle.auction_core.specs.NotShown.{one_log_fault, refuted_fault};
ghost use Rattle.auction_core.specs.declared.prefix.ShownWhy.TheVariants.{NotValid};

use crate::log_numbers::is_first;
use crate::step_err::{StepErr, not_valid, numbered, why_of};
use cert_types::answer::{Answer, Place, Refutation};
use cert_types::certify::certify_query;
use cert_types::outside::{OutsideProof, certify_outside};
use cert_types::task::Task;
use cnf_encode::count::clause_count;
use pack_defs::book::Book;
use pack_defs::channel_map::ChannelMap;
use pack_defs::worker::{Kind, Worker};
use std::alloc::Global;

// A placeholder worker: the check of a fit does not depend on the worker.
const ANY_WORKER: Worker = Worker {
    kind: Kind::Cdcl,
    budget: 1,
    seed: 0,
};

/// Returns the answer if it is valid.
pub(crate) fn accepted_answer(
    alloc: Global,
    book: &Book,
    task: &Task,
    worker: &Worker,
    answer: Answer,
) -> Result<Answer, StepErr>
    requires { IsQuery book.now task.now }
    ensures same { IfOk result (λ a. a ≡ answer) }
    ensures valid { IfOk result (λ a. answer_fault book.now task.now worker.now answer ≡ None) }
    ensures why { IfErr result (λ e. IsStepFault e (option_map NotValid (answer_fault book.now task.now worker.now answer))) }
{
    match certify_query(alloc, book, task, worker, answer) {
        Ok(certified) => Ok(certified.into_answer()),
        Err(fault) => Err(why_of(fault.why)),
    }
}

/// Returns the entries of a fit if it is valid.
#[tactic(auto, unfolding(cert_types::specs::Valid::answer_fault))]
pub(crate) fn fit(
    alloc: Global,
    book: &Book,
    task: &Task,
    delta: ChannelMap,
) -> Result<ChannelMap, StepErr>
    requires { IsQuery book.now task.now }
    ensures same { IfOk result (λ d. d ≡ delta) }
    ensures valid { IfOk result (λ d. fit_fault book.now task.now delta ≡ None) }
    ensures why { IfErr result (λ e. IsStepFault e (option_map NotValid (fit_fault book.now task.now delta))) }
{
    match accepted_answer(alloc, book, task, &ANY_WORKER, Answer::Fit(delta)) {
        Ok(Answer::Fit(delta)) => Ok(delta),
        Ok(_) => unreachable!(),
        Err(e) => Err(e),
    }
}

/// Returns the refutation of a worker if the scenario has the worker and the refutation is valid.
pub(crate) fn refuted(
    alloc: Global,
    book: &Book,
    task: &Task,
    workers: &[Worker],
    worker: u32,
    how: Refutation,
) -> Result<Refutation, StepErr>
    requires { IsQuery book.now task.now }
    ensures same { IfOk result (λ h. h ≡ how) }
    ensures valid { IfOk result (λ h. refuted_fault book.now task.now (slice_get workers.now worker) how ≡ None) }
    ensures why { IfErr result (λ e. IsStepFault e (option_map NotValid (refuted_fault book.now task.now (slice_get workers.now worker) how))) }
{
    let Some(worker) = workers.get(worker as usize) else {
        return Err(not_valid(Place::Kind));
    };
    match accepted_answer(alloc, book, task, worker, Answer::Refuted(how)) {
        Ok(Answer::Refuted(how)) => Ok(how),
        Ok(_) => unreachable!(),
        Err(e) => Err(e),
    }
}

// Returns a proof from outside if it refutes the task's set.
fn outside_refutation(
    alloc: Global,
    book: &Book,
    task: &Task,
    proof: OutsideProof,
) -> Result<OutsideProof, StepErr>
    requires { IsQuery book.now task.now }
    ensures same { IfOk result (λ p. p ≡ proof) }
    ensures valid { IfOk result (λ p. outside_fault book.now task.now.set proof.log.lines ≡ None) }
    ensures why { IfErr result (λ e. IsStepFault e (option_map NotValid (outside_fault book.now task.now.set proof.log.lines))) }
{
    match certify_outside(alloc, book, task, proof.log) {
        Ok(proof) => Ok(proof),
        Err(fault) => Err(why_of(fault.why)),
    }
}

/// Returns a proof from outside if it refutes the task's set and its log begins with the right number. `firsts` must hold exactly
/// that number.
pub(crate) fn outside(
    alloc: Global,
    book: &Book,
    task: &Task,
    proof: OutsideProof,
    firsts: &[u64],
) -> Result<OutsideProof, StepErr>
    requires { IsQuery book.now task.now }
    ensures same { IfOk result (λ p. p ≡ proof) }
    ensures valid { IfOk result (λ p. one_log_fault book.now task.now proof.log.lines firsts.now ≡ None) }
    ensures why { IfErr result (λ e. IsStepFault e (option_map NotValid (one_log_fault book.now task.now proof.log.lines firsts.now))) }
{
    if firsts.len() != 1 {
        return Err(not_valid(Place::Kind));
    }
    let clauses = clause_count(book, task.set.as_slice());
    let right = is_first(firsts[0], clauses, &proof.log);
    match outside_refutation(alloc, book, task, proof) {
        Ok(proof) => {
            if right {
                return Ok(proof);
            }
            Err(not_valid(Place::LineAt(1)))
        }
        Err(e) => Err(numbered(right, e)),
    }
}
