//! Checks the receipts of an undecided test. `step_check` calls `undecided`.

ghost use Rattle.std.specs.Prelude.{◌≡◌, IfErr, IfOk, None, length, option_map};
ghost use Rattle.cert_types.specs.Query.{IsQuery};
ghost use Rattle.cert_types.specs.Valid.{answer_fault};
ghost use Rattle.cert_types.specs.declared.answer.Answer.TheVariants as Answer;
ghost use Rattle.auction_core.specs.Checked.{IsStepFault, numbered_fault};
ghost use Rattle.auction_core.specs.NotShown.{each_fault, receipts_fault};
ghost use Rattle.auction_core.specs.declared.prefix.ShownWhy.TheVariants.{NotValid};

use crate::certificates::accepted_answer;
use crate::log_numbers::is_first_of;
use crate::step_err::{StepErr, not_valid, numbered};
use cert_types::answer::{Answer, Place, Receipt};
use cert_types::task::Task;
use cnf_encode::count::clause_count;
use pack_defs::book::Book;
use pack_defs::items::Items;
use pack_defs::worker::Worker;
use std::alloc::Global;

// Returns the receipt of a worker if it is valid and its log begins with the right number (`right`).
fn receipt_step(
    alloc: Global,
    book: &Book,
    task: &Task,
    worker: &Worker,
    receipt: Receipt,
    right: bool,
) -> Result<Receipt, StepErr>
    requires { IsQuery book.now task.now }
    ensures same { IfOk result (λ x. x ≡ receipt) }
    ensures valid { IfOk result (λ x. numbered_fault right (answer_fault book.now task.now worker.now (Answer.Spent receipt)) ≡ None) }
    ensures why { IfErr result (λ e. IsStepFault e (option_map NotValid (numbered_fault right (answer_fault book.now task.now worker.now (Answer.Spent receipt))))) }
{
    match accepted_answer(alloc, book, task, worker, Answer::Spent(receipt)) {
        Ok(Answer::Spent(receipt)) => {
            if right {
                return Ok(receipt);
            }
            Err(not_valid(Place::LineAt(1)))
        }
        Ok(_) => unreachable!(),
        Err(e) => Err(numbered(right, e)),
    }
}

// Returns the receipts, one of each worker, if each is valid and its log begins with the right number.
fn receipts(
    alloc: Global,
    book: &Book,
    task: &Task,
    workers: &[Worker],
    receipts: Vec<Receipt>,
    firsts: &[u64],
) -> Result<Vec<Receipt>, StepErr>
    requires query { IsQuery book.now task.now }
    requires workers { length receipts.items ≡ length workers.now }
    requires firsts { length firsts.now ≡ length workers.now }
    ensures same { IfOk result (λ xs. xs.items ≡ receipts.items) }
    ensures valid { IfOk result (λ xs. each_fault book.now task.now workers.now receipts.items firsts.now ≡ None) }
    ensures why { IfErr result (λ e. IsStepFault e (option_map NotValid (each_fault book.now task.now workers.now receipts.items firsts.now))) }
{
    let clauses = clause_count(book, task.set.as_slice());
    let mut checked = Vec::new(alloc);
    let mut i = 0;
    'each: for receipt in receipts {
        let right = is_first_of(firsts[i], clauses, &receipt);
        match receipt_step(alloc, book, task, &workers[i], receipt, right) {
            Ok(receipt) => checked.push(receipt)?,
            Err(e) => return Err(e),
        }
        i += 1;
    }
    Ok(checked)
}

/// Returns the receipts if there is a valid one of each worker, in order of worker, and each log begins with the number in
/// `firsts`.
pub(crate) fn undecided(
    alloc: Global,
    book: &Book,
    task: &Task,
    workers: &[Worker],
    all: Items<Receipt>,
    firsts: &[u64],
) -> Result<Items<Receipt>, StepErr>
    requires { IsQuery book.now task.now }
    ensures same { IfOk result (λ xs. xs ≡ all) }
    ensures valid { IfOk result (λ xs. receipts_fault book.now task.now workers.now all firsts.now ≡ None) }
    ensures why { IfErr result (λ e. IsStepFault e (option_map NotValid (receipts_fault book.now task.now workers.now all firsts.now))) }
{
    if all.as_slice().len() != workers.len() || firsts.len() != workers.len() {
        return Err(not_valid(Place::Kind));
    }
    match receipts(alloc, book, task, workers, all.into_vec(), firsts) {
        Ok(checked) => Ok(Items::from_vec(checked)),
        Err(e) => Err(e),
    }
}
