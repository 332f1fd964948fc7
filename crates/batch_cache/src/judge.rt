//! Checks entries of the cache with `certify`.

ghost use Rattle.std.specs.Prelude.{◌≡◌, IfOk};
ghost use Rattle.pack_defs.specs.Book.{BookView};
ghost use Rattle.pack_defs.specs.declared.worker.Worker.{Worker};
ghost use Rattle.cert_types.specs.Certificate.{IsTaskOf, ReportsPlace};
ghost use Rattle.cert_types.specs.Valid.{answer_fault};
ghost use Rattle.cert_types.specs.declared.answer.Answer.{Answer};
ghost use Rattle.cert_types.specs.declared.task.Task.{Task};
ghost use Rattle.cert_types.specs.declared.answer.Answer.TheVariants as answer;
ghost use Rattle.batch_cache.specs.Answering.{restrict_to};
ghost use Rattle.batch_cache.specs.KeptRefutation.{when_valid};

use crate::kept_refutation::KeptRefutation;
use crate::restriction::restrict_to;
use cert_types::answer::{Answer, CertifyWhy};
use cert_types::certify::certify;
use cert_types::task::Task;
use pack_defs::book::Book;
use pack_defs::channel_map::ChannelMap;
use pack_defs::worker::Worker;
use std::alloc::{AllocError as NoMemory, Global};

/// Returns the fit that a map leads to on the task's set, if it is valid. Fails only if memory runs out.
pub(crate) fn fit_of(
    alloc: Global,
    book: &Book,
    task: &Task,
    worker: &Worker,
    map: &ChannelMap,
) -> Result<Option<Answer>, NoMemory>
    requires { IsTaskOf book.now task.now }
    ensures { IfOk result (λ told. told ≡ when_valid book.now task.now worker.now (answer.Fit (restrict_to task.now.set map.now))) }
{
    let part = restrict_to(alloc, task.set.as_slice(), map)?;
    if_valid(alloc, book, task, worker, Answer::Fit(part))
}

/// Returns a copy of a refutation, if it is valid. Fails only if memory runs out.
pub(crate) fn refutation_of(
    alloc: Global,
    book: &Book,
    task: &Task,
    worker: &Worker,
    kept: &KeptRefutation,
) -> Result<Option<Answer>, NoMemory>
    requires { IsTaskOf book.now task.now }
    ensures { IfOk result (λ told. told ≡ when_valid book.now task.now worker.now (answer.Refuted kept.now)) }
{
    let refutation = kept.copied(alloc)?;
    if_valid(alloc, book, task, worker, Answer::Refuted(refutation))
}

// Returns the answer, if it is valid.
fn if_valid(
    alloc: Global,
    book: &Book,
    task: &Task,
    worker: &Worker,
    answer: Answer,
) -> Result<Option<Answer>, NoMemory>
    requires { IsTaskOf book.now task.now }
    ensures { IfOk result (λ told. told ≡ when_valid book.now task.now worker.now answer) }
{
    match certify(alloc, book, task, worker, answer) {
        Ok(certified) => Ok(Some(certified.into_answer())),
        Err(fault) => none_if_rejected(fault.why),
    }
}

// Returns `None` for a rejected answer; passes out of memory on.
fn none_if_rejected(why: CertifyWhy) -> Result<Option<Answer>, NoMemory>
    ensures { (book : BookView) (task : Task) (worker : Worker) (answer : Answer) → ReportsPlace why (answer_fault book task worker answer) →
        IfOk result (λ told. told ≡ when_valid book task worker answer) }
{
    match why {
        CertifyWhy::Rejected(_) => Ok(None),
        CertifyWhy::NoMemory => Err(NoMemory),
    }
}
