//! An answer that is known to be valid. Solvers and the check in `certify` make such values, and the auction takes no other
//! answers.

ghost use Rattle.std.specs.Prelude.{◌≡◌};
ghost use Rattle.cert_types.specs.Certificate.{Certificate};
ghost use Rattle.cert_types.specs.Valid.{IsValid};

use crate::answer::Answer;
use crate::task::Task;
use pack_defs::book::Book;
use pack_defs::worker::Worker;
use std::marker::Model;
use std::snapshot::Snapshot;

/// A valid answer to one task, from one worker, under one book. The task, the worker and the book exist only in proofs and take no
/// memory. `certify` and `certify_query` make this value after a check. A solver's own answer needs no check, since the solver's
/// contract ensures that the answer is valid.
#[derive(Drop)]
pub struct Certified {
    book: Snapshot<Book>,
    task: Snapshot<Task>,
    worker: Snapshot<Worker>,
    answer: Answer,
}

impl Model for Certified {
    ghost use Rattle.cert_types.specs.Certificate.{Certificate};
    ghost use Rattle.cert_types.specs.Valid.{IsValid};

    ghost Value = { Certificate };

    ghost view = { λ c. record { book = c.book.value; task = c.task.value; worker = c.worker.value; answer = c.answer } };

    ghost invariant = { λ c. IsValid c.book.value c.task.value c.worker.value c.answer };
}

impl Certified {
    /// Returns the answer as a certified one, unchecked. The precondition says that the answer is valid, as a solver's contract
    /// ensures.
    pub fn from_valid(book: &Book, task: &Task, worker: &Worker, answer: Answer) -> Certified
        requires { IsValid book.now task.now worker.now answer }
        ensures { result ≡ record { book = book.now; task = task.now; worker = worker.now; answer = answer } }
    {
        Certified {
            book: Snapshot::of(book),
            task: Snapshot::of(task),
            worker: Snapshot::of(worker),
            answer,
        }
    }

    /// Lends the answer. It is valid for the book, the task and the worker that it was certified for.
    pub fn answer(&self) -> &Answer
        ensures answer { result.now ≡ self.now.answer }
        ensures valid { IsValid self.now.book self.now.task self.now.worker self.now.answer }
    {
        &self.answer
    }

    /// Returns the answer. It is valid for the book, the task and the worker that it was certified for.
    pub fn into_answer(self) -> Answer
        ensures answer { result ≡ self.answer }
        ensures valid { IsValid self.book self.task self.worker self.answer }
    {
        self.answer
    }
}
