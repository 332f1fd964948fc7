//! Answers that a solver may reuse in place of a search.

ghost use Rattle.std.specs.Prelude.{◌≡◌, IfSome};
ghost use Rattle.cert_types.specs.Query.{IsQuery};
ghost use Rattle.cert_types.specs.Valid.{IsValid};

use cert_types::answer::Answer;
use cert_types::poll::Attempt;
use cert_types::task::Task;
use pack_defs::book::Book;
use pack_defs::worker::Worker;
use std::alloc::Global;

/// Answers of earlier searches, by this solver or by others, such as those of a cache.
pub trait EarlierAnswers {
    ghost use Rattle.pack_defs.specs.declared.worker.Worker.{Worker};

    /// The worker that the answers are for.
    ghost worker: { Self → Worker };

    /// Returns an earlier answer that is valid for the book, the query and the worker; `None` if there is none, or if memory runs out.
    fn find(&mut self, alloc: Global, book: &Book, task: &Task) -> Option<Answer>
        requires { IsQuery book.now task.now }
        ensures valid { IfSome result (IsValid book.now task.now (worker self.old)) }
        ensures worker { worker self.new ≡ worker self.old };

    /// Adds the answer of a search, if its attempt ended with one. If memory runs out, the answer is not kept.
    fn add(&mut self, alloc: Global, task: &Task, attempt: &Attempt)
        ensures worker { worker self.new ≡ worker self.old };
}

/// No earlier answers for this worker.
#[derive(Drop)]
pub(crate) struct NoAnswers {
    pub(crate) worker: Worker,
}

impl EarlierAnswers for NoAnswers {
    ghost worker = { λ none. none.worker };

    fn find(&mut self, _alloc: Global, _book: &Book, _task: &Task) -> Option<Answer> {
        None
    }

    fn add(&mut self, _alloc: Global, _task: &Task, _attempt: &Attempt) {}
}
