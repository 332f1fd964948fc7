//! The solver of a worker that walks, as other crates see it.

ghost use Rattle.std.specs.Prelude.{ℕ, ◌≡◌, [], IfOk, false};
ghost use Rattle.pack_defs.specs.Scenario.{learns};
ghost use Rattle.cert_types.specs.Moves.{start_map};
ghost use Rattle.walk_repack.specs.Steps.{WalkEndIs};
ghost use Rattle.pack_defs.specs.declared.worker.Kind.{Kind};
ghost use Rattle.cert_types.specs.Query.{AttemptIs, IsQuery};

use crate::answers::{fit, receipt, refutation};
use crate::guide::Guide;
use crate::steps::{WalkEnd, run};
use crate::walk_state::WalkState;
use cert_types::poll::{Attempt, Poll};
use cert_types::start::start_map;
use cert_types::task::Task;
use pack_defs::book::Book;
use pack_defs::worker::Worker;
use std::alloc::{AllocError as NoMemory, Global};
use std::marker::Model;

/// A solver that walks over channel maps from the query's start map, for a worker of kind walk. Contracts see the worker.
#[derive(Drop)]
pub struct Walk {
    worker: Worker,
}

impl Model for Walk {
    ghost use Rattle.std.specs.Prelude.{◌≡◌, false};
    ghost use Rattle.pack_defs.specs.declared.worker.Worker.{Worker};
    ghost use Rattle.pack_defs.specs.Scenario.{learns};

    ghost Value = { Worker };

    ghost view = { λ w. w.worker };

    ghost invariant = { λ w. learns w.worker.kind ≡ false };
}

impl Walk {
    /// Returns the solver of a worker that walks, which spends the worker's budget in moves.
    ///
    /// # Errors
    /// Fails only if memory runs out.
    pub fn new(_alloc: Global, worker: &Worker) -> Result<Walk, NoMemory>
        requires { worker.now.kind ≡ Kind.Walk }
        ensures { IfOk result (λ solver. solver ≡ worker.now) }
    {
        Ok(Walk { worker: *worker })
    }

    /// Tries to answer a query. The answer is valid for the book, the query and the worker. It is one of:
    ///
    /// - a fit: the channels that turn the last map into a map of the set;
    /// - a refutation: a violated pair whose stations have one channel each;
    /// - a receipt of the moves, if the budget is spent and some pair is still violated.
    ///
    /// The walk stops if the poll reports that another query is current. Each attempt starts over, with the random choices of the
    /// worker's seed in the stream of the query's number. So it makes the same moves each time, and can be repeated whatever it
    /// returned.
    ///
    /// # Errors
    /// Fails only if memory runs out.
    pub fn attempt<P: Poll>(
        &mut self,
        alloc: Global,
        book: &Book,
        task: &Task,
        poll: &mut P,
    ) -> Result<Attempt, NoMemory>
        requires { IsQuery book.now task.now }
        ensures said { IfOk result (λ attempt. AttemptIs book.now task.now self.new (P.last poll.new) attempt) }
        ensures worker { self.new ≡ self.old }
        ensures goes { P.goes poll.old poll.new }
    {
        let worker = self.worker;
        let mut walk_state = begin(alloc, book, task)?;
        let mut guide = Guide::new(alloc, book, walk_state.entries(), worker.seed, task.number)?;
        let outcome = run(
            book,
            &mut walk_state,
            &mut guide,
            worker.budget,
            task.number,
            poll,
        )?;
        walk_answer(alloc, book, task, worker, walk_state, outcome)
    }
}

// Returns the walk at the query's start map.
fn begin(alloc: Global, book: &Book, task: &Task) -> Result<WalkState, NoMemory>
    requires { IsQuery book.now task.now }
    ensures book { IfOk result (λ walk_state. walk_state.book ≡ book.now) }
    ensures start { IfOk result (λ walk_state. walk_state.start ≡ start_map book.now task.now.last task.now.set) }
    ensures moves { IfOk result (λ walk_state. walk_state.moves ≡ []) }
{
    let entries = start_map(alloc, book, task)?;
    Ok(WalkState::new(alloc, book, entries))
}

// Turns the end of a walk into the result of the attempt.
fn walk_answer(
    alloc: Global,
    book: &Book,
    task: &Task,
    worker: Worker,
    walk_state: WalkState,
    outcome: WalkEnd,
) -> Result<Attempt, NoMemory>
    requires query { IsQuery book.now task.now }
    requires walks { learns worker.kind ≡ false }
    requires book { walk_state.book ≡ book.now }
    requires start { walk_state.start ≡ start_map book.now task.now.last task.now.set }
    ensures { (last : ℕ) → WalkEndIs walk_state worker.budget task.now.number last outcome →
        IfOk result (λ attempt. AttemptIs book.now task.now worker last attempt) }
{
    match outcome {
        WalkEnd::Clean => {
            let answer = fit(alloc, book, task, walk_state)?;
            return Ok(Attempt::Said(answer));
        }
        WalkEnd::Dead(pair) => return Ok(Attempt::Said(refutation(&walk_state, pair))),
        WalkEnd::Spent => return Ok(Attempt::Said(receipt(walk_state))),
        WalkEnd::Moved { now } => return Ok(Attempt::Moved { now }),
    }
}
