//! The solver of a worker that learns, as its callers see it.

ghost use Rattle.std.specs.Prelude.{◌≡◌, IfOk};
ghost use Rattle.cert_types.specs.Query.{AttemptIs, IsQuery};

use crate::earlier_answers::{EarlierAnswers, NoAnswers};
use crate::incremental::{IncrementalSearch, SearchCounts};
use crate::proving_search::ProvingSearch;
use cert_types::answer::Answer;
use cert_types::poll::{Attempt, Poll};
use cert_types::task::Task;
use pack_defs::book::Book;
use pack_defs::channel_map::ChannelMap;
use pack_defs::worker::{Kind, Worker};
use quick_fits::quick_fits::{QuickFitCounts, QuickFits};
use search_base::grid::SharedGrid;
use std::alloc::{AllocError as NoMemory, Global};
use std::marker::Model;

/// A solver that learns clauses. It tries quick fits first, then searches over the packing formula and learns a line of a proof
/// from each conflict. Contracts see the solver as its worker, which is one that learns.
#[derive(Drop)]
pub struct Cdcl {
    quick_fits: QuickFits,
    incremental_search: IncrementalSearch,
    proving_search: ProvingSearch,
}

// What answered a query, in the order in which they are asked.
#[derive(Clone, Copy, Debug, PartialEq, Eq)]
enum Stage {
    QuickFits,
    EarlierAnswers,
    Search,
}

impl Model for Cdcl {
    ghost use Rattle.std.specs.Prelude.{◌≡◌, true};
    ghost use Rattle.pack_defs.specs.declared.worker.Worker.{Worker};
    ghost use Rattle.pack_defs.specs.Scenario.{learns};

    ghost Value = { Worker };

    ghost view = { λ c. c.proving_search.worker };

    ghost invariant = { λ c. record { learns : learns c.proving_search.worker.kind ≡ true; same : c.incremental_search.worker ≡ c.proving_search.worker } };
}

impl Cdcl {
    /// Returns the solver of a worker that learns. The worker's budget counts lines, and its seed breaks ties in the order of
    /// decisions. If a proof exceeds the budget, the solver searches for a shorter one. Fails only if memory runs out.
    pub fn new(alloc: Global, worker: &Worker) -> Result<Cdcl, NoMemory>
        requires { worker.now.kind ≡ Kind.Cdcl }
        ensures { IfOk result (λ solver. solver ≡ worker.now) }
    {
        Cdcl::of_grid(alloc, worker, None)
    }

    /// Returns what `new` returns, with the numbers of the book that the queries will be about, if they are known.
    pub fn of_grid(
        alloc: Global,
        worker: &Worker,
        grid: Option<SharedGrid>,
    ) -> Result<Cdcl, NoMemory>
        requires { worker.now.kind ≡ Kind.Cdcl }
        ensures { IfOk result (λ solver. solver ≡ worker.now) }
    {
        Ok(Cdcl {
            quick_fits: QuickFits::new(alloc),
            incremental_search: IncrementalSearch::new(worker, grid),
            proving_search: ProvingSearch { worker: *worker },
        })
    }

    /// Returns how many queries each quick fit has answered so far: the station's last fit, a free channel, one station that makes
    /// way.
    pub fn quick_fit_counts(&self) -> QuickFitCounts {
        self.quick_fits.quick_fit_counts()
    }

    /// Returns how many queries the incremental search has answered so far, and how many it has not.
    pub fn search_counts(&self) -> SearchCounts {
        self.incremental_search.counts()
    }

    /// Tries to answer a query. The answer is valid for the book, the query and the worker, and is one of these:
    ///
    /// - a fit: the channels to write over the last map;
    /// - a proof that the set does not fit, with at most the worker's budget of lines;
    /// - a receipt of as many learnt lines as the budget, over the complete set.
    ///
    /// If the poll reports that another query is current, the attempt stops.
    ///
    /// Quick fits come first: the tested station's last fit, a free channel, and one station that makes way. What a station's last
    /// fit changed is stored for its next query.
    ///
    /// The incremental search comes next, with the clauses that it has learnt from earlier queries and a local search beside it. It has up to
    /// `budget` conflicts for each station without a channel. If its proof exceeds the budget, it searches for a shorter one. If it
    /// spends its conflicts, or finds no proof that is short enough, it makes a receipt of the lines that it has learnt. Its suggestion
    /// is checked before it becomes an answer.
    ///
    /// If it suggests nothing, or its suggestion is rejected, a new search over the complete set begins, with the whole budget. The
    /// poll is called before the first line of each search and then at intervals (`LINES_BETWEEN_POLLS` of `policy`).
    ///
    /// The seed decides which of two equally active variables comes first. With seed 0 their places in a heap decide, which begins
    /// in the order of the variables. Any other seed gives each variable a random initial activity, below what a preference or a
    /// conflict adds. The incremental search draws these once, and a new search draws them from the stream of the query's number. So a solver
    /// learns the same lines each time if it is asked the same queries in the same order.
    ///
    /// # Errors
    ///
    /// Fails only if memory runs out.
    pub fn attempt<P: Poll>(
        &mut self,
        alloc: Global,
        book: &Book,
        task: &Task,
        poll: &mut P,
    ) -> Result<Attempt, NoMemory>
        requires { IsQuery book.now task.now }
        ensures said { IfOk result (λ attempt. AttemptIs book.now task.now self.new (P.last poll.new) attempt) }
        ensures worker { self.new ≡ self.old }
        ensures goes { P.goes poll.old poll.new }
    {
        let mut none = NoAnswers {
            worker: self.proving_search.worker,
        };
        self.attempt_after(alloc, book, task, &mut none, poll)
    }

    /// Does what `attempt` does, but asks earlier answers after the quick fits. What a search then answers is added to them.
    ///
    /// # Errors
    ///
    /// Fails only if memory runs out.
    pub fn attempt_after<E: EarlierAnswers, P: Poll>(
        &mut self,
        alloc: Global,
        book: &Book,
        task: &Task,
        earlier: &mut E,
        poll: &mut P,
    ) -> Result<Attempt, NoMemory>
        requires query { IsQuery book.now task.now }
        requires same { E.worker earlier.old ≡ self.old }
        ensures said { IfOk result (λ attempt. AttemptIs book.now task.now self.new (P.last poll.new) attempt) }
        ensures worker { self.new ≡ self.old }
        ensures earlier { E.worker earlier.new ≡ E.worker earlier.old }
        ensures goes { P.goes poll.old poll.new }
    {
        let (attempt, stage) = self.ask_in_turn(alloc, book, task, earlier, poll)?;
        if stage == Stage::Search {
            earlier.add(alloc, task, &attempt);
        }
        if stage != Stage::QuickFits {
            self.quick_fits.keep_attempted_fit(alloc, task, &attempt);
        }
        Ok(attempt)
    }

    // Asks the stages in turn. Returns what the first one that answers says, and which stage that is.
    fn ask_in_turn<E: EarlierAnswers, P: Poll>(
        &mut self,
        alloc: Global,
        book: &Book,
        task: &Task,
        earlier: &mut E,
        poll: &mut P,
    ) -> Result<(Attempt, Stage), NoMemory>
        requires query { IsQuery book.now task.now }
        requires same { E.worker earlier.old ≡ self.old }
        ensures said { IfOk result (λ r. AttemptIs book.now task.now self.new (P.last poll.new) r.0) }
        ensures worker { self.new ≡ self.old }
        ensures earlier { E.worker earlier.new ≡ E.worker earlier.old }
        ensures goes { P.goes poll.old poll.new }
    {
        if let Some(fit) = self.quick_fits.quick_fit(alloc, book, task)? {
            return Ok((Attempt::Said(Answer::Fit(fit)), Stage::QuickFits));
        }
        if let Some(answer) = earlier.find(alloc, book, task) {
            return Ok((Attempt::Said(answer), Stage::EarlierAnswers));
        }
        let from = last_fit_changes(&self.quick_fits, task.station);
        if let Some(attempt) = self
            .incremental_search
            .attempt(alloc, book, task, from, poll)?
        {
            return Ok((attempt, Stage::Search));
        }
        let attempt = self.proving_search.attempt(alloc, book, task, poll)?;
        Ok((attempt, Stage::Search))
    }
}

// Returns what the tested station's last fit changed.
fn last_fit_changes(quick_fits: &QuickFits, station: Option<u32>) -> Option<&ChannelMap> {
    quick_fits.kept(station?)
}
