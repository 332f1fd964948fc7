//! A query session: an auction between two queries, whoever answers them. `auction` drives one from postings, `check_sequence` from a
//! transcript.

ghost use Rattle.std.specs.Arc.{arc_value};
ghost use Rattle.std.specs.Prelude.{◌≡◌, ◌≢◌, [], None, Some, IfOk, MatchOption, OnOk, ⊤, false, true};
ghost use Rattle.cert_types.specs.Query.{IsQuery};
ghost use Rattle.pack_defs.specs.Book.{IsInOrder};
ghost use Rattle.auction_core.specs.Backed.{IsBacked, record_of};
ghost use Rattle.auction_core.specs.ClockRun.{IsAtRest, IsClockRun, core_state};
ghost use Rattle.auction_core.specs.Rule.{KeepsTheRule, SettlesQuery};
ghost use Rattle.auction_core.specs.Setup.{IsOfAuction};
ghost use Rattle.auction_core.specs.State.{answered, has_ended, opening, start_fits, start_task, task_of};

use crate::clock_run::ClockRun;
use crate::record::{Record, Shown};
use crate::setup::Setup;
use crate::start::{start_set, start_unasked};
use crate::step_list::StepList;
use cert_types::task::Task;
use pack_defs::book::Book;
use pack_defs::channel_map::ChannelMap;
use pack_defs::items::Items;
use pack_defs::order::Order;
use pack_defs::scenario::Scenario;
use pack_defs::worker::Worker;
use std::alloc::{AllocError as NoMemory, Global};
use std::marker::Model;
use std::sync::Arc;

/// An auction between two queries. It keeps the clock rule whatever settles its queries.
#[derive(Debug, Drop)]
pub struct QuerySession {
    setup: Setup,
    clock_run: ClockRun,
    number: u64,
}

impl Model for QuerySession {
    ghost use Rattle.auction_core.specs.QuerySession.{QuerySessionView, IsQuerySession};
    ghost use Rattle.auction_core.specs.ClockRun.{core_state, is_roomy};

    ghost Value = { QuerySessionView };

    ghost view = { λ c. record {
      scenario = c.setup.scenario;
      book = c.setup.book;
      state = core_state c.setup c.clock_run c.number;
      ready = is_roomy c.setup c.clock_run;
    } };

    ghost invariant = { λ c. IsQuerySession c.setup c.clock_run c.number };
}

impl QuerySession {
    /// Returns the auction of this scenario and book, with this test order in each round. It is at its first query or, if it needs
    /// none, at its end. Copies the scenario and the book.
    ///
    /// # Errors
    ///
    /// Fails only if memory runs out.
    pub fn open(
        alloc: Global,
        sc: &Scenario,
        book: &Book,
        order: Order,
    ) -> Result<QuerySession, NoMemory>
        requires { IsOfAuction sc.now book.now }
        ensures scenario { IfOk result (λ query_session. query_session.scenario ≡ sc.now) }
        ensures book { IfOk result (λ query_session. query_session.book ≡ book.now) }
        ensures state { IfOk result (λ query_session. query_session.state ≡ opening sc.now book.now order) }
    {
        let setup = Setup::make(alloc, sc, book, order)?;
        let clock_run = first_clock_run(alloc, &setup)?;
        Ok(QuerySession {
            setup,
            clock_run,
            number: 1,
        })
    }

    /// Does nothing at run time. Its clauses are for proofs. The scenario and the book are those of an auction, and the book is in
    /// order. The state keeps the clock rule, and no receipt is pending in the state.
    pub fn keeps_the_rule(&self)
        ensures auction { IsOfAuction self.now.scenario self.now.book }
        ensures in_order { IsInOrder self.now.book }
        ensures rule { KeepsTheRule self.now.scenario self.now.book self.now.state }
        ensures unnoted { self.now.state.noted ≡ [] }
    {
        let _number = self.number;
    }

    /// Returns the book.
    pub fn book(&self) -> &Book
        ensures { result.now ≡ self.now.book }
    {
        self.setup.book()
    }

    /// Clones the shared book; no copy is made. Fails if the reference count would overflow.
    pub fn shared_book(&self) -> Result<Arc<Book>, NoMemory>
        ensures { IfOk result (λ book. arc_value book ≡ self.now.book) }
    {
        self.setup.shared_book()
    }

    /// Returns the workers of the scenario.
    pub fn workers(&self) -> &[Worker]
        ensures { result.now ≡ self.now.scenario.workers }
    {
        self.setup.scenario().workers.as_slice()
    }

    /// Returns how the start test was settled, if it was.
    pub fn start(&self) -> &Option<Shown>
        ensures { result.now ≡ self.now.state.start }
    {
        self.clock_run.start()
    }

    /// Returns the steps so far, including those that needed no query.
    pub fn steps(&self) -> &StepList
        ensures { result.now.steps ≡ self.now.state.steps }
    {
        self.clock_run.test_history().steps()
    }

    /// Returns the number of the current query, from 1; once the auction has ended, one more than the last.
    pub fn number(&self) -> u64
        ensures { result ≡ self.now.state.number }
    {
        self.number
    }

    /// Returns whether the auction has ended: no query is left.
    pub fn has_ended(&self) -> bool
        ensures { result ≡ has_ended self.now.state }
    {
        match self.clock_run.start() {
            Some(_) => self.clock_run.is_over(&self.setup),
            None => false,
        }
    }

    /// Returns the current query, or `None` if the auction has ended. Solvers may be run on it, and answers to it may be checked.
    /// Cost: a binary search for each neighbour of the tested station and a pass over all stations.
    ///
    /// # Errors
    ///
    /// Fails only if memory runs out.
    pub fn task(&self, alloc: Global) -> Result<Option<Task>, NoMemory>
        ensures task { IfOk result (λ task. task ≡ task_of self.now.scenario self.now.book self.now.state) }
        ensures query { IfOk result (λ task. MatchOption task ⊤ (IsQuery self.now.book)) }
    {
        if self.clock_run.start().is_none() {
            return Ok(Some(self.start_task(alloc)?));
        }
        if self.has_ended() {
            return Ok(None);
        }
        Ok(Some(self.test_task(alloc)?))
    }

    // Returns the query of the start test.
    fn start_task(&self, alloc: Global) -> Result<Task, NoMemory>
        ensures { IfOk result (λ task. task ≡ start_task self.now.scenario self.now.state.number) }
    {
        Ok(Task {
            number: self.number,
            round: 0,
            station: None,
            set: Items::from_vec(start_set(alloc, self.setup.scenario())?),
            last: ChannelMap::of(alloc, &[])?,
        })
    }

    // Returns the query of the next test. The start set must have been shown to fit.
    fn test_task(&self, alloc: Global) -> Result<Task, NoMemory>
        requires started { self.now.state.start ≢ None }
        requires standing { has_ended self.now.state ≡ false }
        ensures { IfOk result (λ task. Some task ≡ task_of self.now.scenario self.now.book self.now.state) }
    {
        let station = self.clock_run.station(&self.setup);
        let test_history = self.clock_run.test_history();
        let (set, last) = test_history.component_labels().touched_stations_on(
            alloc,
            self.setup.book(),
            station,
            test_history.on_air(),
            self.clock_run.map(),
        )?;
        Ok(Task {
            number: self.number,
            round: self.clock_run.round(),
            station: Some(station),
            set: Items::from_vec(set),
            last,
        })
    }

    /// Reserves room for all steps that settling one query can add: its own, and the steps after it that need no query. Success or failure,
    /// no room is lost and nothing else changes.
    ///
    /// # Errors
    ///
    /// Fails only if memory runs out.
    pub fn reserve(&mut self) -> Result<(), NoMemory>
        ensures ready { OnOk result (self.new.ready ≡ true) }
        ensures kept { self.old.ready ≡ true → self.new.ready ≡ true }
        ensures scenario { self.new.scenario ≡ self.old.scenario }
        ensures book { self.new.book ≡ self.old.book }
        ensures state { self.new.state ≡ self.old.state }
    {
        self.clock_run.reserve(&self.setup)
    }

    /// Settles the current query, and goes on to the next query or to the end. Allocates nothing.
    pub fn settle(&mut self, shown: Shown)
        requires ready { self.old.ready ≡ true }
        requires standing { has_ended self.old.state ≡ false }
        requires settles { SettlesQuery self.old.scenario self.old.book self.old.state shown }
        ensures scenario { self.new.scenario ≡ self.old.scenario }
        ensures book { self.new.book ≡ self.old.book }
        ensures state { self.new.state ≡ answered self.old.scenario self.old.book self.old.state shown }
    {
        self.number += 1;
        if self.clock_run.start().is_none() {
            self.clock_run.begin(&self.setup, shown);
            return;
        }
        self.clock_run.settle(&self.setup, shown);
        self.clock_run.advance_to_query(&self.setup);
    }

    /// Returns the record of the auction, which must have ended.
    ///
    /// # Errors
    ///
    /// Fails only if memory runs out.
    pub fn into_record(self, alloc: Global, scenario: Scenario) -> Result<Record, NoMemory>
        requires ended { has_ended self.state ≡ true }
        requires scenario { scenario ≡ self.scenario }
        ensures record_is { IfOk result (λ rec. rec ≡ record_of scenario self.state) }
        ensures backed { IfOk result (IsBacked scenario self.book self.state.order) }
    {
        let QuerySession {
            setup,
            clock_run,
            ..
        } = self;
        clock_run.into_record(alloc, &setup, scenario)
    }
}

// Returns the clock at its first query or, if it needs none, at its end.
fn first_clock_run(alloc: Global, setup: &Setup) -> Result<ClockRun, NoMemory>
    ensures holds { IfOk result (IsClockRun setup.now) }
    ensures rest { IfOk result (λ c. start_fits c.start ≡ true → IsAtRest setup.now c) }
    ensures state { IfOk result (λ c. core_state setup.now c 1 ≡ opening setup.now.scenario setup.now.book setup.now.order) }
{
    let mut clock_run = ClockRun::open(alloc, setup)?;
    let Some(shown) = start_unasked(alloc, setup.scenario(), setup.book())? else {
        return Ok(clock_run);
    };
    clock_run.begin(setup, shown);
    Ok(clock_run)
}
