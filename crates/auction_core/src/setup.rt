//! What is fixed while an auction runs: the scenario, the book, the prices and the test order. `query_session` makes it once and lends
//! it to `clock_run`. Nothing here changes after `make`.

ghost use Rattle.std.specs.Arc.{arc_value};
ghost use Rattle.std.specs.Prelude.{◌≡◌, ◌+◌, ◌<◌, ◌≤◌, IfOk, length, slice_index};
ghost use Rattle.pack_defs.specs.ClockRule.{round_order};
ghost use Rattle.pack_defs.specs.Prices.{last_round, prices};
ghost use Rattle.pack_defs.specs.Scenario.{facilities};
ghost use Rattle.pack_defs.specs.Limits.{MOST_ROUNDS, MOST_STATIONS};
ghost use Rattle.auction_core.specs.Setup.{IsOfAuction, IsSetupSound};

use crate::round_order::places;
use offer_sched::offers::schedule;
use pack_defs::book::Book;
use pack_defs::order::Order;
use pack_defs::scenario::Scenario;
use std::alloc::{AllocError as NoMemory, Global};
use std::marker::Model;
use std::sync::Arc;

/// The scenario and the book of an auction, its prices, and the order in which a round tests the stations.
#[derive(Debug, Drop)]
pub struct Setup {
    scenario: Scenario,
    // Shared, so that one thread can check an answer against the book while another thread holds the auction.
    book: Arc<Book>,
    order: Order,
    // The price of each round, in cents, from round 0 on.
    schedule: Vec<u32>,
    // The scenario place of each station, in the order in which a round tests them.
    places: Vec<usize>,
}

impl Model for Setup {
    ghost use Rattle.std.specs.Arc.{arc_value};
    ghost use Rattle.auction_core.specs.Setup.{IsSetup, SetupView};

    ghost Value = { SetupView };

    ghost view = { λ s. record { scenario = s.scenario; book = arc_value s.book; order = s.order } };

    ghost invariant = { λ s. IsSetup (record { scenario = s.scenario; book = arc_value s.book; order = s.order }) s.schedule.items s.places.items };
}

impl Setup {
    /// Returns the setup of an auction of this scenario and book, tested in this order. Copies both.
    ///
    /// # Errors
    ///
    /// Fails only if memory runs out.
    pub fn make(alloc: Global, sc: &Scenario, book: &Book, order: Order) -> Result<Setup, NoMemory>
        requires { IsOfAuction sc.now book.now }
        ensures { IfOk result (λ setup. setup ≡ record { scenario = sc.now; book = book.now; order = order }) }
    {
        Ok(Setup {
            scenario: sc.copy(alloc)?,
            book: Arc::new(alloc, book.copy(alloc)?)?,
            order,
            schedule: schedule(alloc, sc)?,
            places: places(alloc, sc, order)?,
        })
    }

    /// Returns the scenario. It is within the limits, and the book has exactly its stations and is in order.
    pub fn scenario(&self) -> &Scenario
        ensures value { result.now ≡ self.now.scenario }
        ensures sound { IsSetupSound self.now }
    {
        &self.scenario
    }

    /// Returns the book.
    pub fn book(&self) -> &Book
        ensures { result.now ≡ self.now.book }
    {
        &self.book
    }

    /// Clones the shared book; no copy is made. Fails if the reference count would overflow.
    pub fn shared_book(&self) -> Result<Arc<Book>, NoMemory>
        ensures { IfOk result (λ book. arc_value book ≡ self.now.book) }
    {
        Arc::try_clone(&self.book)
    }

    /// Returns the order in which a round tests the stations.
    pub fn order(&self) -> Order
        ensures { result ≡ self.now.order }
    {
        self.order
    }

    /// Returns the price of each round, in cents, from round 0 on.
    pub fn schedule(&self) -> &[u32]
        ensures { result.now ≡ prices self.now.scenario }
    {
        &self.schedule
    }

    /// Returns the number of the last round, which comes after the last fall of the price.
    pub fn last_round(&self) -> u32
        ensures value { result ≡ last_round self.now.scenario }
        ensures few { result ≤ MOST_ROUNDS + 1 }
    {
        self.schedule.len() as u32
    }

    /// Returns the number of stations that a round may test: all of the scenario's.
    pub fn round_length(&self) -> usize
        ensures value { result ≡ length self.now.scenario.stations }
        ensures few { result ≤ MOST_STATIONS }
    {
        self.scenario.stations.as_slice().len()
    }

    /// Returns the place in the scenario of the station that a round tests at this turn, from 0.
    pub fn place(&self, place_in_round: usize) -> usize
        requires { place_in_round < length self.now.scenario.stations }
        ensures within { result < length self.now.scenario.stations }
        ensures station { slice_index (facilities self.now.scenario) result ≡ slice_index (round_order self.now.scenario self.now.order) place_in_round }
    {
        self.places[place_in_round]
    }
}
