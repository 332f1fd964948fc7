//! The clock rule, run as it is defined: round after round, and in each round the stations in turn. A plain search over all stations on
//! air decides each test.

ghost use Rattle.std.specs.Prelude.{◌≡◌, ◌<◌, ◌≤◌, ◌||◌, ◌==◌, [], IfOk, filter, length, map, not};
ghost use Rattle.pack_defs.specs.Packing.{fits};
ghost use Rattle.pack_defs.specs.Scenario.{StationsAscend, value_of};
ghost use Rattle.pack_defs.specs.Prices.{declines, declines_by_value, offer, prices, stays};
ghost use Rattle.pack_defs.specs.ClockRule.{after_test, after_tests, asked_set, clock_rule, exits, is_on_air, opening_state};

use crate::clock::{OnAirStation, PlainClock};
use crate::round_order::{facilities, round_order, volume_of};
use pack_defs::book::Book;
use pack_defs::order::Order;
use pack_defs::owners::Owners;
use pack_defs::scenario::Scenario;
use plain_pack::search::fits;
use std::alloc::{AllocError as NoMemory, Global};

/// An auction to run: its scenario, its book, and the price of each round from 0 to the last fall, in cents per unit of volume.
#[derive(Drop)]
pub(crate) struct PlainRule<'a> {
    pub(crate) sc: &'a Scenario,
    pub(crate) book: &'a Book,
    pub(crate) schedule: &'a [u32],
    ghost priced: { schedule.now ≡ prices sc.now },
}

// Returns the value of a station of the scenario, if it has one.
fn value_of(sc: &Scenario, station: u32) -> Option<u64>
    ensures { result ≡ value_of sc.now station }
{
    let stations = sc.stations.as_slice();
    for x in stations {
        if x.id == station {
            return x.value;
        }
    }
    None
}

// Checks whether an owner's line says that the station stays in this round.
fn stays(owners: &Owners, round: usize, station: u32) -> bool
    ensures { result ≡ stays owners.now round station }
{
    owners.lines().iter().any(|x| x.round as usize == round && x.station == station && x.stays)
}

// Checks whether the test of `tested` asks about this station.
fn is_asked(clock: &PlainClock, station: u32, tested: u32) -> bool
    ensures { result ≡ (is_on_air clock.now station || (station == tested)) }
{
    clock.is_on_air(station) || station == tested
}

impl PlainRule<'_> {
    // Returns the station's offer in this round, in cents.
    fn offer(&self, station: u32, round: usize) -> u64
        requires { round < length self.now.schedule.now }
        ensures { result ≡ offer self.now.sc.now station round }
    {
        u64::from(self.schedule[round]) * u64::from(volume_of(self.sc, station))
    }

    // Checks whether the station's value declines the round's offer.
    fn declines_by_value(&self, station: u32, round: usize) -> bool
        requires { round < length self.now.schedule.now }
        ensures { result ≡ declines_by_value self.now.sc.now station round }
    {
        match value_of(self.sc, station) {
            Some(value) => self.offer(station, round) < value,
            None => true,
        }
    }

    // Checks whether the station declines the round's offer.
    fn declines(&self, station: u32, round: usize) -> bool
        requires { round < length self.now.schedule.now }
        ensures { result ≡ declines self.now.sc.now station round }
    {
        match &self.sc.owners {
            Some(owners) => !stays(owners, round, station),
            None => self.declines_by_value(station, round),
        }
    }

    // Checks whether the station declines the opening offer.
    fn declines_opening(&self, station: u32) -> bool
        ensures { result ≡ declines self.now.sc.now station 0 }
    {
        self.declines(station, 0)
    }

    // Checks whether the station goes on air if its test of this round fits.
    fn exits(&self, station: u32, round: usize) -> bool
        requires { round ≤ length self.now.schedule.now }
        ensures { result ≡ exits self.now.sc.now (record { round = round; station = station }) }
    {
        // The last round comes after the last price.
        round == self.schedule.len() || self.declines(station, round)
    }

    // Returns the stations on air and this one, ascending.
    fn asked(&self, alloc: Global, clock: &PlainClock, station: u32) -> Result<Vec<u32>, NoMemory>
        ensures { IfOk result (λ set. set.items ≡ asked_set self.now.sc.now clock.now station) }
    {
        let mut set = Vec::new(alloc);
        let ids = facilities(alloc, self.sc)?;
        for f in &ids {
            if !is_asked(clock, *f, station) {
                continue;
            }
            set.push(*f)?;
        }
        Ok(set)
    }

    // Checks whether the stations on air and this one fit.
    fn has_room(&self, alloc: Global, clock: &PlainClock, station: u32) -> Result<bool, NoMemory>
        requires { StationsAscend self.now.sc.now }
        ensures { IfOk result (λ room. room ≡ fits self.now.book.now (asked_set self.now.sc.now clock.now station)) }
    {
        let set = self.asked(alloc, clock, station)?;
        match fits(alloc, self.book, &set)? {
            Some(_) => Ok(true),
            None => Ok(false),
        }
    }

    // Returns the stations that decline the opening offer, which are on air from the start.
    fn starters(&self, alloc: Global) -> Result<Vec<OnAirStation>, NoMemory>
        ensures { IfOk result (λ v. v.items ≡ (opening_state self.now.sc.now).on_air) }
    {
        let mut on_air = Vec::new(alloc);
        let ids = facilities(alloc, self.sc)?;
        for s in &ids {
            if !self.declines_opening(*s) {
                continue;
            }
            on_air.push(OnAirStation {
                station: *s,
                round: 0,
            })?;
        }
        Ok(on_air)
    }

    // Returns the stations among these that don't decline the opening offer.
    fn bidders(&self, alloc: Global, stations: &[u32]) -> Result<Vec<u32>, NoMemory>
        ensures { IfOk result (λ v. v.items ≡ filter (λ s. not (declines self.now.sc.now s 0)) stations.now) }
    {
        let mut bidders = Vec::new(alloc);
        for s in stations {
            if self.declines_opening(*s) {
                continue;
            }
            bidders.push(*s)?;
        }
        Ok(bidders)
    }

    // Returns the clock before its first round.
    fn open(&self, alloc: Global) -> Result<PlainClock, NoMemory>
        ensures { IfOk result (λ clock. clock ≡ opening_state self.now.sc.now) }
    {
        let on_air = self.starters(alloc)?;
        let ids = facilities(alloc, self.sc)?;
        let active = self.bidders(alloc, &ids)?;
        Ok(PlainClock::open(alloc, on_air, active))
    }

    // Tests this station in this round. A station that isn't active isn't asked.
    fn test(
        &self,
        alloc: Global,
        station: u32,
        round: usize,
        clock: &mut PlainClock,
    ) -> Result<(), NoMemory>
        requires ascend { StationsAscend self.now.sc.now }
        requires begun { 1 ≤ round }
        requires last { round ≤ length self.now.schedule.now }
        ensures { IfOk result (λ _. clock.new ≡
            after_test self.now.sc.now self.now.book.now [] clock.old (record { round = round; station = station })) }
    {
        if !clock.is_active(station) {
            return Ok(());
        }
        if !self.has_room(alloc, clock, station)? {
            clock.freeze(station, round, self.offer(station, round - 1))?;
            return Ok(());
        }
        if !self.exits(station, round) {
            return Ok(());
        }
        clock.put_on_air(station, round)
    }

    // Tests these stations in this round, in their order.
    fn round(
        &self,
        alloc: Global,
        bidders: &[u32],
        round: usize,
        clock: &mut PlainClock,
    ) -> Result<(), NoMemory>
        requires ascend { StationsAscend self.now.sc.now }
        requires begun { 1 ≤ round }
        requires last { round ≤ length self.now.schedule.now }
        ensures { IfOk result (λ _. clock.new ≡ after_tests self.now.sc.now self.now.book.now []
            (map (λ s. record { round = round; station = s }) bidders.now) clock.old) }
    {
        for s in bidders {
            self.test(alloc, *s, round, clock)?;
        }
        Ok(())
    }

    /// Returns the clock after every test, with the tests of a round in this order.
    ///
    /// # Errors
    /// Fails only if memory runs out.
    pub(crate) fn run(&self, alloc: Global, order: Order) -> Result<PlainClock, NoMemory>
        requires { StationsAscend self.now.sc.now }
        ensures { IfOk result (λ clock. clock ≡ clock_rule self.now.sc.now self.now.book.now order []) }
    {
        let bidders = self.bidders(alloc, &round_order(alloc, self.sc, order)?)?;
        let mut clock = self.open(alloc)?;
        for round in 1..self.schedule.len() + 1 {
            self.round(alloc, &bidders, round, &mut clock)?;
        }
        Ok(clock)
    }
}
