//! A clock run: the clock between two tests, and how a settled test moves it. `query_session` drives it: it calls `begin` for the start
//! test, then `settle` and `advance_to_query` for each query.
//!
//! The clock rule is a descending clock auction (Milgrom and Segal 2020). Two kinds of test need no query: the station has no
//! channel, or the test asks about the same stations as the one before.

ghost use Rattle.std.specs.Prelude.{◌≡◌, ◌≢◌, ◌<◌, ◌≤◌, ◌+◌, ℕ, [], None, IfOk, OnOk, false, true, length, slice_index};
ghost use Rattle.pack_defs.specs.Lists.{has_station, is_empty, is_in};
ghost use Rattle.pack_defs.specs.ClockRule.{is_active, opening_state};
ghost use Rattle.pack_defs.specs.Prices.{last_round};
ghost use Rattle.pack_defs.specs.Scenario.{facilities};
ghost use Rattle.pack_defs.specs.Limits.{MOST_STATIONS};
ghost use Rattle.auction_core.specs.Backed.{IsStartShown, IsStepShown, record_of};
ghost use Rattle.auction_core.specs.Clock.{AreStatuses, is_status_on_air};
ghost use Rattle.auction_core.specs.ClockRun.{IsAtRest, IsClockRun, IsDue, IsSettled, clock_of, core_state, is_roomy, left_of, map_after, next_test, places_left, unasked_of, with_start_shown};
ghost use Rattle.auction_core.specs.ComponentLabels.{AreLabelsOf, label_of, labelled, relabelled};
ghost use Rattle.auction_core.specs.State.{before_start, advance_to_query, is_same, last_fit, start_delta, start_fits, started};
ghost use Rattle.auction_core.specs.StepList.{has_verdict, step_kind_of};

use crate::air_map::AirMap;
use crate::clock::{Clock, StationStatus};
use crate::record::{Record, Shown, Step};
use crate::setup::Setup;
use crate::test_history::TestHistory;
use pack_defs::book::Book;
use pack_defs::items::Items;
use pack_defs::scenario::Scenario;
use std::alloc::{AllocError as NoMemory, Global};
use std::marker::Model;

/// The clock between two tests.
#[derive(Debug, Drop)]
pub struct ClockRun {
    start: Option<Shown>,
    clock: Clock,
    map: AirMap,
    test_history: TestHistory,
    // The next test: its round, and the turn of its station in the round, from 0.
    round: u32,
    place_in_round: usize,
}

impl Model for ClockRun {
    ghost use Rattle.auction_core.specs.ClockRun.{ClockRunView};

    ghost Value = { ClockRunView };

    ghost view = { λ c. record {
      start = c.start;
      clock = c.clock;
      map = c.map;
      test_history = c.test_history;
      round = c.round;
      place_in_round = c.place_in_round;
    } };
}

impl ClockRun {
    /// Returns the clock before the start test, with room for a step of each test.
    ///
    /// # Errors
    ///
    /// Fails only if memory runs out.
    pub fn open(alloc: Global, setup: &Setup) -> Result<ClockRun, NoMemory>
        ensures holds { IfOk result (IsClockRun setup.now) }
        ensures opening { IfOk result (λ c. core_state setup.now c 1 ≡ before_start setup.now.scenario setup.now.order) }
        ensures room { IfOk result (λ c. is_roomy setup.now c ≡ true) }
    {
        let mut clock_run = ClockRun::before_start(alloc, setup)?;
        clock_run.reserve(setup)?;
        Ok(clock_run)
    }

    // Returns the clock before the start test, without room for steps.
    fn before_start(alloc: Global, setup: &Setup) -> Result<ClockRun, NoMemory>
        ensures holds { IfOk result (IsClockRun setup.now) }
        ensures opening { IfOk result (λ c. core_state setup.now c 1 ≡ before_start setup.now.scenario setup.now.order) }
    {
        let sc = setup.scenario();
        let stations = sc.stations.as_slice();
        let clock = Clock::open(alloc, sc)?;
        let test_history = first_test_history(alloc, setup, clock.station_statuses())?;
        Ok(ClockRun {
            start: None,
            clock,
            map: AirMap::none(alloc, stations)?,
            test_history,
            round: 1,
            place_in_round: 0,
        })
    }

    /// Returns how the start test was settled, if it was.
    pub fn start(&self) -> &Option<Shown>
        ensures { result.now ≡ self.now.start }
    {
        &self.start
    }

    /// Returns the test history.
    pub fn test_history(&self) -> &TestHistory
        ensures { result.now ≡ self.now.test_history }
    {
        &self.test_history
    }

    /// Returns the channel map of the stations on air.
    pub fn map(&self) -> &AirMap
        ensures { result.now ≡ self.now.map }
    {
        &self.map
    }

    /// Returns the round of the next test.
    pub fn round(&self) -> u32
        ensures { result ≡ self.now.round }
    {
        self.round
    }

    /// Returns the station of the next test. The next test must be due.
    pub fn station(&self, setup: &Setup) -> u32
        requires { IsDue setup.now self.now }
        ensures { result ≡ (next_test setup.now self.now).station }
    {
        let place = setup.place(self.place_in_round);
        setup.scenario().stations.as_slice()[place].id
    }

    /// Reserves room for a step of every test that is left, and for one verdict. Success or failure, no room
    /// is lost and nothing else changes.
    ///
    /// # Errors
    ///
    /// Fails only if memory runs out.
    pub fn reserve(&mut self, setup: &Setup) -> Result<(), NoMemory>
        requires round { self.old.round ≤ last_round setup.now.scenario }
        requires place_in_round { self.old.place_in_round ≤ length setup.now.scenario.stations }
        ensures room { OnOk result (is_roomy setup.now self.new ≡ true) }
        ensures room_kept { self.old.test_history.room ≤ self.new.test_history.room }
        ensures verdicts_kept { self.old.test_history.verdicts ≤ self.new.test_history.verdicts }
        ensures same { self.new ≡ record self.old { test_history = record self.old.test_history { room = self.new.test_history.room; verdicts = self.new.test_history.verdicts } } }
    {
        let turns = setup.round_length();
        let rounds = (setup.last_round() - self.round) as usize;
        self.test_history
            .reserve(rounds * (turns + 1) + (turns - self.place_in_round))
    }

    /// Settles the start test. If the start set fits, the clock goes on to its first query. Allocates nothing.
    pub fn begin(&mut self, setup: &Setup, shown: Shown)
        requires holds { IsClockRun setup.now self.old }
        requires fresh { self.old.start ≡ None }
        requires shown_is { IsStartShown setup.now.scenario setup.now.book shown }
        requires room { is_roomy setup.now self.old ≡ true }
        ensures holds { IsClockRun setup.now self.new }
        ensures rest { start_fits self.new.start ≡ true → IsAtRest setup.now self.new }
        ensures state { (n : ℕ) → core_state setup.now self.new n ≡ started setup.now.scenario setup.now.book (core_state setup.now self.old n) shown }
    {
        self.show_start(shown);
        if self.is_running() {
            self.advance_to_query(setup);
        }
    }

    // Records how the start test was settled. If it fits, the map takes its channels.
    fn show_start(&mut self, shown: Shown)
        requires { (f : ℕ) → has_station (start_delta shown) f ≡ true → is_in self.old.map.stations f ≡ true }
        ensures { self.new ≡ with_start_shown self.old shown }
    {
        if let Shown::Fits(delta) = &shown {
            self.map.overlay(delta);
        }
        self.start = Some(shown);
    }

    /// Returns whether the clock runs: the start set was shown to fit.
    pub fn is_running(&self) -> bool
        ensures { result ≡ start_fits self.now.start }
    {
        match &self.start {
            Some(shown) => shown.shows_room(),
            None => false,
        }
    }

    /// Returns whether no test is left. The clock must be at rest or must never have run.
    pub fn is_over(&self, setup: &Setup) -> bool
        requires holds { IsClockRun setup.now self.now }
        requires rest { start_fits self.now.start ≡ true → IsAtRest setup.now self.now }
        ensures { result ≡ is_empty (left_of setup.now self.now) }
    {
        !self.is_running() || self.place_in_round == setup.round_length()
    }

    /// Returns the record of a clock run whose start test was settled.
    ///
    /// # Errors
    ///
    /// Fails only if memory runs out.
    pub fn into_record(
        self,
        alloc: Global,
        setup: &Setup,
        scenario: Scenario,
    ) -> Result<Record, NoMemory>
        requires holds { IsClockRun setup.now self }
        requires settled { self.start ≢ None }
        requires scenario { scenario ≡ setup.now.scenario }
        ensures { IfOk result (λ rec. rec ≡ record_of scenario (core_state setup.now self 0)) }
    {
        let map = self.map.whole(alloc)?;
        let total = self.clock.total();
        let (start, steps) = self.into_shown(alloc)?;
        let Some(start) = start else { unreachable!() };
        Ok(Record {
            scenario,
            order: setup.order(),
            ending: start.ending(),
            start,
            steps,
            map,
            total,
        })
    }

    // Returns how the start test was settled, if it was, and the steps in one list.
    fn into_shown(self, alloc: Global) -> Result<(Option<Shown>, Items<Step>), NoMemory>
        ensures start { IfOk result (λ shown. shown.0 ≡ self.start) }
        ensures steps { IfOk result (λ shown. shown.1 ≡ self.test_history.steps) }
    {
        let ClockRun {
            start,
            test_history,
            ..
        } = self;
        let steps = test_history.into_steps(alloc)?;
        Ok((start, steps))
    }

    /// Settles the next test, which must be due. Allocates nothing.
    ///
    /// The clock moves and the step is recorded. If the station goes on air, the map takes the channels of its last fit. The next
    /// test is then the turn after this one.
    pub fn settle(&mut self, setup: &Setup, shown: Shown)
        requires holds { IsClockRun setup.now self.old }
        requires running { start_fits self.old.start ≡ true }
        requires due { IsDue setup.now self.old }
        requires shown_is { IsStepShown setup.now.scenario setup.now.book (core_state setup.now self.old 0) (record { round = (next_test setup.now self.old).round; station = (next_test setup.now self.old).station; shown = shown }) }
        requires room { 1 ≤ self.old.test_history.room }
        requires verdict { has_verdict (step_kind_of shown) ≡ true → 1 ≤ self.old.test_history.verdicts }
        ensures settled { IsSettled setup.now shown self.old self.new }
        ensures running { self.new.start ≡ self.old.start }
        ensures room { self.old.test_history.room ≤ self.new.test_history.room + 1 }
        ensures next { self.new.place_in_round ≡ self.old.place_in_round + 1 }
        ensures round { self.new.round ≡ self.old.round }
    {
        let sc = setup.scenario();
        let round = self.round;
        let place = setup.place(self.place_in_round);
        let station = sc.stations.as_slice()[place].id;
        let fits = shown.shows_room();
        self.clock.settle(sc, setup.schedule(), place, round, fits);
        self.test_history.note(
            place,
            Step {
                round,
                station,
                shown,
            },
        );
        let standing = self.clock.station_statuses()[place];
        take_if_on_air(&mut self.map, &self.test_history, place, &standing);
        label_if_on_air(&mut self.test_history, setup.book(), station, &standing);
        self.place_in_round += 1;
    }

    // Returns how the next test, which must be due, is settled without a query, if it is. Either its station has no channel, or it
    // asks about the same stations as the test of its station one round before.
    fn unasked(&self, setup: &Setup) -> Option<Shown>
        requires holds { IsClockRun setup.now self.now }
        requires running { start_fits self.now.start ≡ true }
        requires due { IsDue setup.now self.now }
        ensures { result ≡ unasked_of setup.now self.now }
    {
        let station = self.station(setup);
        if setup.book().domain(station).is_empty() {
            return Some(Shown::NoChannel(station));
        }
        if self.is_same(setup) {
            return Some(Shown::Same);
        }
        None
    }

    // Whether the next test, which must be due, asks about the same stations as the test of its station one round before.
    fn is_same(&self, setup: &Setup) -> bool
        requires holds { IsClockRun setup.now self.now }
        requires running { start_fits self.now.start ≡ true }
        requires due { IsDue setup.now self.now }
        ensures { result ≡ is_same setup.now.scenario setup.now.book (core_state setup.now self.now 0) (next_test setup.now self.now) }
    {
        // In round 1 there is no earlier test.
        if self.round == 1 {
            return false;
        }
        let place = setup.place(self.place_in_round);
        let station = setup.scenario().stations.as_slice()[place].id;
        !self.test_history.has_changed(setup.book(), place, station)
    }

    // Whether the station of the next turn is active.
    fn is_due(&self, setup: &Setup) -> bool
        requires holds { IsClockRun setup.now self.now }
        requires place_in_round { self.now.place_in_round < length setup.now.scenario.stations }
        ensures { result ≡ is_active (clock_of setup.now self.now) (next_test setup.now self.now).station }
    {
        self.clock.is_active(setup.place(self.place_in_round))
    }

    // Skips the next turn if no query is due there, and returns whether it did. That is at the end of a round, at a station that is
    // not active, or at a test that is settled without a query.
    fn skip_station(&mut self, setup: &Setup) -> bool
        requires holds { IsClockRun setup.now self.old }
        requires running { start_fits self.old.start ≡ true }
        requires room { places_left setup.now self.old ≤ self.old.test_history.room }
        ensures holds { IsClockRun setup.now self.new }
        ensures running { self.new.start ≡ self.old.start }
        ensures room { places_left setup.now self.new ≤ self.new.test_history.room }
        ensures same { (n : ℕ) → advance_to_query setup.now.scenario setup.now.book (left_of setup.now self.new) (core_state setup.now self.new n) ≡ advance_to_query setup.now.scenario setup.now.book (left_of setup.now self.old) (core_state setup.now self.old n) }
        ensures rest { result ≡ false → IsAtRest setup.now self.new }
        ensures nearer { result ≡ true → places_left setup.now self.new < places_left setup.now self.old }
    {
        if self.place_in_round == setup.round_length() {
            return self.next_round(setup);
        }
        if !self.is_due(setup) {
            self.place_in_round += 1;
            return true;
        }
        let Some(shown) = self.unasked(setup) else {
            return false;
        };
        self.settle(setup, shown);
        true
    }

    // Goes to the next round if there is one. The clock must be at the end of a round. Returns whether it did.
    fn next_round(&mut self, setup: &Setup) -> bool
        requires holds { IsClockRun setup.now self.old }
        requires end { self.old.place_in_round ≡ length setup.now.scenario.stations }
        ensures next { result ≡ true → (self.old.round < last_round setup.now.scenario) × (self.new ≡ record self.old { round = self.old.round + 1; place_in_round = 0 }) }
        ensures over { result ≡ false → (self.old.round ≡ last_round setup.now.scenario) × (self.new ≡ self.old) }
    {
        if self.round == setup.last_round() {
            return false;
        }
        self.round += 1;
        self.place_in_round = 0;
        true
    }

    /// Goes on to the next test that needs a query, or to the end. Skips stations that are not active, and settles each test that
    /// needs no query. Allocates nothing.
    pub fn advance_to_query(&mut self, setup: &Setup)
        requires holds { IsClockRun setup.now self.old }
        requires running { start_fits self.old.start ≡ true }
        requires room { places_left setup.now self.old ≤ self.old.test_history.room }
        ensures holds { IsClockRun setup.now self.new }
        ensures rest { IsAtRest setup.now self.new }
        ensures running { self.new.start ≡ self.old.start }
        ensures state { (n : ℕ) → core_state setup.now self.new n ≡ advance_to_query setup.now.scenario setup.now.book (left_of setup.now self.old) (core_state setup.now self.old n) }
    {
        while self.skip_station(setup) {}
    }
}

// If the station at this place is on air, overwrites the map with the channels of its last fit.
fn take_if_on_air(
    map: &mut AirMap,
    test_history: &TestHistory,
    place: usize,
    standing: &StationStatus,
)
    requires place { place < length test_history.now.component_labels.stations }
    requires within { (f : ℕ) → has_station (last_fit test_history.now.steps (slice_index test_history.now.component_labels.stations place) []) f ≡ true → is_in map.old.stations f ≡ true }
    ensures { map.new ≡ record { stations = map.old.stations; entries = map_after map.old.entries standing.now (last_fit test_history.now.steps (slice_index test_history.now.component_labels.stations place) []) } }
{
    if !standing.is_on_air() {
        return;
    }
    if let Some(fit) = test_history.last_fit(place) {
        map.overlay(fit);
    }
}

// If the station's standing is on air, merges the station with the components that it interferes with.
fn label_if_on_air(
    test_history: &mut TestHistory,
    book: &Book,
    station: u32,
    standing: &StationStatus,
)
    requires known { is_in test_history.old.component_labels.stations station ≡ true }
    requires few { test_history.old.on_air < MOST_STATIONS }
    ensures same { test_history.new ≡ record test_history.old { component_labels = test_history.new.component_labels; on_air = test_history.new.on_air } }
    ensures stations { test_history.new.component_labels.stations ≡ test_history.old.component_labels.stations }
    ensures went { is_status_on_air standing.now ≡ true → (test_history.new.on_air ≡ test_history.old.on_air + 1) × ((z : ℕ) → label_of test_history.new.component_labels z ≡ relabelled book.now (labelled test_history.old.component_labels) (label_of test_history.old.component_labels) station (test_history.old.on_air + 1) z) }
    ensures stood { is_status_on_air standing.now ≡ false → (test_history.new.on_air ≡ test_history.old.on_air) × (test_history.new.component_labels ≡ test_history.old.component_labels) }
{
    if standing.is_on_air() {
        test_history.put_on_air(book, station);
    }
}

// Returns the test history before the first test: the stations on air from the start, and no step.
fn first_test_history(
    alloc: Global,
    setup: &Setup,
    station_statuses: &[StationStatus],
) -> Result<TestHistory, NoMemory>
    requires { AreStatuses setup.now.scenario (opening_state setup.now.scenario) station_statuses.now }
    ensures component_labels { IfOk result (λ p. AreLabelsOf setup.now.scenario setup.now.book (opening_state setup.now.scenario) p.component_labels) }
    ensures on_air { IfOk result (λ p. p.on_air ≡ length (opening_state setup.now.scenario).on_air) }
    ensures long { IfOk result (λ p. length p.seen ≡ length setup.now.scenario.stations) }
    ensures seen { IfOk result (λ p. (i : ℕ) → slice_index p.seen i ≡ 0) }
    ensures steps { IfOk result (λ p. p.steps ≡ []) }
{
    let stations = setup.scenario().stations.as_slice();
    let mut test_history = TestHistory::none(alloc, stations)?;
    put_all_on_air(&mut test_history, setup, station_statuses);
    Ok(test_history)
}

// Puts the stations on air that are on air from the start, one after another.
fn put_all_on_air(test_history: &mut TestHistory, setup: &Setup, station_statuses: &[StationStatus])
    requires stations { test_history.old.component_labels.stations ≡ facilities setup.now.scenario }
    requires none { (z : ℕ) → label_of test_history.old.component_labels z ≡ 0 }
    requires on_air { test_history.old.on_air ≡ 0 }
    requires station_statuses { AreStatuses setup.now.scenario (opening_state setup.now.scenario) station_statuses.now }
    ensures component_labels { AreLabelsOf setup.now.scenario setup.now.book (opening_state setup.now.scenario) test_history.new.component_labels }
    ensures on_air { test_history.new.on_air ≡ length (opening_state setup.now.scenario).on_air }
    ensures same { test_history.new ≡ record test_history.old { component_labels = test_history.new.component_labels; on_air = test_history.new.on_air } }
{
    let stations = setup.scenario().stations.as_slice();
    for i in 0..stations.len() {
        label_if_on_air(
            test_history,
            setup.book(),
            stations[i].id,
            &station_statuses[i],
        );
    }
}
