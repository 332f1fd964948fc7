//! The clock: the standing of each station while the auction runs, and what the frozen stations are paid. `clock_run` calls
//! `Clock::settle` for each settled test; `start` calls `declines_opening`.

ghost use Rattle.std.specs.Prelude.{◌≡◌, ◌<◌, ◌≤◌, ◌*◌, [], IfOk, None, length, slice_index, slice_index_or, slice_set};
ghost use Rattle.pack_defs.specs.Scenario.{IsWithinLimits, facilities};
ghost use Rattle.pack_defs.specs.Prices.{last_round, prices};
ghost use Rattle.pack_defs.specs.ClockRule.{exits, opening_state};
ghost use Rattle.pack_defs.specs.Limits.{MOST_STATIONS};
ghost use Rattle.freeze_ledger.specs.Ledger.{price_of, sum_paid, with_price};
ghost use Rattle.auction_core.specs.Clock.{IsClockOf, answered_clock, declines_offer, most_paid, opening_status, is_status_active, is_status_on_air};

use freeze_ledger::ledger::Ledger;
use offer_sched::offers::offer;
use pack_defs::scenario::Scenario;
use pack_defs::station::Station;
use std::alloc::{AllocError as NoMemory, Global};
use std::marker::Model;

/// The standing of a station.
#[derive(Clone, Copy, Debug, PartialEq, Eq)]
pub enum StationStatus {
    /// The clock still makes offers to it.
    Active,
    /// On air since this round; 0 is the start.
    OnAir { round: u32 },
    /// Frozen in this round. The clock's ledger has its payment.
    Frozen { round: u32 },
}

impl StationStatus {
    /// Returns whether the station is on air.
    pub fn is_on_air(&self) -> bool
        ensures { result ≡ is_status_on_air self.now }
    {
        match self {
            StationStatus::OnAir { .. } => true,
            _ => false,
        }
    }
}

/// The standing of each station, in the scenario's order, and what the frozen ones are paid. The ledger has room for the price of
/// every active station.
#[derive(Debug, Drop)]
pub struct Clock {
    station_statuses: Vec<StationStatus>,
    ledger: Ledger,
}

impl Model for Clock {
    ghost use Rattle.auction_core.specs.Clock.{ClockView, HasRoomToPay};

    ghost Value = { ClockView };

    ghost view = { λ c. record { station_statuses = c.station_statuses.items; paid = c.ledger.paid } };

    ghost invariant = { λ c. HasRoomToPay c.station_statuses.items c.ledger };
}

// Whether the station declines this offer, in cents, in this round. With values: its value is above the offer, or it has none. With
// owners' answers round by round: no line says that it stays.
fn declines(sc: &Scenario, station: &Station, round: u32, offer: u64) -> bool
    ensures { result ≡ declines_offer sc.now round offer station.now }
{
    if let Some(owners) = &sc.owners {
        return !owners.stays(round, station.id);
    }
    match station.value {
        Some(value) => offer < value,
        None => true,
    }
}

/// Returns whether the station declines the opening offer.
pub fn declines_opening(sc: &Scenario, station: &Station) -> bool
    ensures { result ≡ declines_offer sc.now 0 (sc.now.opening * station.now.volume) station.now }
{
    let offer = u64::from(sc.opening) * u64::from(station.volume);
    declines(sc, station, 0, offer)
}

// The standing of a station once the clock opens.
fn opening(sc: &Scenario, station: &Station) -> StationStatus
    ensures { result ≡ opening_status sc.now station.now }
{
    if declines_opening(sc, station) {
        return StationStatus::OnAir { round: 0 };
    }
    StationStatus::Active
}

// Whether the station at this place goes on air if its test of this round fits.
fn exits(sc: &Scenario, schedule: &[u32], i: usize, round: u32) -> bool
    requires limits { IsWithinLimits sc.now }
    requires schedule { schedule.now ≡ prices sc.now }
    requires place { i < length sc.now.stations }
    requires round { round ≤ last_round sc.now }
    ensures { result ≡
        exits sc.now (record { round = round; station = slice_index (facilities sc.now) i }) }
{
    let station = &sc.stations.as_slice()[i];
    // The last round comes after the last price.
    round as usize == schedule.len()
        || declines(sc, station, round, offer(schedule, station.volume, round))
}

impl Clock {
    /// Returns the clock before its first round. A station that declines the opening offer is on air since round 0; every other one
    /// is active. Reserves room for the price of every station.
    ///
    /// # Errors
    ///
    /// Fails only if memory runs out.
    pub fn open(alloc: Global, sc: &Scenario) -> Result<Clock, NoMemory>
        requires { IsWithinLimits sc.now }
        ensures { IfOk result (λ clock. IsClockOf sc.now (opening_state sc.now) clock) }
    {
        let stations = sc.stations.as_slice();
        let mut station_statuses = Vec::with_capacity(alloc, stations.len())?;
        for station in stations {
            station_statuses.push(opening(sc, station))?;
        }
        let ledger = ledger_with_room(alloc, stations.len())?;
        Ok(Clock {
            station_statuses,
            ledger,
        })
    }

    /// Returns the standing of each station, in the scenario's order.
    pub fn station_statuses(&self) -> &[StationStatus]
        ensures { result.now ≡ self.now.station_statuses }
    {
        &self.station_statuses
    }

    /// Returns what a station, by its facility number, is paid, in cents; `None` if it is not frozen. Binary search.
    pub fn paid(&self, station: u32) -> Option<u64>
        ensures { result ≡ price_of station self.now.paid }
    {
        self.ledger.paid(station)
    }

    /// Returns what the frozen stations are paid together, in cents. Constant time.
    pub fn total(&self) -> u64
        ensures { result ≡ sum_paid self.now.paid }
    {
        self.ledger.total()
    }

    /// Returns whether the station at this place is active.
    pub fn is_active(&self, i: usize) -> bool
        requires { i < length self.now.station_statuses }
        ensures { result ≡ is_status_active (slice_index_or self.now.station_statuses i StationStatus.Active) }
    {
        match self.station_statuses[i] {
            StationStatus::Active => true,
            _ => false,
        }
    }

    // Puts the active station at this place on air in this round.
    fn put_on_air(&mut self, i: usize, round: u32)
        requires place { i < length self.old.station_statuses }
        requires active { slice_index_or self.old.station_statuses i StationStatus.Active ≡ StationStatus.Active }
        ensures { self.new ≡ record { station_statuses = slice_set self.old.station_statuses i (StationStatus.OnAir round); paid = self.old.paid } }
    {
        self.station_statuses[i] = StationStatus::OnAir { round };
    }

    // Freezes the active station at this place, with this facility number, in this round at this price, in cents.
    fn freeze(&mut self, i: usize, station: u32, round: u32, price: u64)
        requires place { i < length self.old.station_statuses }
        requires active { slice_index_or self.old.station_statuses i StationStatus.Active ≡ StationStatus.Active }
        requires absent { price_of station self.old.paid ≡ None }
        requires few { length self.old.station_statuses ≤ MOST_STATIONS }
        requires price { price ≤ most_paid }
        ensures { self.new ≡ record { station_statuses = slice_set self.old.station_statuses i (StationStatus.Frozen round); paid = with_price station price self.old.paid } }
    {
        self.station_statuses[i] = StationStatus::Frozen { round };
        self.ledger.freeze(station, price);
    }

    /// Moves the active station at this place once its test of this round is answered. Allocates nothing.
    ///
    /// A station that fits goes on air if it declines the round's offer or if this is the last round; otherwise it stays active. A
    /// station that doesn't fit is frozen at its offer of the round before.
    pub fn settle(&mut self, sc: &Scenario, schedule: &[u32], i: usize, round: u32, fits: bool)
        requires limits { IsWithinLimits sc.now }
        requires schedule { schedule.now ≡ prices sc.now }
        requires place { i < length sc.now.stations }
        requires stations { length self.old.station_statuses ≡ length sc.now.stations }
        requires active { slice_index_or self.old.station_statuses i StationStatus.Active ≡ StationStatus.Active }
        requires unpaid { price_of (slice_index (facilities sc.now) i) self.old.paid ≡ None }
        requires begun { 1 ≤ round }
        requires round { round ≤ last_round sc.now }
        ensures { self.new ≡ answered_clock sc.now
            (record { round = round; station = slice_index (facilities sc.now) i }) i fits self.old }
    {
        if fits {
            if exits(sc, schedule, i, round) {
                self.put_on_air(i, round);
            }
            return;
        }
        let station = &sc.stations.as_slice()[i];
        let price = offer(schedule, station.volume, round - 1);
        self.freeze(i, station.id, round, price);
    }
}

// Returns an empty ledger with room for this many prices.
fn ledger_with_room(alloc: Global, stations: usize) -> Result<Ledger, NoMemory>
    requires { stations ≤ MOST_STATIONS }
    ensures paid { IfOk result (λ ledger. ledger.paid ≡ []) }
    ensures room { IfOk result (λ ledger. stations ≤ ledger.spare) }
{
    let mut ledger = Ledger::new(alloc);
    ledger.reserve(stations as u32)?;
    Ok(ledger)
}
