//! Replays the first steps of a record on a clock and a channel map, so that the query of the next step can be found.
//! The record is only borrowed.

ghost use Rattle.std.specs.Prelude.{◌≡◌, ◌<◌, ◌≤◌, ℕ, [], IfOk, if◌then◌else◌, is_some, length, map, option_map, slice_set, take, true, unwrap_or};
ghost use Rattle.pack_defs.specs.ChannelMap.{overlaid};
ghost use Rattle.pack_defs.specs.Lists.{has_station, is_in};
ghost use Rattle.pack_defs.specs.Scenario.{IsWithinLimits, StationsAscend, facilities};
ghost use Rattle.auction_core.specs.Backed.{IsBacked, after_start, after_steps};
ghost use Rattle.auction_core.specs.ClockRun.{GivesWithin, map_after};
ghost use Rattle.auction_core.specs.State.{fit_of, start_delta};
ghost use Rattle.undecided_tests.specs.StepReplay.{IsStateAfter, fit_named};

use auction_core::air_map::AirMap;
use auction_core::clock::{Clock, StationStatus};
use auction_core::record::{Ending, Record, Shown, Step};
use auction_core::station_list::place_of;
use offer_sched::offers::schedule;
use pack_defs::book::Book;
use pack_defs::channel_map::ChannelMap;
use pack_defs::scenario::Scenario;
use std::alloc::{AllocError as NoMemory, Global};

/// The clock and the channel map after the first steps of a record.
#[derive(Debug, Drop)]
pub(crate) struct StateAfter {
    pub(crate) clock: Clock,
    pub(crate) map: AirMap,
}

// Returns the channels of a fit, or `None` if the test was settled otherwise.
fn fit_of(shown: &Shown) -> Option<&ChannelMap>
    ensures { option_map (λ m. m.now) result ≡ fit_of shown.now }
{
    match shown {
        Shown::Fits(delta) => Some(delta),
        _ => None,
    }
}

// Returns the channels of the fit of step `number`, counted from 1, or `None` if the step is no fit.
fn fit_named(steps: &[Step], number: usize) -> Option<&ChannelMap>
    ensures { unwrap_or (option_map (λ m. m.now) result) [] ≡ fit_named steps.now number }
{
    if number == 0 {
        return None;
    }
    let Some(step) = steps.get(number - 1) else {
        return None;
    };
    fit_of(&step.shown)
}

// Notes step `number` as the last fit of the station at this place, if the step is a fit.
fn note_fit(fits: &mut Vec<usize>, place: usize, shown: &Shown, number: usize)
    requires { place < length fits.old.items }
    ensures { fits.new.items ≡ (if is_some (fit_of shown.now) then slice_set fits.old.items place number else fits.old.items) }
{
    if fit_of(shown).is_some() {
        fits[place] = number;
    }
}

// Gives the map the channels of a station's last fit, that of step `number`, if the station is on air.
fn take_if_on_air(map: &mut AirMap, steps: &[Step], number: usize, standing: &StationStatus)
    requires { (f : ℕ) → has_station (fit_named steps.now number) f ≡ true → is_in map.old.stations f ≡ true }
    ensures { map.new ≡ record { stations = map.old.stations; entries = map_after map.old.entries standing.now (fit_named steps.now number) } }
{
    if !standing.is_on_air() {
        return;
    }
    if let Some(fit) = fit_named(steps, number) {
        map.overlay(fit);
    }
}

// Returns the map after the start.
fn start_map(alloc: Global, sc: &Scenario, start: &Shown) -> Result<AirMap, NoMemory>
    requires ascend { StationsAscend sc.now }
    requires within { GivesWithin sc.now (start_delta start.now) }
    ensures { IfOk result (λ m. m ≡ record { stations = facilities sc.now; entries = overlaid [] (start_delta start.now) }) }
{
    let mut map = AirMap::none(alloc, sc.stations.as_slice())?;
    if let Some(fit) = fit_of(start) {
        map.overlay(fit);
    }
    Ok(map)
}

/// Returns the clock and the map after the start and the first `count` steps of a record. Each step costs a binary
/// search for its station, and one for each channel that it gives to the map. The book is for the contract only.
/// Fails only if memory runs out.
pub(crate) fn state_after_steps(
    alloc: Global,
    rec: &Record,
    book: &Book,
    count: usize,
) -> Result<StateAfter, NoMemory>
    requires backed { IsBacked rec.now.scenario book.now rec.now.order rec.now }
    requires done { rec.now.ending ≡ Ending.Done }
    requires limits { IsWithinLimits rec.now.scenario }
    requires there { count ≤ length rec.now.steps }
    ensures { IfOk result (λ left. IsStateAfter rec.now.scenario (after_steps rec.now.scenario (after_start rec.now.scenario rec.now.order rec.now.start) (take count rec.now.steps)) left.clock left.map) }
{
    book.keeps_order();
    let sc = &rec.scenario;
    let stations = sc.stations.as_slice();
    let steps = rec.steps.as_slice();
    let prices = schedule(alloc, sc)?;
    let mut clock = Clock::open(alloc, sc)?;
    let mut map = start_map(alloc, sc, &rec.start)?;
    // For each station's place, the number (from 1) of the step of its last fit, or 0 before its first.
    let mut fits = vec![in alloc; 0; stations.len()]?;
    for k in 0..count {
        let step = &steps[k];
        match place_of(stations, step.station) {
            Some(i) => {
                clock.settle(sc, &prices, i, step.round, step.shown.shows_room());
                note_fit(&mut fits, i, &step.shown, k + 1);
                let standing = clock.station_statuses()[i];
                take_if_on_air(&mut map, steps, fits[i], &standing);
            }
            None => unreachable!(),
        }
    }
    Ok(StateAfter { clock, map })
}
