//! The scenario of the stations that start on air, and of no others: `seek` carries out such auctions up to several top channels.

ghost use Rattle.std.specs.Prelude.{◌≡◌, ◌≤◌, IfOk, filter};
ghost use Rattle.pack_defs.specs.Limits.{GREATEST_CHANNEL, LEAST_CHANNEL};
ghost use Rattle.pack_defs.specs.Scenario.{IsWithinLimits};
ghost use Rattle.scenario_json.specs.StartOnly.{declines_opening, start_only};

use pack_defs::fall::Fall;
use pack_defs::items::Items;
use pack_defs::owners::Owners;
use pack_defs::scenario::Scenario;
use pack_defs::station::Station;
use std::alloc::{AllocError, Global};

/// Returns the scenario of the start set alone, up to this top channel, from 14 to 51. Its stations are those that decline the
/// opening offer, in their order, and its price never falls. The opening price, the workers and the owners' answers are the
/// scenario's. Costs one pass over the stations and one over the owners' answers. Fails only if memory runs out.
pub fn start_only(alloc: Global, sc: &Scenario, top: u8) -> Result<Scenario, AllocError>
    requires limits { IsWithinLimits sc.now }
    requires least_top { LEAST_CHANNEL ≤ top }
    requires top { top ≤ GREATEST_CHANNEL }
    ensures { IfOk result (λ only. only ≡ start_only sc.now top) }
{
    let stations = start_stations(alloc, sc)?;
    let workers = Vec::from_slice(alloc, sc.workers.as_slice())?;
    let owners = copied_owners(alloc, sc)?;
    Ok(Scenario {
        version: 1,
        top,
        opening: sc.opening,
        fall: Fall::Listed(Items::from_vec(Vec::new(alloc))),
        stations: Items::from_vec(stations),
        workers: Items::from_vec(workers),
        owners,
    })
}

// Returns the stations that decline the opening offer, in their order.
fn start_stations(alloc: Global, sc: &Scenario) -> Result<Vec<Station>, AllocError>
    ensures { IfOk result (λ v. v.items ≡ filter (declines_opening sc.now) sc.now.stations) }
{
    let stations = sc.stations.as_slice().iter().copied();
    stations
        .filter(|station| declines_opening(sc, station))
        .collect(alloc)
}

// Whether the station declines the opening offer. If the scenario has owners' answers, the station's value is ignored.
fn declines_opening(sc: &Scenario, station: &Station) -> bool
    ensures { result ≡ declines_opening sc.now station.now }
{
    if let Some(owners) = &sc.owners {
        return !owners.stays(0, station.id);
    }
    match station.value {
        Some(value) => u64::from(sc.opening) * u64::from(station.volume) < value,
        None => true,
    }
}

// Returns a copy of the owners' answers, if there are any.
fn copied_owners(alloc: Global, sc: &Scenario) -> Result<Option<Owners>, AllocError>
    ensures { IfOk result (λ copy. copy ≡ sc.now.owners) }
{
    match &sc.owners {
        None => Ok(None),
        Some(owners) => Ok(Some(owners.copy(alloc)?)),
    }
}
