//! The writer of a scenario: from its members to the bytes of its file.

ghost use Rattle.std.specs.Prelude.{None, ◌≡◌, ◌≤◌, All, IfOk, Ok};
ghost use Rattle.serde_json.specs.View.{view};
ghost use Rattle.serde_json.specs.Written.{compact_text};
ghost use Rattle.pack_defs.specs.Scenario.{IsWithinLimits};
ghost use Rattle.serde_json.specs.Data.{object};
ghost use Rattle.pack_defs.specs.declared.fall.Fall.TheVariants.{Listed, Rated};
ghost use Rattle.scenario_json.specs.ScenarioOf.{scenario_of};
ghost use Rattle.scenario_json.specs.Write.{IsFileNumber, data_for, kind_text, list_for, members_for, station_for, value_for, whole_for, worker_for};

use pack_defs::fall::Fall;
use pack_defs::scenario::Scenario;
use pack_defs::station::Station;
use pack_defs::worker::{Kind, Worker};
use serde_json::{Value, json};
use std::alloc::{AllocError as NoMemory, Global};

/// Returns the text of the scenario's file. It is a JSON object without spaces and without a line end, with its members in byte
/// order of their names.
///
/// - By a list of decrements: `decrements`, `opening`, `stations`, `top`, `version`, `workers`.
/// - By rate: `floor`, `opening`, `rate`, `stations`, `top`, `version`, `workers`.
///
/// A station has `id`, `value` (null for a station without one) and `volume`; a worker has `budget`, `kind` and `seed`. Owners'
/// answers are left out. If the scenario is within the limits and has no owners' answers, the text is read back as that scenario.
/// Fails only if memory runs out.
pub fn write_scenario(alloc: Global, sc: &Scenario) -> Result<Vec<u8>, NoMemory>
    ensures text { IfOk result (λ v. v.items ≡ compact_text (data_for sc.now)) }
    ensures reads_back { IfOk result (λ v. IsWithinLimits sc.now → sc.now.owners ≡ None → scenario_of v.items ≡ Ok sc.now) }
{
    keeps_file_numbers(sc.stations.as_slice());
    let value = scenario_value(alloc, sc)?;
    value.to_vec(alloc)
}

// Proves that each station's id is one that a file can hold, since it has 32 bits.
fn keeps_file_numbers(stations: &[Station])
    ensures { All IsFileNumber stations.now }
{
    for station in stations {
        keeps_file_number(station.id);
    }
}

// Proves that a number of 32 bits is one that a file can hold.
fn keeps_file_number(id: u32)
    ensures { id ≤ 4294967295 }
{}

// Returns the object of a scenario.
fn scenario_value(alloc: Global, sc: &Scenario) -> Result<Value, NoMemory>
    ensures { IfOk result (λ v. view v ≡ data_for sc.now) }
{
    match &sc.fall {
        Fall::Listed(decrements) => listed_value(alloc, sc, decrements.as_slice()),
        Fall::Rated { rate, floor } => rated_value(alloc, sc, *rate, *floor),
    }
}

// Returns the object of a scenario whose price falls by these decrements.
#[tactic(auto, unfolding(crate::specs::Write::members_for, crate::specs::Write::last_members))]
fn listed_value(alloc: Global, sc: &Scenario, decrements: &[u32]) -> Result<Value, NoMemory>
    ensures { IfOk result (λ v. view v ≡ object (members_for (Listed decrements.now) sc.now)) }
{
    let decrements = decrements_value(alloc, decrements)?;
    let stations = stations_value(alloc, sc.stations.as_slice())?;
    let workers = workers_value(alloc, sc.workers.as_slice())?;
    json!(in alloc; {
        "decrements": decrements,
        "opening": sc.opening,
        "stations": stations,
        "top": sc.top,
        "version": sc.version,
        "workers": workers
    })
}

// Returns the object of a scenario whose price falls by this rate and floor.
#[tactic(auto, unfolding(crate::specs::Write::members_for, crate::specs::Write::last_members))]
fn rated_value(alloc: Global, sc: &Scenario, rate: u32, floor: u32) -> Result<Value, NoMemory>
    ensures { IfOk result (λ v. view v ≡ object (members_for (Rated rate floor) sc.now)) }
{
    let stations = stations_value(alloc, sc.stations.as_slice())?;
    let workers = workers_value(alloc, sc.workers.as_slice())?;
    json!(in alloc; {
        "floor": floor,
        "opening": sc.opening,
        "rate": rate,
        "stations": stations,
        "top": sc.top,
        "version": sc.version,
        "workers": workers
    })
}

// Returns the list of the decrements.
fn decrements_value(alloc: Global, decrements: &[u32]) -> Result<Value, NoMemory>
    ensures { IfOk result (λ v. view v ≡ list_for whole_for decrements.now) }
{
    let mut items = Vec::with_capacity(alloc, decrements.len())?;
    for decrement in decrements {
        items.push(Value::from(*decrement))?;
    }
    Ok(Value::Array(items))
}

// Returns the list of the stations.
fn stations_value(alloc: Global, stations: &[Station]) -> Result<Value, NoMemory>
    ensures { IfOk result (λ v. view v ≡ list_for station_for stations.now) }
{
    let mut items = Vec::with_capacity(alloc, stations.len())?;
    for station in stations {
        items.push(station_value(alloc, station)?)?;
    }
    Ok(Value::Array(items))
}

// Returns the object of a station.
#[tactic(auto, unfolding(crate::specs::Write::station_for))]
fn station_value(alloc: Global, station: &Station) -> Result<Value, NoMemory>
    ensures { IfOk result (λ v. view v ≡ station_for station.now) }
{
    let value = value_value(station.value);
    json!(in alloc; {"id": station.id, "value": value, "volume": station.volume})
}

// Returns a value, or null for a station without one.
fn value_value(value: Option<u64>) -> Value
    ensures { view result ≡ value_for value }
{
    match value {
        Some(cents) => Value::from(cents),
        None => Value::Null,
    }
}

// Returns the list of the workers.
fn workers_value(alloc: Global, workers: &[Worker]) -> Result<Value, NoMemory>
    ensures { IfOk result (λ v. view v ≡ list_for worker_for workers.now) }
{
    let mut items = Vec::with_capacity(alloc, workers.len())?;
    for worker in workers {
        items.push(worker_value(alloc, worker)?)?;
    }
    Ok(Value::Array(items))
}

// Returns the object of a worker.
#[tactic(auto, unfolding(crate::specs::Write::worker_for))]
fn worker_value(alloc: Global, worker: &Worker) -> Result<Value, NoMemory>
    ensures { IfOk result (λ v. view v ≡ worker_for worker.now) }
{
    let kind = kind_text(worker.kind);
    json!(in alloc; {"budget": worker.budget, "kind": kind, "seed": worker.seed})
}

// Returns the name of a kind.
fn kind_text(kind: Kind) -> &'static str
    ensures { result.now ≡ kind_text kind }
{
    match kind {
        Kind::Cdcl => "cdcl",
        Kind::Walk => "walk",
    }
}
