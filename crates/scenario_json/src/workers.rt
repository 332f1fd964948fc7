//! The workers of a scenario.

ghost use Rattle.std.specs.Prelude.{◌≡◌, ◌≤◌, map};
ghost use Rattle.std.specs.List.{list_any};
ghost use Rattle.serde_json.specs.View.{view};
ghost use Rattle.pack_defs.specs.Limits.{MOST_MOVES};
ghost use Rattle.pack_defs.specs.Scenario.{is_prover, most_budget};
ghost use Rattle.scenario_json.specs.ScenarioOf.{kind_in, kind_named, seed_in, worker_in, workers_in};
ghost use Rattle.scenario_json.specs.Steps.{ScenarioReads, each_from};

use crate::error::ScenarioErr;
use crate::members::{list, member, number, object_in, whole_number};
use crate::name::Name;
use pack_defs::items::Items;
use pack_defs::limits::{MOST_MOVES, MOST_PROOF_LINES, MOST_WORKERS};
use pack_defs::worker::{Kind, Worker};
use serde_json::Value;
use std::alloc::Global;

/// Reads the workers of the object. At least one must be of kind "cdcl".
#[tactic(auto, unfolding(crate::specs::ScenarioOf::workers_in))]
pub(crate) fn workers_in(alloc: Global, object: &Value) -> Result<Items<Worker>, ScenarioErr>
    ensures { ScenarioReads (workers_in (view object.now)) result }
{
    let items = list(object, Name::Workers, 1, MOST_WORKERS)?;
    let workers = workers_from(alloc, items)?;
    if !has_prover(workers.as_slice()) {
        return Err(ScenarioErr::NoProver);
    }
    Ok(workers)
}

fn workers_from(alloc: Global, items: &[Value]) -> Result<Items<Worker>, ScenarioErr>
    ensures { ScenarioReads (each_from worker_in 1 (map view items.now)) result }
{
    let mut workers = Vec::with_capacity(alloc, items.len())?;
    for (i, item) in items.iter().enumerate() {
        let worker = worker_in(item, i as u64 + 1)?;
        workers.push(worker)?;
    }
    Ok(Items::from_vec(workers))
}

fn has_prover(workers: &[Worker]) -> bool
    ensures { result ≡ list_any is_prover workers.now }
{
    workers.iter().any(is_prover)
}

// Whether the worker is of kind "cdcl", whose solver finds proofs.
fn is_prover(worker: &Worker) -> bool
    ensures { result ≡ is_prover worker.now }
{
    worker.kind == Kind::Cdcl
}

// Reads the worker that the item at this place is.
#[tactic(auto, unfolding(crate::specs::ScenarioOf::worker_in))]
fn worker_in(item: &Value, at: u64) -> Result<Worker, ScenarioErr>
    ensures { result ≡ worker_in at (view item.now) }
{
    let object = object_in(item, Name::Workers, at)?;
    let kind = kind_in(object, at)?;
    let budget = number(object, Name::Budget, at, 1, most_budget(kind))? as u32;
    let seed = seed_in(object, at)?;
    Ok(Worker { kind, budget, seed })
}

// Reads the kind of a worker.
fn kind_in(object: &Value, at: u64) -> Result<Kind, ScenarioErr>
    ensures { result ≡ kind_in at (view object.now) }
{
    let found = member(object, Name::Kind, at)?;
    let Some(text) = found.as_str() else {
        return Err(ScenarioErr::WrongKind {
            name: Name::Kind,
            at,
        });
    };
    let Some(kind) = kind_named(text) else {
        return Err(ScenarioErr::OutOfLimit {
            name: Name::Kind,
            at,
        });
    };
    Ok(kind)
}

// Returns the kind of this name.
fn kind_named(text: &str) -> Option<Kind>
    ensures { result ≡ kind_named text.now }
{
    match text {
        "cdcl" => Some(Kind::Cdcl),
        "walk" => Some(Kind::Walk),
        _ => None,
    }
}

// Returns the greatest budget for a query of a worker of this kind: proof lines or moves.
fn most_budget(kind: Kind) -> u64
    ensures value { result ≡ most_budget kind }
    ensures small { result ≤ MOST_MOVES }
{
    match kind {
        Kind::Cdcl => MOST_PROOF_LINES,
        Kind::Walk => MOST_MOVES,
    }
}

// Reads the seed of a worker, which is 0 if the member is absent.
fn seed_in(object: &Value, at: u64) -> Result<u64, ScenarioErr>
    ensures { result ≡ seed_in at (view object.now) }
{
    match object.get(Name::Seed.text()) {
        Some(seed) => whole_number(seed, Name::Seed, at),
        None => Ok(0),
    }
}
