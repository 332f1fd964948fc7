//! The decrements, by which prices fall in a scenario of version 1.

ghost use Rattle.std.specs.Prelude.{◌≡◌, map, nat_le, sum};
ghost use Rattle.serde_json.specs.View.{view};
ghost use Rattle.scenario_json.specs.ScenarioOf.{decrement_in, decrements_in};
ghost use Rattle.scenario_json.specs.Steps.{ScenarioReads, each_from};

use crate::error::ScenarioErr;
use crate::members::{list, whole_number, within};
use crate::name::Name;
use pack_defs::items::Items;
use pack_defs::limits::{MOST_DECREMENT, MOST_ROUNDS};
use serde_json::Value;
use std::alloc::Global;

/// Reads the decrements of the object. Their sum is at most the opening price.
#[tactic(auto, unfolding(crate::specs::ScenarioOf::decrements_in))]
pub(crate) fn decrements_in(
    alloc: Global,
    object: &Value,
    opening: u32,
) -> Result<Items<u32>, ScenarioErr>
    ensures { ScenarioReads (decrements_in opening (view object.now)) result }
{
    let items = list(object, Name::Decrements, 0, MOST_ROUNDS)?;
    let decrements = decrements_from(alloc, items)?;
    if !are_within_opening(decrements.as_slice(), opening) {
        return Err(ScenarioErr::SumOverOpening);
    }
    Ok(decrements)
}

fn decrements_from(alloc: Global, items: &[Value]) -> Result<Items<u32>, ScenarioErr>
    ensures { ScenarioReads (each_from decrement_in 1 (map view items.now)) result }
{
    let mut decrements = Vec::with_capacity(alloc, items.len())?;
    for (i, item) in items.iter().enumerate() {
        let decrement = decrement_in(item, i as u64 + 1)?;
        decrements.push(decrement)?;
    }
    Ok(Items::from_vec(decrements))
}

// Returns the decrement that the item at this place is.
fn decrement_in(item: &Value, at: u64) -> Result<u32, ScenarioErr>
    ensures { result ≡ decrement_in at (view item.now) }
{
    let number = whole_number(item, Name::Decrements, at)?;
    Ok(within(number, Name::Decrements, at, 1, MOST_DECREMENT)? as u32)
}

// Whether the sum of the decrements is at most the opening price.
fn are_within_opening(decrements: &[u32], opening: u32) -> bool
    ensures { result ≡ nat_le (sum decrements.now) opening }
{
    let mut left = opening;
    for decrement in decrements {
        if left < *decrement {
            return false;
        }
        left -= *decrement;
    }
    true
}
