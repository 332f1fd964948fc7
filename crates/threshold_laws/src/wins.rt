//! Whether a station would be bought with another value.

ghost use Rattle.std.specs.Prelude.{◌≡◌, IfOk};
ghost use Rattle.pack_defs.specs.Scenario.{StationsAscend, revalued, with_value};
ghost use Rattle.pack_defs.specs.Threshold.{wins};

use crate::rule::PlainRule;
use offer_sched::offers::schedule;
use pack_defs::book::Book;
use pack_defs::items::Items;
use pack_defs::order::Order;
use pack_defs::scenario::Scenario;
use pack_defs::station::Station;
use std::alloc::{AllocError as NoMemory, Global};

/// Checks whether the station would be bought with this value, in cents, in place of its own. Every test is decided, and the tests of a
/// round are in this order.
///
/// This is the allocation rule of Milgrom and Segal (2020) in one bidder's value; its greatest winning value up to the opening offer is
/// the threshold price. A station that the scenario lacks is never bought. In a live auction the value changes nothing. The call runs
/// the complete clock, with a plain search over all stations on air for each test.
///
/// # Errors
/// Fails only if memory runs out.
pub fn wins_at(
    alloc: Global,
    sc: &Scenario,
    book: &Book,
    station: u32,
    v: u64,
    order: Order,
) -> Result<bool, NoMemory>
    requires ascend { StationsAscend sc.now }
    ensures { IfOk result (λ won. won ≡ wins sc.now book.now order station v) }
{
    let sc = with_value(alloc, sc, station, v)?;
    let prices = schedule(alloc, &sc)?;
    let rule = PlainRule {
        sc: &sc,
        book,
        schedule: &prices,
    };
    let clock = rule.run(alloc, order)?;
    Ok(clock.is_frozen(station))
}

// Returns the scenario in which this station has this value, and everything else is unchanged.
fn with_value(alloc: Global, sc: &Scenario, station: u32, v: u64) -> Result<Scenario, NoMemory>
    ensures { IfOk result (λ new. new ≡ with_value sc.now station v) }
{
    let before = sc.stations.as_slice();
    let mut stations = Vec::with_capacity(alloc, before.len())?;
    for own in before {
        stations.push(revalued(own, station, v))?;
    }
    let mut new = sc.copy(alloc)?;
    new.stations = Items::from_vec(stations);
    Ok(new)
}

// Returns the station with this value if its facility number is `station`; otherwise unchanged.
fn revalued(before: &Station, station: u32, v: u64) -> Station
    ensures { result ≡ revalued station v before.now }
{
    if before.id == station {
        return Station {
            id: before.id,
            volume: before.volume,
            value: Some(v),
        };
    }
    *before
}
