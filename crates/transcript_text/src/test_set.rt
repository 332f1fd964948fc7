//! The stations that a test asks about, given which stations are on air.

ghost use Rattle.std.specs.Prelude.{◌≡◌, IfOk, IsTrue, length};
ghost use Rattle.pack_defs.specs.ClockRule.{ClockState};
ghost use Rattle.pack_defs.specs.Lists.{is_ascending, is_in};
ghost use Rattle.pack_defs.specs.Scenario.{StationsAscend, facilities};
ghost use Rattle.auction_core.specs.Clock.{AreStatuses};
ghost use Rattle.auction_core.specs.State.{tested_set};

use crate::on_air::OnAir;
use auction_core::clock::Clock;
use pack_defs::book::Book;
use pack_defs::scenario::Scenario;
use packing_graph::component::component_among;
use std::alloc::{AllocError as NoMemory, Global};

/// Returns the stations that a test of this station asks about, ascending: the station, and those that it reaches
/// among the stations on air. Each neighbour of a station reached costs a binary search in the stations on air. Fails
/// only if memory runs out.
pub fn test_set(
    alloc: Global,
    sc: &Scenario,
    book: &Book,
    clock: &Clock,
    station: u32,
) -> Result<Vec<u32>, NoMemory>
    requires ascend { StationsAscend sc.now }
    requires known { IsTrue (is_in (facilities sc.now) station) }
    requires stations { length clock.now.station_statuses ≡ length sc.now.stations }
    ensures set { IfOk result (λ set. (st : ClockState) → AreStatuses sc.now st clock.now.station_statuses → set.items ≡ tested_set sc.now book.now st station) }
    ensures ascends { IfOk result (λ set. IsTrue (is_ascending set.items)) }
{
    let on_air = OnAir {
        stations: sc.stations.as_slice(),
        station_statuses: clock.station_statuses(),
    };
    component_among(alloc, book, &on_air, station)
}
