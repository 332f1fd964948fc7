//! Restricts a channel map to the stations of a set.

ghost use Rattle.std.specs.Prelude.{◌≡◌, IfOk, IsTrue};
ghost use Rattle.pack_defs.specs.ChannelMap.{IsAscending};
ghost use Rattle.pack_defs.specs.Lists.{is_ascending};
ghost use Rattle.auction_core.specs.State.{restricted};
ghost use Rattle.undecided_tests.specs.StepReplay.{entries_of_stations};

use auction_core::air_map::AirMap;
use pack_defs::channel_map::ChannelMap;
use std::alloc::{AllocError as NoMemory, Global};

/// Returns the map on the stations of a set. Costs a binary search for each station. Fails only if memory runs out.
pub(crate) fn map_on(alloc: Global, map: &AirMap, set: &[u32]) -> Result<ChannelMap, NoMemory>
    requires rises { IsAscending map.now.entries }
    requires ascends { IsTrue (is_ascending set.now) }
    ensures { IfOk result (λ m. m ≡ restricted map.now.entries set.now) }
{
    let entries = entries_on(alloc, map, set)?;
    ChannelMap::of(alloc, &entries)
}

// Returns the entries of the set's stations that have a channel, in the set's order.
fn entries_on(alloc: Global, map: &AirMap, set: &[u32]) -> Result<Vec<(u32, u8)>, NoMemory>
    ensures { IfOk result (λ entries. entries.items ≡ entries_of_stations map.now.entries set.now) }
{
    let mut entries = Vec::with_capacity(alloc, set.len())?;
    for station in set {
        let Some(channel) = map.channel(*station) else {
            continue;
        };
        entries.push((*station, channel))?;
    }
    Ok(entries)
}
