//! The channel map of the stations on air, with one slot for each station of the auction, so that updates happen in place. `clock_run`
//! owns it; `component_labels` reads the slots when it builds a query.

ghost use Rattle.std.specs.Prelude.{◌≡◌, ◌<◌, ℕ, [], IfOk, IsTrue, List, MatchOption, false, get_or, length, map};
ghost use Rattle.pack_defs.specs.ChannelMap.{IsAscending, channel_of, overlaid, put};
ghost use Rattle.pack_defs.specs.Lists.{has_station, is_ascending, is_in};
ghost use Rattle.auction_core.specs.AirMap.{placed_entries};

use pack_defs::channel_map::ChannelMap;
use pack_defs::station::Station;
use std::alloc::{AllocError as NoMemory, Global};
use std::marker::Model;

/// A slot for the channel of each station of an auction, ascending by station. A station on air has a channel in its slot.
#[derive(Debug, Drop)]
pub struct AirMap {
    stations: Vec<u32>,
    channels: Vec<Option<u8>>,
}

impl Model for AirMap {
    ghost use Rattle.std.specs.Prelude.{◌≡◌, IsTrue, length};
    ghost use Rattle.pack_defs.specs.Lists.{is_ascending};
    ghost use Rattle.auction_core.specs.AirMap.{AirMapView, placed_entries};

    ghost Value = { AirMapView };

    ghost view = { λ m. record { stations = m.stations.items; entries = placed_entries m.stations.items m.channels.items } };

    ghost invariant = { λ m. IsTrue (is_ascending m.stations.items) × (length m.channels.items ≡ length m.stations.items) };
}

impl AirMap {
    /// Returns a map with a slot for each of these stations, none of them on air.
    ///
    /// # Errors
    ///
    /// Fails only if memory runs out.
    pub fn none(alloc: Global, stations: &[Station]) -> Result<AirMap, NoMemory>
        requires { IsTrue (is_ascending (map (λ x. x.id) stations.now)) }
        ensures { IfOk result (λ m. m ≡ record { stations = map (λ x. x.id) stations.now; entries = [] }) }
    {
        Ok(AirMap {
            stations: ids(alloc, stations)?,
            channels: no_channels(alloc, stations.len())?,
        })
    }

    /// Returns the channel of a station if it is on air. Binary search.
    pub fn channel(&self, station: u32) -> Option<u8>
        ensures { result ≡ channel_of station self.now.entries }
    {
        channel_at(&self.stations, &self.channels, station)
    }

    /// Overwrites the map with the entries of `delta`: each station of `delta` is on air on its channel there, and every other
    /// station keeps its own. Allocates nothing. Cost: a binary search for each entry of `delta`.
    pub fn overlay(&mut self, delta: &ChannelMap)
        requires { (s : ℕ) → IsTrue (has_station delta.now s) → IsTrue (is_in self.old.stations s) }
        ensures entries { self.new.entries ≡ overlaid self.old.entries delta.now }
        ensures stations { self.new.stations ≡ self.old.stations }
    {
        for entry in delta.entries() {
            self.put(entry.0, entry.1);
        }
    }

    // Puts the station on air on this channel.
    fn put(&mut self, station: u32, channel: u8)
        requires { IsTrue (is_in self.old.stations station) }
        ensures entries { self.new.entries ≡ put (station, channel) self.old.entries }
        ensures stations { self.new.stations ≡ self.old.stations }
    {
        let Some(place) = place_of(&self.stations, station) else {
            unreachable!()
        };
        self.channels[place] = Some(channel);
    }

    /// Returns the slot of each station, ascending by station.
    pub(crate) fn channels(&self) -> &[Option<u8>]
        ensures places { length result.now ≡ length self.now.stations }
        ensures entries { placed_entries self.now.stations result.now ≡ self.now.entries }
    {
        &self.channels
    }

    /// Returns the complete map, built in one pass over the slots.
    ///
    /// # Errors
    ///
    /// Fails only if memory runs out.
    pub fn whole(&self, alloc: Global) -> Result<ChannelMap, NoMemory>
        ensures { IfOk result (λ m. m ≡ self.now.entries) }
    {
        let entries = placed(alloc, &self.stations, &self.channels)?;
        ChannelMap::of(alloc, &entries)
    }
}

// Returns the facility numbers of the stations.
pub(crate) fn ids(alloc: Global, stations: &[Station]) -> Result<Vec<u32>, NoMemory>
    ensures { IfOk result (λ ids. ids.items ≡ map (λ x. x.id) stations.now) }
{
    let mut ids = Vec::with_capacity(alloc, stations.len())?;
    for station in stations {
        ids.push(station.id)?;
    }
    Ok(ids)
}

// Returns this many empty slots.
fn no_channels(alloc: Global, places: usize) -> Result<Vec<Option<u8>>, NoMemory>
    ensures { IfOk result (λ channels. (length channels.items ≡ places) × ((ss : List ℕ) → placed_entries ss channels.items ≡ [])) }
{
    let mut channels = Vec::with_capacity(alloc, places)?;
    for _ in 0..places {
        channels.push(None)?;
    }
    Ok(channels)
}

// Returns the place of a number in an ascending list, if it is there. Binary search.
pub(crate) fn place_of(stations: &[u32], station: u32) -> Option<usize>
    requires { IsTrue (is_ascending stations.now) }
    ensures { MatchOption result (is_in stations.now station ≡ false) (λ i. (i < length stations.now) × (get_or stations.now i 0 ≡ station)) }
{
    stations.binary_search(&station).ok()
}

// Returns the channel in a station's slot, if the station has a slot and it is not empty.
fn channel_at(stations: &[u32], channels: &[Option<u8>], station: u32) -> Option<u8>
    requires ascending { IsTrue (is_ascending stations.now) }
    requires places { length channels.now ≡ length stations.now }
    ensures { result ≡ channel_of station (placed_entries stations.now channels.now) }
{
    let Some(place) = place_of(stations, station) else {
        return None;
    };
    channels[place]
}

// Returns the entries of the stations that have a channel in their slot.
fn placed(
    alloc: Global,
    stations: &[u32],
    channels: &[Option<u8>],
) -> Result<Vec<(u32, u8)>, NoMemory>
    requires ascending { IsTrue (is_ascending stations.now) }
    requires places { length channels.now ≡ length stations.now }
    ensures { IfOk result (λ entries. (entries.items ≡ placed_entries stations.now channels.now) × IsAscending entries.items) }
{
    let mut entries = Vec::new(alloc);
    for (i, station) in stations.iter().enumerate() {
        let Some(channel) = channels[i] else {
            continue;
        };
        entries.push((*station, channel))?;
    }
    Ok(entries)
}
