//! A channel map: which stations are on air, and on which channels.

ghost use Rattle.std.specs.Prelude.{◌≡◌, ◌<◌, ◌^◌, IfOk, length};
ghost use Rattle.pack_defs.specs.ChannelMap.{IsAscending, channel_of, overlaid};
ghost use Rattle.pack_defs.specs.Lists.{has_entry};

use std::alloc::{AllocError as NoMemory, Global};
use std::marker::Model;

/// A channel for each of some stations, ascending by facility.
#[derive(Debug, Drop)]
pub struct ChannelMap {
    entries: Vec<(u32, u8)>,
}

impl Model for ChannelMap {
    ghost use Rattle.std.specs.Prelude.{List, ℕ, length, ◌<◌, ◌^◌};
    ghost use Rattle.pack_defs.specs.ChannelMap.{IsAscending};

    ghost Value = { List (ℕ × ℕ) };

    ghost view = { λ m. m.entries.items };

    ghost invariant = { λ m. IsAscending m.entries.items × (length m.entries.items < 2 ^ 32) };
}

impl ChannelMap {
    /// Returns the map of these entries, each a station and its channel.
    ///
    /// # Errors
    /// Fails only if memory runs out; 2^32 entries count as out of memory.
    pub fn of(alloc: Global, entries: &[(u32, u8)]) -> Result<ChannelMap, NoMemory>
        requires { IsAscending entries.now }
        ensures { IfOk result (λ m. m ≡ entries.now) }
    {
        if entries.len() > u32::MAX as usize {
            return Err(NoMemory);
        }
        Ok(ChannelMap {
            entries: Vec::from_slice(alloc, entries)?,
        })
    }

    /// Returns the channel of a station, if the map has one. Costs one binary search.
    pub fn get(&self, f: u32) -> Option<u8>
        ensures { result ≡ channel_of f self.now }
    {
        match self.entries.binary_search_by_key(&f, |x| x.0) {
            Ok(i) => Some(self.entries[i].1),
            Err(_) => None,
        }
    }

    /// Checks whether the map has this entry: the station, on this channel. Costs one binary search.
    pub fn has(&self, station: u32, channel: u8) -> bool
        ensures { result ≡ has_entry self.now (station, channel) }
    {
        self.keeps_order();
        self.get(station) == Some(channel)
    }

    /// Returns the number of stations.
    pub fn len(&self) -> u32
        ensures count { result ≡ length self.now }
    {
        self.entries.len() as u32
    }

    /// Proves that each map ascends; does nothing when run.
    pub fn keeps_order(&self)
        ensures { IsAscending self.now }
    {
        let _entries = &self.entries;
    }

    /// Returns the entries, each a station and its channel, ascending by facility.
    pub fn entries(&self) -> &[(u32, u8)]
        ensures entries { result.now ≡ self.now }
        ensures ascending { IsAscending self.now }
    {
        &self.entries
    }

    /// Returns this map overwritten by the entries of `delta`: each station of `delta` has its channel there, every other station its
    /// own. Makes one pass over both maps.
    ///
    /// # Errors
    /// Fails only if memory runs out; 2^32 entries count as out of memory.
    pub fn overlay(&self, alloc: Global, delta: &ChannelMap) -> Result<ChannelMap, NoMemory>
        ensures { IfOk result (λ m. m ≡ overlaid self.now delta.now) }
    {
        let entries = merged(alloc, &self.entries, &delta.entries)?;
        if entries.len() > u32::MAX as usize {
            return Err(NoMemory);
        }
        Ok(ChannelMap { entries })
    }
}

// Merges two ascending lists. If both have an entry of a station, the entry of `over` stays.
fn merged(
    alloc: Global,
    under: &[(u32, u8)],
    over: &[(u32, u8)],
) -> Result<Vec<(u32, u8)>, NoMemory>
    requires { IsAscending over.now }
    ensures { IfOk result (λ entries. entries.items ≡ overlaid under.now over.now) }
{
    let mut entries = Vec::new(alloc);
    let mut i = 0;
    let mut j = 0;
    while i < under.len() && j < over.len() {
        if under[i].0 < over[j].0 {
            entries.push(under[i])?;
            i += 1;
        } else {
            if under[i].0 == over[j].0 {
                i += 1;
            }
            entries.push(over[j])?;
            j += 1;
        }
    }
    entries.extend_from_slice(&under[i..])?;
    entries.extend_from_slice(&over[j..])?;
    Ok(entries)
}
