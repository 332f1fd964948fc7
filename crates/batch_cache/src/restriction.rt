//! Restricts a channel map to a set of stations.

ghost use Rattle.std.specs.Prelude.{◌≡◌, IfOk, IfSome, IsTrue, Some, slice_get};
ghost use Rattle.pack_defs.specs.Lists.{has_entry, is_ascending};
ghost use Rattle.batch_cache.specs.Answering.{restrict_to};
ghost use Rattle.batch_cache.specs.Suggesting.{changes_on, is_change};

use crate::numbers::is_in_from_cursor;
use crate::signed_set::SignedSet;
use pack_defs::channel_map::ChannelMap;
use std::alloc::{AllocError as NoMemory, Global};

/// Returns the map restricted to an ascending set. Costs a walk along both. Fails only if memory runs out.
pub(crate) fn restrict_to(
    alloc: Global,
    set: &[u32],
    map: &ChannelMap,
) -> Result<ChannelMap, NoMemory>
    requires { IsTrue (is_ascending set.now) }
    ensures { IfOk result (λ part. part ≡ restrict_to set.now map.now) }
{
    let mut entries = Vec::new(alloc);
    let mut next = 0;
    for entry in map.entries() {
        if is_in_from_cursor(set, entry.0, &mut next) {
            entries.push(*entry)?;
        }
    }
    ChannelMap::of(alloc, &entries)
}

/// Returns the channels in which a map differs from the last map on the stations of a set. Costs one walk along the
/// map, the set and the last map. A station of the set that the map lacks, or of the last map that the set lacks, may
/// add a binary search. Fails only if memory runs out.
pub(crate) fn changes_on(
    alloc: Global,
    set: &SignedSet,
    last: &ChannelMap,
    map: &ChannelMap,
) -> Result<ChannelMap, NoMemory>
    ensures { IfOk result (λ changes. changes ≡ changes_on set.now last.now map.now) }
{
    let mut changes = Vec::new(alloc);
    let (mut next_station, mut next_entry) = (0, 0);
    for entry in map.entries() {
        if is_change(set, last, *entry, &mut next_station, &mut next_entry) {
            changes.push(*entry)?;
        }
    }
    ChannelMap::of(alloc, &changes)
}

// Whether the entry's station is in the set and the last map lacks the entry. The places are where to continue in the
// set and in the last map.
fn is_change(
    set: &SignedSet,
    last: &ChannelMap,
    entry: (u32, u8),
    next_station: &mut usize,
    next_entry: &mut usize,
) -> bool
    ensures { result ≡ is_change set.now last.now entry }
{
    if set.has_next(entry.0, next_station) {
        return !has_next_entry(last, entry, next_entry);
    }
    false
}

// Whether the map has the entry. Looks at the place first, and advances it if the entry's station is there; otherwise
// searches for the entry.
fn has_next_entry(map: &ChannelMap, entry: (u32, u8), next: &mut usize) -> bool
    ensures { result ≡ has_entry map.now entry }
{
    match channel_at(map.entries(), *next, entry.0) {
        Some(channel) => {
            *next = next.saturating_add(1);
            channel == entry.1
        }
        None => map.has(entry.0, entry.1),
    }
}

// Returns the station's channel, if the station is at the place.
fn channel_at(entries: &[(u32, u8)], place: usize, station: u32) -> Option<u8>
    ensures { IfSome result (λ channel. slice_get entries.now place ≡ Some (station, channel)) }
{
    match entries.get(place) {
        Some(there) if there.0 == station => Some(there.1),
        _ => None,
    }
}
