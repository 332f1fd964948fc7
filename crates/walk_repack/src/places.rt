//! The place of each station in a set, by a hash table with one slot for most stations.

use crate::policy::{LEAST_SLOTS, SLOT_DOUBLINGS, SLOTS_OF_STATION};
use std::alloc::{AllocError as NoMemory, Global};

// The content of an empty slot.
const FREE: u32 = u32::MAX;

/// The place of each station in an ascending set. A station with a slot of its own is found at once, any other by binary search. No
/// answer depends on these places for its correctness.
#[derive(Drop)]
pub(crate) struct Places {
    set: Vec<u32>,
    // For each slot, the place of the last station whose number ends in the slot.
    slots: Vec<u32>,
}

impl Places {
    /// Returns the places of a set, with at least four slots for each station.
    pub(crate) fn new(alloc: Global, entries: &[(u32, u8)]) -> Result<Places, NoMemory> {
        let mut set = Vec::with_capacity(alloc, entries.len())?;
        let mut slots = Vec::new(alloc);
        slots.resize(slots_for(entries.len()), FREE)?;
        for (i, x) in entries.iter().enumerate() {
            let slot = slot_of(&slots, x.0);
            write(&mut slots, slot, (i % FREE as usize) as u32);
            set.push(x.0)?;
        }
        Ok(Places { set, slots })
    }

    /// Returns the place of a station, if the set has the station.
    pub(crate) fn place(&self, station: u32) -> Option<usize> {
        let slot = slot_of(&self.slots, station);
        if slot >= self.slots.len() || self.slots[slot] == FREE {
            return None;
        }
        let place = self.slots[slot] as usize;
        if place < self.set.len() && self.set[place] == station {
            return Some(place);
        }
        self.set.binary_search(&station).ok()
    }

    /// Returns the station at a place, or 0 past the end.
    pub(crate) fn station(&self, place: usize) -> u32 {
        if place < self.set.len() {
            self.set[place]
        } else {
            0
        }
    }
}

// Returns the number of slots for this many stations, a power of two.
fn slots_for(stations: usize) -> usize {
    let mut slots = LEAST_SLOTS;
    for _ in 0..SLOT_DOUBLINGS {
        if slots / SLOTS_OF_STATION >= stations {
            break;
        }
        slots = slots.saturating_mul(2);
    }
    slots
}

// Returns the slot of a station.
fn slot_of(slots: &[u32], station: u32) -> usize {
    if slots.is_empty() {
        return 0;
    }
    station as usize & (slots.len() - 1)
}

fn write(slots: &mut [u32], slot: usize, place: u32) {
    if slot < slots.len() {
        slots[slot] = place;
    }
}
