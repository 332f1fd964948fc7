//! The stations of violated pairs, for the walk's policy.

use std::alloc::{AllocError as NoMemory, Global};

/// The places of the stations of violated pairs, as a sparse set. Inserting, removing and looking up a place take constant time, and so
/// does reading the n-th place. No answer depends on this set for its correctness.
#[derive(Drop)]
pub(crate) struct ViolatingStations {
    // The first `count` places are in the set.
    places: Vec<u32>,
    count: usize,
    // For each place, its index among these, if it is in the set.
    index: Vec<u32>,
}

impl ViolatingStations {
    /// Returns the empty set, over this many places.
    pub(crate) fn new(alloc: Global, places: usize) -> Result<ViolatingStations, NoMemory> {
        let mut violating_stations = ViolatingStations {
            places: Vec::new(alloc),
            count: 0,
            index: Vec::new(alloc),
        };
        violating_stations.places.resize(places, 0)?;
        violating_stations.index.resize(places, 0)?;
        Ok(violating_stations)
    }

    /// Returns the number of places in the set.
    pub(crate) fn len(&self) -> u32 {
        self.count.min(u32::MAX as usize) as u32
    }

    /// Returns the n-th place of the set, from 0; past the last, the number of all places.
    pub(crate) fn get(&self, n: u32) -> usize {
        if n < self.len() {
            read(&self.places, n as usize)
        } else {
            self.places.len()
        }
    }

    /// Inserts or removes a place.
    pub(crate) fn set(&mut self, place: usize, is_in: bool) {
        if self.has(place) == is_in {
            return;
        }
        if is_in {
            self.insert(place);
        } else {
            self.remove(place);
        }
    }

    fn has(&self, place: usize) -> bool {
        let at = read(&self.index, place);
        at < self.count && read(&self.places, at) == place
    }

    fn insert(&mut self, place: usize) {
        write(&mut self.places, self.count, place);
        write(&mut self.index, place, self.count);
        self.count = self.count.saturating_add(1);
    }

    // Removes a place, and moves the last place to its index.
    fn remove(&mut self, place: usize) {
        self.count = self.count.saturating_sub(1);
        let at = read(&self.index, place);
        let last = read(&self.places, self.count);
        write(&mut self.places, at, last);
        write(&mut self.index, last, at);
    }
}

// Returns the number at a place, or 0 past the end.
fn read(numbers: &[u32], at: usize) -> usize {
    if at < numbers.len() {
        numbers[at] as usize
    } else {
        0
    }
}

// Writes a number to a place, unless the place is past the end.
fn write(numbers: &mut [u32], at: usize, number: usize) {
    if at < numbers.len() {
        numbers[at] = number.min(u32::MAX as usize) as u32;
    }
}
