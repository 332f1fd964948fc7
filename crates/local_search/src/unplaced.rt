//! The stations without a channel.

use search_base::checked_access::{filled, read, saturating_u32, write};
use std::alloc::{AllocError as NoMemory, Global};

/// A set of places of stations from which any one is drawn at once.
#[derive(Drop)]
pub(crate) struct Unplaced {
    places: Vec<u32>,
    // For each place where it stands in `places`.
    positions: Vec<u32>,
}

impl Unplaced {
    /// Returns the empty set, of places below this number.
    pub(crate) fn new(alloc: Global, stations: u32) -> Result<Unplaced, NoMemory> {
        Ok(Unplaced {
            places: Vec::new(alloc),
            positions: filled(alloc, stations, 0)?,
        })
    }

    /// Returns the number of places in the set.
    pub(crate) fn len(&self) -> u32 {
        saturating_u32(self.places.len())
    }

    /// Returns the place at a position below `len`.
    pub(crate) fn at(&self, position: u32) -> u32 {
        read(&self.places, position, 0)
    }

    /// Removes all places.
    pub(crate) fn clear(&mut self) {
        self.places.clear();
    }

    /// Adds a place that is not in the set.
    pub(crate) fn add(&mut self, place: u32) -> Result<(), NoMemory> {
        let position = self.len();
        self.places.push(place)?;
        write(&mut self.positions, place, position);
        Ok(())
    }

    /// Removes a place of the set. The last one takes its position.
    pub(crate) fn remove(&mut self, place: u32) {
        let Some(last) = self.places.pop() else {
            return;
        };
        if last != place {
            let position = read(&self.positions, place, u32::MAX);
            write(&mut self.places, position, last);
            write(&mut self.positions, last, position);
        }
    }
}
