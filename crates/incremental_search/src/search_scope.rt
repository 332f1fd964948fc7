//! The state of each station, which stations a query has in play, and which variable is decided next.

use crate::policy::VARIABLE_DECAY;
use local_search::local_search::NOWHERE;
use search_base::checked_access::{filled, read, write};
use search_base::order::ActivityOrder;
use std::alloc::{AllocError as NoMemory, Global};

/// The place of no station.
pub(crate) const NOBODY: u32 = u32::MAX;

/// The state of a station.
#[derive(Clone, Copy)]
pub(crate) struct StationState {
    /// The station is on air or tested.
    pub(crate) in_set: bool,
    pub(crate) on_air: bool,
    /// Its own clause is stored.
    pub(crate) has_clause: bool,
    /// Its variables are decided: the station is tested, its last channel became false in this query, or the search brought it in.
    pub(crate) in_play: bool,
    /// The variable of its last channel.
    pub(crate) channel: u32,
}

const OFF_AIR: StationState = StationState {
    in_set: false,
    on_air: false,
    has_clause: false,
    in_play: false,
    channel: NOWHERE,
};

/// The states of the stations, and the order of decisions among those in play.
#[derive(Drop)]
pub(crate) struct SearchScope {
    station_states: Vec<StationState>,
    pub(crate) order: ActivityOrder,
    // The places of the stations in play.
    played: Vec<u32>,
}

impl SearchScope {
    /// Returns the state in which none of this many stations is on air, and no conflict has met a variable.
    pub(crate) fn new(alloc: Global, stations: u32, vars: u32) -> Result<SearchScope, NoMemory> {
        Ok(SearchScope {
            station_states: filled(alloc, stations, OFF_AIR)?,
            order: ActivityOrder::new(alloc, vars, VARIABLE_DECAY)?,
            played: Vec::new(alloc),
        })
    }

    /// Returns the state of the station at a place.
    pub(crate) fn station_state(&self, place: u32) -> StationState {
        read(&self.station_states, place, OFF_AIR)
    }

    /// Sets the state of the station at a place.
    pub(crate) fn set(&mut self, place: u32, standing: StationState) {
        write(&mut self.station_states, place, standing);
    }

    /// Checks whether the station at a place is on air or tested.
    pub(crate) fn is_in_set(&self, place: u32) -> bool {
        self.station_state(place).in_set
    }

    /// Brings the station at a place into play, if it is not.
    pub(crate) fn bring_in(&mut self, place: u32) -> Result<(), NoMemory> {
        let mut standing = self.station_state(place);
        if standing.in_play {
            return Ok(());
        }
        standing.in_play = true;
        self.set(place, standing);
        self.played.push(place)?;
        Ok(())
    }

    /// Takes all stations out of play, and all variables out of the order.
    pub(crate) fn clear(&mut self) {
        self.order.clear();
        for _ in 0..self.played.len() {
            let Some(place) = self.played.pop() else {
                return;
            };
            let mut standing = self.station_state(place);
            standing.in_play = false;
            self.set(place, standing);
        }
    }
}
