//! The local search.

use crate::policy::{FEWEST_MOVES_AWAY, MOST_MORE_MOVES, MOST_WEIGHT, WEIGHT_DIVISOR};
use crate::unplaced::Unplaced;
use rand_core::utils::NextWord;
use rand_pcg::Lcg64Xsh32;
use search_base::checked_access::{filled, read, saturating_u32, write};
use search_base::grid::Grid;
use std::alloc::{AllocError as NoMemory, Global};

/// The variable of a station without a channel.
pub const NOWHERE: u32 = u32::MAX;

// The stream of random numbers, so that other searches with the same seed draw other ones.
const STREAM: u64 = 1;

/// A station's place in the book, and the variable of its channel.
#[derive(Clone, Copy, Debug, PartialEq, Eq)]
pub struct Placement {
    pub place: u32,
    pub var: u32,
}

// What is known of a station.
#[derive(Clone, Copy)]
struct StationState {
    // The variable of its channel, now and before the search.
    var: u32,
    before: u32,
    // How much it counts when it is in another station's way.
    weight: u32,
    is_touched: bool,
}

const NEW_STATION: StationState = StationState {
    var: NOWHERE,
    before: NOWHERE,
    weight: 1,
    is_touched: false,
};

/// A local search over the stations of a book. It holds a map of the stations on air, which a search leaves as it was. What it learns
/// stays: how often stations were in others' way.
#[derive(Drop)]
pub struct LocalSearch {
    stations: Vec<StationState>,
    // For each variable the weight of the stations in its way.
    blocked: Vec<u32>,
    // For each variable the first move in which its station may return to it.
    returns: Vec<u64>,
    unplaced: Unplaced,
    // The places of the stations that the search touched.
    touched: Vec<u32>,
    changes: Vec<Placement>,
    moves: u64,
    chance: Lcg64Xsh32,
}

impl LocalSearch {
    /// Returns a search over a book's stations, none of which has a channel. The seed decides its random choices.
    ///
    /// # Errors
    /// Fails only if memory runs out.
    pub fn new(alloc: Global, grid: &Grid, seed: u64) -> Result<LocalSearch, NoMemory> {
        Ok(LocalSearch {
            stations: filled(alloc, grid.stations(), NEW_STATION)?,
            blocked: filled(alloc, grid.vars(), 0)?,
            returns: filled(alloc, grid.vars(), 0)?,
            unplaced: Unplaced::new(alloc, grid.stations())?,
            touched: Vec::new(alloc),
            changes: Vec::new(alloc),
            moves: 0,
            chance: Lcg64Xsh32::new(seed, STREAM),
        })
    }

    /// Changes the map: the station at a place is on the channel of this variable, or on none.
    pub fn set_channel(&mut self, grid: &Grid, place: u32, var: u32) {
        if self.station(place).var != var {
            self.lift(grid, place);
            self.put(grid, place, var);
        }
    }

    /// Looks for a clean map of the stations on air and the one at `tested`, in at most this many moves. The search begins from the map
    /// with the placements `from`, those of them that are free. Returns whether it found one, which `changes` then has.
    ///
    /// # Errors
    /// Fails only if memory runs out. Then later searches may find less.
    pub fn find(
        &mut self,
        grid: &Grid,
        tested: u32,
        from: &[Placement],
        moves: u32,
    ) -> Result<bool, NoMemory> {
        self.unplaced.clear();
        self.touched.clear();
        self.touch(tested)?;
        self.unplaced.add(tested)?;
        self.begin_from(grid, tested, from)?;
        for _ in 0..moves {
            if self.unplaced.len() == 0 {
                break;
            }
            self.make_move(grid)?;
        }
        self.list_changes()?;
        self.restore(grid);
        Ok(self.unplaced.len() == 0)
    }

    /// Returns the placements that the last search found: of the tested station, and of those that have another channel than before.
    pub fn changes(&self) -> &[Placement] {
        &self.changes
    }

    // Moves the stations of these placements there, if nobody is in the way.
    fn begin_from(&mut self, grid: &Grid, tested: u32, from: &[Placement]) -> Result<(), NoMemory> {
        for it in from {
            if it.place != tested {
                self.touch(it.place)?;
                self.lift(grid, it.place);
                self.unplaced.add(it.place)?;
            }
        }
        for it in from {
            let is_free = read(&self.blocked, it.var, 1) == 0;
            if is_free && self.station(it.place).var == NOWHERE {
                self.unplaced.remove(it.place);
                self.put(grid, it.place, it.var);
            }
        }
        Ok(())
    }

    // Puts a station without a channel, any one, on a channel. Those in its way there lose theirs.
    fn make_move(&mut self, grid: &Grid) -> Result<(), NoMemory> {
        self.moves = self.moves.saturating_add(1);
        let count = self.unplaced.len();
        let position = self.below(count);
        let place = self.unplaced.at(position);
        let var = self.choose(grid, place);
        self.unplaced.remove(place);
        if read(&self.blocked, var, 0) > 0 {
            self.evict(grid, var)?;
        }
        self.put(grid, place, var);
        Ok(())
    }

    // Returns the variable of a station where those in its way weigh least, any one of several. Variables to which the station may not
    // return yet count only if nobody is in the way, or if there is no other.
    fn choose(&mut self, grid: &Grid, place: u32) -> u32 {
        let vars = grid.vars_of(place);
        let count = vars.end.saturating_sub(vars.start);
        let first = vars.start;
        let (mut best, mut least, mut ties): (u32, u32, u32) = (NOWHERE, u32::MAX, 0);
        for var in vars {
            let weight = read(&self.blocked, var, u32::MAX);
            if weight > 0 && read(&self.returns, var, 0) > self.moves {
                continue;
            }
            if weight < least {
                (best, least, ties) = (var, weight, 1);
            } else if weight == least {
                ties = ties.saturating_add(1);
                if self.below(ties) == 0 {
                    best = var;
                }
            }
        }
        if best == NOWHERE {
            return first.saturating_add(self.below(count));
        }
        best
    }

    // Takes the channels of the stations that are in the way of a variable.
    fn evict(&mut self, grid: &Grid, var: u32) -> Result<(), NoMemory> {
        for rival in grid.rival_list(var) {
            let place = grid.owner(*rival);
            if self.station(place).var != *rival {
                continue;
            }
            self.touch(place)?;
            self.lift(grid, place);
            self.make_heavier(place);
            let more = self.below(MOST_MORE_MOVES) as u64;
            let returns = self
                .moves
                .saturating_add(FEWEST_MOVES_AWAY)
                .saturating_add(more);
            write(&mut self.returns, *rival, returns);
            self.unplaced.add(place)?;
        }
        Ok(())
    }

    fn make_heavier(&mut self, place: u32) {
        let mut station = self.station(place);
        station.weight = station.weight.saturating_add(1);
        write(&mut self.stations, place, station);
    }

    // Notes the channel that a station had before the search.
    fn touch(&mut self, place: u32) -> Result<(), NoMemory> {
        let mut station = self.station(place);
        if !station.is_touched {
            station.is_touched = true;
            station.before = station.var;
            write(&mut self.stations, place, station);
            self.touched.push(place)?;
        }
        Ok(())
    }

    // Lists the touched stations that have another channel than before.
    fn list_changes(&mut self) -> Result<(), NoMemory> {
        self.changes.clear();
        for place in &self.touched {
            let station = read(&self.stations, *place, NEW_STATION);
            if station.var != station.before {
                self.changes.push(Placement {
                    place: *place,
                    var: station.var,
                })?;
            }
        }
        Ok(())
    }

    // Gives each touched station the channel back that it had before the search.
    fn restore(&mut self, grid: &Grid) {
        let mut most: u32 = 0;
        for i in 0..saturating_u32(self.touched.len()) {
            let place = read(&self.touched, i, 0);
            let station = self.station(place);
            most = most.max(station.weight);
            self.set_channel(grid, place, station.before);
            let mut station = self.station(place);
            station.is_touched = false;
            write(&mut self.stations, place, station);
        }
        if most > MOST_WEIGHT {
            self.make_lighter(grid);
        }
    }

    // Divides all weights.
    fn make_lighter(&mut self, grid: &Grid) {
        for place in 0..saturating_u32(self.stations.len()) {
            let var = self.station(place).var;
            self.lift(grid, place);
            let mut station = self.station(place);
            station.weight = (station.weight / WEIGHT_DIVISOR).saturating_add(1);
            write(&mut self.stations, place, station);
            self.put(grid, place, var);
        }
    }

    fn station(&self, place: u32) -> StationState {
        read(&self.stations, place, NEW_STATION)
    }

    // Puts a station without a channel on the channel of a variable.
    fn put(&mut self, grid: &Grid, place: u32, var: u32) {
        let mut station = self.station(place);
        station.var = var;
        write(&mut self.stations, place, station);
        for rival in grid.rival_list(var) {
            let weight = read(&self.blocked, *rival, 0);
            write(
                &mut self.blocked,
                *rival,
                weight.wrapping_add(station.weight),
            );
        }
    }

    // Takes a station's channel.
    fn lift(&mut self, grid: &Grid, place: u32) {
        let mut station = self.station(place);
        for rival in grid.rival_list(station.var) {
            let weight = read(&self.blocked, *rival, 0);
            write(
                &mut self.blocked,
                *rival,
                weight.wrapping_sub(station.weight),
            );
        }
        station.var = NOWHERE;
        write(&mut self.stations, place, station);
    }

    // Returns a random number below `count`, or 0 if `count` is 0.
    fn below(&mut self, count: u32) -> u32 {
        let word = self.chance.next_word();
        if count == 0 {
            return 0;
        }
        word % count
    }
}
