//! The policy of the walk: which violated pair to pick, which of its stations to move, and to which channel.

use crate::chance::Chance;
use crate::pick::Pick;
use crate::policy::{LEAST_TABU_MOVES, TABU_MOVES_SPREAD, TABU_PENALTY};
use crate::tables::Tables;
use crate::tabu_memory::TabuMemory;
use pack_defs::book::Book;
use std::alloc::{AllocError as NoMemory, Global};

/// The guide picks a violated pair, one of its stations, and the station's next channel. The walk checks each choice before use, so no
/// answer depends on the guide for its correctness.
#[derive(Drop)]
pub(crate) struct Guide<'a> {
    tables: Tables<'a>,
    tabu_memory: TabuMemory,
    chance: Chance,
}

impl<'a> Guide<'a> {
    /// Returns the guide of a walk from a map, with the random choices of a seed in this stream.
    pub(crate) fn new(
        alloc: Global,
        book: &'a Book,
        entries: &[(u32, u8)],
        seed: u64,
        stream: u64,
    ) -> Result<Guide<'a>, NoMemory> {
        let tables = Tables::new(alloc, book, entries)?;
        let tabu_memory = TabuMemory::new(alloc, tables.cells())?;
        Ok(Guide {
            tables,
            tabu_memory,
            chance: Chance::new(seed, stream),
        })
    }

    /// Picks a station of a violated pair and one of its violated pairs, both at random; none if no pair is violated.
    pub(crate) fn pair(&mut self) -> Option<Pick> {
        if self.tables.troubled() == 0 {
            return None;
        }
        let n = self.chance.below(self.tables.troubled());
        let (station, channel) = self.tables.violating_at(n);
        let count = self.tables.count(self.tables.cell(station, channel));
        let skip = self.chance.below(count);
        self.tables.violated(station, channel, skip)
    }

    /// Returns true or false at random.
    pub(crate) fn coin(&mut self) -> bool {
        self.chance.coin()
    }

    /// Returns the place in a station's domain of the channel to move to. Candidates are the channels that are neither its own nor
    /// closed to it, or all except its own if each is closed. Among them the guide picks one with the fewest violations, at random
    /// among several.
    pub(crate) fn channel(&mut self, domain: &[u8], station: u32, own: u8) -> usize {
        let mut best = u32::MAX;
        let mut at = 0;
        let mut ties: u32 = 0;
        for (i, channel) in domain.iter().enumerate() {
            if *channel == own {
                continue;
            }
            let cost = self.cost(station, *channel);
            if cost < best {
                best = cost;
                at = i;
                ties = 1;
            } else if cost == best {
                ties = ties.saturating_add(1);
                if self.chance.below(ties) == 0 {
                    at = i;
                }
            }
        }
        at
    }

    /// Records a move, and closes the channel that the station leaves.
    pub(crate) fn note(&mut self, station: u32, from: u8, to: u8) {
        self.tables.shift(station, from, to);
        let moves = self
            .chance
            .below(TABU_MOVES_SPREAD)
            .saturating_add(LEAST_TABU_MOVES);
        self.tabu_memory
            .leave(self.tables.cell(station, from), moves);
    }

    // Returns the number of pairs that a station would violate on a channel, plus a penalty if the channel is closed to the station.
    fn cost(&self, station: u32, channel: u8) -> u32 {
        let cell = self.tables.cell(station, channel);
        let count = self.tables.count(cell);
        if self.tabu_memory.is_closed(cell) {
            count.saturating_add(TABU_PENALTY)
        } else {
            count
        }
    }
}
