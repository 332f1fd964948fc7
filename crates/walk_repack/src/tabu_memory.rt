//! Which channels are closed to a station for some moves: the walk's tabu list.

use std::alloc::{AllocError as NoMemory, Global};

/// A short memory of moves: a channel that a station has left is closed to the station for some moves. No answer depends on this memory
/// for its correctness.
#[derive(Drop)]
pub(crate) struct TabuMemory {
    // For each cell, the move up to which the cell is closed.
    closed: Vec<u32>,
    now: u32,
}

impl TabuMemory {
    /// Returns the memory of no move, over this many cells, none of which is closed.
    pub(crate) fn new(alloc: Global, cells: usize) -> Result<TabuMemory, NoMemory> {
        let mut closed = Vec::new(alloc);
        closed.resize(cells, 0)?;
        Ok(TabuMemory { closed, now: 0 })
    }

    /// Checks whether a cell is closed to the next move.
    pub(crate) fn is_closed(&self, cell: usize) -> bool {
        cell < self.closed.len() && self.closed[cell] > self.now
    }

    /// Counts a move, and closes the cell that the move left for this many moves.
    pub(crate) fn leave(&mut self, cell: usize, moves: u32) {
        self.now = self.now.saturating_add(1);
        if cell < self.closed.len() {
            self.closed[cell] = self.now.saturating_add(moves);
        }
    }
}
