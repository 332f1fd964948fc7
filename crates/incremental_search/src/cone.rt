//! The cone of some lines: what they need of all that was learnt, traced backwards from them.

use crate::hint::Hint;
use crate::lines::KeptLines;
use search_base::checked_access::{filled, read, saturating_u32, write};
use search_base::grid::Grid;
use std::alloc::{AllocError as NoMemory, Global};
use std::ops::Range;

/// The lines that some lines need, ascending, with themselves; and the places of the stations whose clauses or channels these lines
/// name, ascending. The lists are reused from one query to the next.
#[derive(Drop)]
pub(crate) struct Cone {
    pub(crate) lines: Vec<u32>,
    pub(crate) places: Vec<u32>,
    // For each learnt line its rank among these, from 1; 0 if the line isn't needed.
    ranks: Vec<u32>,
}

impl Cone {
    /// Returns the empty cone.
    pub(crate) fn new(alloc: Global) -> Cone {
        Cone {
            lines: Vec::new(alloc),
            places: Vec::new(alloc),
            ranks: Vec::new(alloc),
        }
    }

    /// Returns the rank of a line among the needed lines, from 1; 0 if the line isn't needed.
    pub(crate) fn rank(&self, line: u32) -> u32 {
        read(&self.ranks, line, 0)
    }

    /// Gives a needed line another rank, such as its number among those of a log; 0 if the log lacks the line.
    pub(crate) fn set_rank(&mut self, line: u32, rank: u32) {
        write(&mut self.ranks, line, rank);
    }

    /// Gathers what the lines of these numbers need, in place of what was gathered before.
    pub(crate) fn gather(
        &mut self,
        alloc: Global,
        lines: &KeptLines,
        grid: &Grid,
        wanted: Range<u32>,
    ) -> Result<(), NoMemory> {
        self.clear();
        self.ranks.resize(lines.len() as usize, 0)?;
        for line in wanted {
            self.need(line)?;
        }
        let mut is_named = filled(alloc, grid.stations(), false)?;
        let mut hints = Vec::new(alloc);
        for at in 0..lines.len() {
            if at >= saturating_u32(self.lines.len()) {
                break;
            }
            lines.hints(read(&self.lines, at, 0), &mut hints)?;
            for hint in &hints {
                match *hint {
                    Hint::Pair { v, w } => {
                        write(&mut is_named, grid.owner(v), true);
                        write(&mut is_named, grid.owner(w), true);
                    }
                    Hint::Own(place) => write(&mut is_named, place, true),
                    Hint::Line(earlier) => self.need(earlier)?,
                }
            }
        }
        self.number_lines();
        self.list_places(&is_named)
    }

    fn clear(&mut self) {
        for line in &self.lines {
            write(&mut self.ranks, *line, 0);
        }
        self.lines.clear();
        self.places.clear();
    }

    // Adds a needed line. Its rank follows later.
    fn need(&mut self, line: u32) -> Result<(), NoMemory> {
        if read(&self.ranks, line, 1) == 0 {
            self.lines.push(line)?;
            write(&mut self.ranks, line, 1);
        }
        Ok(())
    }

    fn number_lines(&mut self) {
        self.lines.sort_unstable();
        for (i, line) in self.lines.iter().enumerate() {
            write(&mut self.ranks, *line, saturating_u32(i).saturating_add(1));
        }
    }

    fn list_places(&mut self, is_named: &[bool]) -> Result<(), NoMemory> {
        for place in 0..saturating_u32(is_named.len()) {
            if read(is_named, place, false) {
                self.places.push(place)?;
            }
        }
        Ok(())
    }
}
