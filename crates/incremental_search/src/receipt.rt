//! The receipt of a search that has spent its effort: as many lines as the effort, over the packing formula of the query's set.
//!
//! The lines are those that were learnt for the tested station, and what they need of earlier tests. Each line must be fresh: no clause
//! of the formula and no earlier line is a subset of it. The searcher drops lines from its stored clauses, and may learn them again, so
//! some of its lines are stale. A stale line is left out, and the lines that need it use the clause that is a subset of it.

use crate::cone::Cone;
use crate::engine::Engine;
use crate::hint::Hint;
use crate::hint_repair::HintRepair;
use crate::lines::KeptLines;
use crate::literal::Literal;
use crate::numbering::{LineParts, Numbering};
use crate::subclause_index::SubclauseIndex;
use rup_check::line::Log;
use rup_check::lines::Lines;
use search_base::checked_access::{read, saturating_u32, write};
use search_base::grid::Grid;
use std::alloc::{AllocError as NoMemory, Global};

/// A line that is not fresh, and a clause that is a subset of it.
#[derive(Clone, Copy)]
struct StaleLine {
    line: u32,
    subclause: Hint,
}

/// A receipt in the making.
#[derive(Drop)]
struct ReceiptDraft {
    numbering: Numbering,
    index: SubclauseIndex,
    repair: HintRepair,
    // The stale lines so far, ascending.
    stale: Vec<StaleLine>,
    parts: LineParts,
    lines: Lines,
}

impl Engine {
    /// Returns a receipt of this many lines. `None` if the test of the tested station has too few fresh ones.
    pub(crate) fn receipt(&mut self, alloc: Global, count: u32) -> Result<Option<Log>, NoMemory> {
        self.gather_test(alloc)?;
        let mut draft = self.begin_receipt(alloc)?;
        for i in 0..saturating_u32(self.cone.lines.len()) {
            if draft.lines.len() >= count as usize {
                break;
            }
            let line = read(&self.cone.lines, i, 0);
            draft.add(&self.grid, &self.lines, &mut self.cone, line)?;
        }
        Ok(draft.into_log(count))
    }

    // Returns the receipt without a line, in which the clauses of the set's stations are filed.
    fn begin_receipt(&self, alloc: Global) -> Result<ReceiptDraft, NoMemory> {
        let mut places = Vec::from_slice(alloc, &self.set)?;
        places.sort_unstable();
        let mut draft = ReceiptDraft {
            numbering: Numbering::of(alloc, &self.grid, &places)?,
            index: SubclauseIndex::new(alloc, &self.grid, &self.lines, &self.cone.lines)?,
            repair: HintRepair::new(alloc, &self.grid)?,
            stale: Vec::new(alloc),
            parts: LineParts::none(alloc),
            lines: Lines::new(alloc),
        };
        for place in &places {
            draft.file_own_clause(&self.grid, *place)?;
        }
        Ok(draft)
    }
}

impl ReceiptDraft {
    // Files the clause of the station at a place.
    fn file_own_clause(&mut self, grid: &Grid, place: u32) -> Result<(), NoMemory> {
        self.parts.literals.clear();
        for var in grid.vars_of(place) {
            self.parts.literals.push(Literal::of(var))?;
        }
        self.index.file(Hint::Own(place), &self.parts.literals)
    }

    // Adds the next line of the cone, unless it is stale.
    fn add(
        &mut self,
        grid: &Grid,
        lines: &KeptLines,
        cone: &mut Cone,
        line: u32,
    ) -> Result<(), NoMemory> {
        self.parts.read(lines, grid, line)?;
        match self.index.subclause_of(grid, lines, &self.parts.literals) {
            None => self.add_fresh(grid, lines, cone, line),
            Some(subclause) => {
                cone.set_rank(line, 0);
                self.stale.push(StaleLine { line, subclause })?;
                Ok(())
            }
        }
    }

    fn add_fresh(
        &mut self,
        grid: &Grid,
        lines: &KeptLines,
        cone: &mut Cone,
        line: u32,
    ) -> Result<(), NoMemory> {
        if self.replace_stale_hints(cone) {
            self.repair.repair(grid, lines, &mut self.parts)?;
        }
        self.parts
            .add_to(&self.numbering, grid, cone, &mut self.lines)?;
        cone.set_rank(line, saturating_u32(self.lines.len()));
        self.index.file(Hint::Line(line), &self.parts.literals)
    }

    // Replaces each hint that is a stale line, and returns whether there is one.
    fn replace_stale_hints(&mut self, cone: &Cone) -> bool {
        let mut has_stale = false;
        for i in 0..saturating_u32(self.parts.hints.len()) {
            if let Hint::Line(line) = read(&self.parts.hints, i, Hint::Own(0)) {
                if cone.rank(line) == 0 {
                    let subclause = self.subclause_of_stale(line);
                    write(&mut self.parts.hints, i, subclause);
                    has_stale = true;
                }
            }
        }
        has_stale
    }

    // Returns the clause that is a subset of a stale line.
    fn subclause_of_stale(&self, line: u32) -> Hint {
        match self.stale.binary_search_by_key(&line, |stale| stale.line) {
            Ok(place) => self.stale[place].subclause,
            Err(_) => Hint::Line(line),
        }
    }

    // Returns the lines, if they are as many as this.
    fn into_log(self, count: u32) -> Option<Log> {
        if self.lines.len() != count as usize {
            return None;
        }
        Some(Log { lines: self.lines })
    }
}
