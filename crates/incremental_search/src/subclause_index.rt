//! An index of clauses. For a line, it finds a clause that is a subset of the line's literals.
//!
//! Each clause is filed under the literal that lines have least often, so a line visits few clauses: those filed under its own literals.

use crate::hint::Hint;
use crate::lines::KeptLines;
use crate::literal::Literal;
use search_base::checked_access::{filled, read, saturating_u32, write};
use search_base::grid::Grid;
use std::alloc::{AllocError as NoMemory, Global};

// The place of no clause.
const NO_CLAUSE: u32 = u32::MAX;

/// A clause as it is filed.
#[derive(Clone, Copy)]
struct FiledClause {
    name: Hint,
    // A bit for each literal, which other literals may share. So a clause with a bit that a line lacks is no subset of the line.
    signature: u64,
    // The place of the clause that was filed under the same literal before.
    before: u32,
}

/// The index.
#[derive(Drop)]
pub(crate) struct SubclauseIndex {
    clauses: Vec<FiledClause>,
    // For each literal of a channel: how many lines have it, the place of the clause filed under it last, and whether the line of the
    // current search has it.
    uses: Vec<u32>,
    latest: Vec<u32>,
    is_marked: Vec<bool>,
}

impl SubclauseIndex {
    /// Returns the index of no clause, for searches with the lines of these numbers.
    pub(crate) fn new(
        alloc: Global,
        grid: &Grid,
        lines: &KeptLines,
        numbers: &[u32],
    ) -> Result<SubclauseIndex, NoMemory> {
        let codes = grid.vars().saturating_mul(2);
        let mut uses = filled(alloc, codes, 0)?;
        for number in numbers {
            for code in lines.codes(*number) {
                let count: u32 = read(&uses, *code, 0);
                write(&mut uses, *code, count.saturating_add(1));
            }
        }
        Ok(SubclauseIndex {
            clauses: Vec::new(alloc),
            uses,
            latest: filled(alloc, codes, NO_CLAUSE)?,
            is_marked: filled(alloc, codes, false)?,
        })
    }

    /// Files a clause of these literals.
    pub(crate) fn file(&mut self, name: Hint, literals: &[Literal]) -> Result<(), NoMemory> {
        let rarest = self.rarest(literals);
        let place = saturating_u32(self.clauses.len());
        self.clauses.push(FiledClause {
            name,
            signature: signature(literals),
            before: read(&self.latest, rarest, NO_CLAUSE),
        })?;
        write(&mut self.latest, rarest, place);
        Ok(())
    }

    /// Returns a filed clause that is a subset of these literals, if there is one.
    pub(crate) fn subclause_of(
        &mut self,
        grid: &Grid,
        lines: &KeptLines,
        literals: &[Literal],
    ) -> Option<Hint> {
        self.mark(literals, true);
        let found = self.marked_clause(grid, lines, literals);
        self.mark(literals, false);
        found
    }

    // Returns the code of the literal that lines have least often.
    fn rarest(&self, literals: &[Literal]) -> u32 {
        let mut rarest = u32::MAX;
        let mut least = u32::MAX;
        for literal in literals {
            let count = read(&self.uses, literal.code, u32::MAX);
            if count < least {
                least = count;
                rarest = literal.code;
            }
        }
        rarest
    }

    fn mark(&mut self, literals: &[Literal], is_marked: bool) {
        for literal in literals {
            write(&mut self.is_marked, literal.code, is_marked);
        }
    }

    // Returns a clause whose literals are all marked. These are the marked literals.
    fn marked_clause(&self, grid: &Grid, lines: &KeptLines, literals: &[Literal]) -> Option<Hint> {
        let bits = signature(literals);
        for literal in literals {
            let found = self.marked_under(grid, lines, literal.code, bits);
            if found.is_some() {
                return found;
            }
        }
        None
    }

    // Returns a clause filed under the literal of this code whose literals are all marked. The marked literals have these bits.
    fn marked_under(&self, grid: &Grid, lines: &KeptLines, code: u32, bits: u64) -> Option<Hint> {
        let mut place = read(&self.latest, code, NO_CLAUSE) as usize;
        for _ in 0..self.clauses.len() {
            if place >= self.clauses.len() {
                break;
            }
            let clause = self.clauses[place];
            if clause.signature & !bits == 0 && self.is_within_marked(grid, lines, clause.name) {
                return Some(clause.name);
            }
            place = clause.before as usize;
        }
        None
    }

    // Checks whether all literals of a clause are marked, not counting those of selectors.
    fn is_within_marked(&self, grid: &Grid, lines: &KeptLines, clause: Hint) -> bool {
        match clause {
            Hint::Pair { v, w } => {
                self.has_marked(Literal::negation_of(v).code)
                    && self.has_marked(Literal::negation_of(w).code)
            }
            Hint::Own(place) => {
                for var in grid.vars_of(place) {
                    if !self.has_marked(Literal::of(var).code) {
                        return false;
                    }
                }
                true
            }
            Hint::Line(number) => {
                for code in lines.codes(number) {
                    if !self.has_marked(*code) {
                        return false;
                    }
                }
                true
            }
        }
    }

    // A selector's literal counts as marked.
    fn has_marked(&self, code: u32) -> bool {
        read(&self.is_marked, code, true)
    }
}

// Returns the bits of these literals.
fn signature(literals: &[Literal]) -> u64 {
    let mut bits: u64 = 0;
    for literal in literals {
        let bit = literal.code.wrapping_mul(0x9E37_79B1) >> 26;
        bits |= 1u64 << bit;
    }
    bits
}
