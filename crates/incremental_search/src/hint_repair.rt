//! Goes through the hints of a line once more, where a hint was replaced by another clause.

use crate::hint::Hint;
use crate::lines::KeptLines;
use crate::literal::Literal;
use crate::numbering::LineParts;
use search_base::checked_access::{filled, read, saturating_u32, write};
use search_base::grid::Grid;
use std::alloc::{AllocError as NoMemory, Global};

/// What a clause does under the known literals.
#[derive(Clone, Copy, Debug, PartialEq, Eq)]
enum ClauseEffect {
    /// It is true, or two of its literals are open.
    Nothing,
    /// All its literals except this one are false.
    Forces(Literal),
    /// All its literals are false.
    False,
}

/// The literals that are known to be true while the hints of a line are gone through.
#[derive(Drop)]
pub(crate) struct HintRepair {
    // For each literal of a channel whether it is known; and the list of those.
    is_known: Vec<bool>,
    known: Vec<Literal>,
    // The literals of a hint's clause, without those of selectors.
    clause: Vec<Literal>,
}

impl HintRepair {
    /// Returns the repair in which nothing is known.
    pub(crate) fn new(alloc: Global, grid: &Grid) -> Result<HintRepair, NoMemory> {
        Ok(HintRepair {
            is_known: filled(alloc, grid.vars().saturating_mul(2), false)?,
            known: Vec::new(alloc),
            clause: Vec::new(alloc),
        })
    }

    /// Leaves out the hints that force no literal, and those after the first one that is false. At the start the literals of the line
    /// are false.
    pub(crate) fn repair(
        &mut self,
        grid: &Grid,
        lines: &KeptLines,
        parts: &mut LineParts,
    ) -> Result<(), NoMemory> {
        self.forget();
        for i in 0..saturating_u32(parts.literals.len()) {
            let literal = read(&parts.literals, i, Literal::of(0));
            self.know(literal.opposite())?;
        }
        let mut kept: u32 = 0;
        for i in 0..saturating_u32(parts.hints.len()) {
            let hint = read(&parts.hints, i, Hint::Own(0));
            self.read_clause(grid, lines, hint)?;
            let effect = self.effect();
            if effect != ClauseEffect::Nothing {
                write(&mut parts.hints, kept, hint);
                kept = kept.saturating_add(1);
            }
            match effect {
                ClauseEffect::Nothing => {}
                ClauseEffect::Forces(literal) => self.know(literal)?,
                ClauseEffect::False => break,
            }
        }
        parts.hints.truncate(kept as usize);
        Ok(())
    }

    fn forget(&mut self) {
        for literal in &self.known {
            write(&mut self.is_known, literal.code, false);
        }
        self.known.clear();
    }

    fn know(&mut self, literal: Literal) -> Result<(), NoMemory> {
        write(&mut self.is_known, literal.code, true);
        self.known.push(literal)?;
        Ok(())
    }

    // Reads the literals of a hint's clause.
    fn read_clause(&mut self, grid: &Grid, lines: &KeptLines, hint: Hint) -> Result<(), NoMemory> {
        self.clause.clear();
        match hint {
            Hint::Pair { v, w } => {
                self.clause.push(Literal::negation_of(v))?;
                self.clause.push(Literal::negation_of(w))?;
            }
            Hint::Own(place) => {
                for var in grid.vars_of(place) {
                    self.clause.push(Literal::of(var))?;
                }
            }
            Hint::Line(number) => {
                for code in lines.codes(number) {
                    let literal = Literal { code: *code };
                    if literal.var() < grid.vars() {
                        self.clause.push(literal)?;
                    }
                }
            }
        }
        Ok(())
    }

    // Returns what the clause that was read does.
    fn effect(&self) -> ClauseEffect {
        let mut effect = ClauseEffect::False;
        for literal in &self.clause {
            if read(&self.is_known, literal.code, false) {
                return ClauseEffect::Nothing;
            }
            if read(&self.is_known, literal.opposite().code, false) {
                continue;
            }
            if effect != ClauseEffect::False {
                return ClauseEffect::Nothing;
            }
            effect = ClauseEffect::Forces(*literal);
        }
        effect
    }
}
