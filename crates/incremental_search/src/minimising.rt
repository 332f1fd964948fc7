//! How a learnt line gets shorter: literals that follow from others go (the deep minimisation of MiniSat, Sörensson and Biere 2009), and
//! channels that a pair rules out.

use crate::engine::Engine;
use crate::hint::Reason;
use crate::literal::Literal;
use crate::marks::Mark;
use search_base::checked_access::{read, saturating_u32, write};
use std::alloc::AllocError as NoMemory;

impl Engine {
    /// Leaves out each literal except the first that follows from other literals of the line and facts.
    pub(crate) fn minimise(&mut self) -> Result<(), NoMemory> {
        let levels = self.level_bits();
        let mut kept: u32 = 1;
        for place in 1..saturating_u32(self.line.len()) {
            let literal = read(&self.line, place, Literal::of(0));
            if self.is_needed(literal.var(), levels)? {
                write(&mut self.line, kept, literal);
                kept = kept.saturating_add(1);
            }
        }
        self.line.truncate(kept as usize);
        Ok(())
    }

    /// Leaves out each channel except the first literal if the line has the negation of a channel that excludes it: where the line
    /// matters, that channel is taken, so the literal is false by their pair.
    pub(crate) fn strengthen(&mut self) -> Result<(), NoMemory> {
        if self.line.len() < 3 {
            return Ok(());
        }
        self.mark_candidates(true);
        for place in 0..saturating_u32(self.line.len()) {
            let literal = read(&self.line, place, Literal::of(0));
            if literal.is_negated() && self.is_channel(literal.var()) {
                self.cut_excluded(literal.var())?;
            }
        }
        self.mark_candidates(false);
        self.drop_cut();
        Ok(())
    }

    // Returns a bit for each level of the line's literals except the first, the levels 32 apart sharing one.
    fn level_bits(&self) -> u32 {
        let mut bits: u32 = 0;
        for place in 1..saturating_u32(self.line.len()) {
            bits = bits | self.level_bit(read(&self.line, place, Literal::of(0)).var());
        }
        bits
    }

    fn level_bit(&self, var: u32) -> u32 {
        1 << (self.trail.level_of(var) & 31)
    }

    // Checks whether a variable of the line does not follow from others of the line and facts. If it follows, the variables on the way
    // are marked: they follow too.
    fn is_needed(&mut self, var: u32, levels: u32) -> Result<bool, NoMemory> {
        if self.trail.reason_of(var) == Reason::Decision {
            return Ok(true);
        }
        let marked = self.marks.count();
        self.marks.begin_waiting();
        self.marks.push_waiting(var)?;
        for _ in 0..=self.trail.vars() {
            let Some(next) = self.marks.next_waiting() else {
                return Ok(false);
            };
            if !self.follow_reason(next, levels)? {
                break;
            }
        }
        self.marks.forget_since(marked);
        Ok(true)
    }

    // Marks the variables of a variable's reason that are still unseen and no facts. Returns false at one that was decided, or at a
    // level of which the line has no literal.
    fn follow_reason(&mut self, var: u32, levels: u32) -> Result<bool, NoMemory> {
        let reason = self.trail.reason_of(var);
        for place in 0..self.size(reason) {
            let other = self.literal(reason, place).var();
            if other == var
                || self.trail.level_of(other) == 0
                || self.marks.of(other) != Mark::Unseen
            {
                continue;
            }
            if self.trail.reason_of(other) == Reason::Decision
                || self.level_bit(other) & levels == 0
            {
                return Ok(false);
            }
            self.marks.mark(other, Mark::Encountered)?;
            self.marks.push_waiting(other)?;
        }
        Ok(true)
    }

    // Marks the channels of the line, except the first literal, as candidates to be cut, or as none.
    fn mark_candidates(&mut self, are: bool) {
        for place in 1..saturating_u32(self.line.len()) {
            let literal = read(&self.line, place, Literal::of(0));
            if !literal.is_negated() {
                self.marks.set_candidate(literal.var(), are);
            }
        }
    }

    // Cuts the candidates that may not be true together with this variable.
    fn cut_excluded(&mut self, var: u32) -> Result<(), NoMemory> {
        for other in self.grid.vars_of(self.grid.owner(var)) {
            if other != var {
                self.marks.cut_candidate(other, var)?;
            }
        }
        for rival in self.grid.rival_list(var) {
            self.marks.cut_candidate(*rival, var)?;
        }
        Ok(())
    }

    // Drops the literals that were cut.
    fn drop_cut(&mut self) {
        let mut kept: u32 = 1;
        for place in 1..saturating_u32(self.line.len()) {
            let literal = read(&self.line, place, Literal::of(0));
            if literal.is_negated() || self.marks.cutter(literal.var()).is_none() {
                write(&mut self.line, kept, literal);
                kept = kept.saturating_add(1);
            }
        }
        self.line.truncate(kept as usize);
    }
}
