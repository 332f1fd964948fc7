//! Conflict analysis: the line that a conflict teaches, by the first unique implication point (MiniSat, Eén and Sörensson 2003), with the
//! hints by which the line follows.
//!
//! Beginning with the false clause, each literal of the last level is replaced by the literals that made it false, the latest first.
//! This ends when one literal of that level is left. `minimising` leaves literals out. The hints are the reasons that the false clause
//! needs if the line's literals are false, in trail order, and then the clause itself.

use crate::engine::Engine;
use crate::hint::{Hint, Reason};
use crate::literal::Literal;
use crate::marks::Mark;
use crate::policy::STEPS_OF_CONFLICT;
use search_base::checked_access::{read, saturating_u32, write};
use std::alloc::AllocError as NoMemory;

// Facts have ranks below this one, by their lines; the literals of the trail have ranks from this one on.
const LITERALS: u64 = 1 << 32;

impl Engine {
    /// Derives the line and the hints of a conflict above level 0, and returns the level to go back to. The line's first literal is the
    /// one to become true; the second has the highest level among the others, which is the returned level.
    pub(crate) fn analyse(&mut self, conflict: Reason) -> Result<u32, NoMemory> {
        self.resolve(conflict)?;
        self.minimise()?;
        self.marks.clear();
        self.strengthen()?;
        self.gather_hints(conflict)?;
        self.marks.clear();
        self.marks.forget_cut();
        self.search_scope.order.age();
        self.clauses.age();
        Ok(self.second_level())
    }

    /// Returns the number of levels of the line's literals.
    pub(crate) fn glue(&mut self) -> u32 {
        self.marks.begin_count();
        let mut glue: u32 = 0;
        for literal in &self.line {
            if self.marks.is_new(self.trail.level_of(literal.var())) {
                glue = glue.saturating_add(1);
            }
        }
        glue
    }

    // Resolves the conflict into the line, before literals are left out.
    fn resolve(&mut self, conflict: Reason) -> Result<(), NoMemory> {
        self.line.clear();
        self.line.push(Literal::of(0))?;
        let mut open = self.mark_reason(conflict)?;
        for place in (0..self.trail.len()).rev() {
            let literal = self.trail.at(place);
            let var = literal.var();
            if self.marks.of(var) != Mark::Encountered {
                continue;
            }
            open = open.saturating_sub(1);
            if open == 0 {
                write(&mut self.line, 0, literal.opposite());
                break;
            }
            self.marks.change(var, Mark::Resolved);
            let reason = self.trail.reason_of(var);
            open = open.saturating_add(self.mark_reason(reason)?);
        }
        self.marks.forget_resolved();
        Ok(())
    }

    // Meets each unmet variable of a reason that is no fact, and returns how many of these are of the last level.
    fn mark_reason(&mut self, reason: Reason) -> Result<u32, NoMemory> {
        if let Reason::Clause { at } = reason {
            if let Hint::Line(_) = self.clauses.name(at) {
                self.clauses.bump_use(at);
            }
        }
        let last = self.trail.level();
        let mut open: u32 = 0;
        for place in 0..self.size(reason) {
            let literal = self.literal(reason, place);
            let var = literal.var();
            let level = self.trail.level_of(var);
            if level == 0 || self.marks.of(var) != Mark::Unseen {
                continue;
            }
            self.marks.mark(var, Mark::Encountered)?;
            self.search_scope.order.raise(var, STEPS_OF_CONFLICT);
            if level >= last {
                open = open.saturating_add(1);
            } else {
                self.line.push(literal)?;
            }
        }
        Ok(open)
    }

    // Gathers the hints of the finished line.
    fn gather_hints(&mut self, conflict: Reason) -> Result<(), NoMemory> {
        for place in 0..saturating_u32(self.line.len()) {
            let var = read(&self.line, place, Literal::of(0)).var();
            self.marks.mark(var, Mark::InLine)?;
        }
        self.marks.begin_hints();
        self.need_reason(conflict)?;
        for _ in 0..self.trail.vars() {
            let Some(var) = self.marks.next_waiting() else {
                break;
            };
            let reason = self.trail.reason_of(var);
            self.need_reason(reason)?;
        }
        self.marks.list_hints(&mut self.hints)?;
        let last = self.name(conflict);
        self.hints.push(last)?;
        Ok(())
    }

    // Adds the hints of each variable of a reason that is neither in the line nor added yet.
    fn need_reason(&mut self, reason: Reason) -> Result<(), NoMemory> {
        for place in 0..self.size(reason) {
            let var = self.literal(reason, place).var();
            if self.marks.of(var) == Mark::Unseen {
                self.need(var)?;
            }
        }
        Ok(())
    }

    fn need(&mut self, var: u32) -> Result<(), NoMemory> {
        self.marks.mark(var, Mark::Encountered)?;
        if self.trail.level_of(var) == 0 {
            if let Some(line) = self.lines.fact(var) {
                self.marks.need(line as u64, Hint::Line(line))?;
            }
            return Ok(());
        }
        if let Some(v) = self.marks.cutter(var) {
            return self.marks.need(0, Hint::Pair { v, w: var });
        }
        let hint = self.name(self.trail.reason_of(var));
        let rank = LITERALS + self.trail.place_of(var) as u64;
        self.marks.need(rank, hint)?;
        self.marks.push_waiting(var)
    }

    // Swaps a literal of the highest level, except the first, into the second place. Returns that level, or 0 if the line has one literal.
    fn second_level(&mut self) -> u32 {
        let mut highest: u32 = 0;
        for place in 1..saturating_u32(self.line.len()) {
            let literal = read(&self.line, place, Literal::of(0));
            let level = self.trail.level_of(literal.var());
            if level > highest {
                highest = level;
                let second = read(&self.line, 1, literal);
                write(&mut self.line, 1, literal);
                write(&mut self.line, place, second);
            }
        }
        highest
    }
}
