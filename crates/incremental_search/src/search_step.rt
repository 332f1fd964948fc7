//! One turn of the search: propagate, and then learn from a conflict, restart, or decide.

use crate::engine::Engine;
use crate::hint::{Hint, Reason};
use crate::literal::Literal;
use crate::search_scope::NOBODY;
use crate::trail::Value;
use search_base::checked_access::read;
use std::alloc::{AllocError as NoMemory, Global};

/// The result of a turn.
#[derive(Clone, Copy, Debug, PartialEq, Eq)]
pub(crate) enum StepOutcome {
    Continues,
    /// A line was learnt.
    Learnt,
    /// Every station in play has a channel, and no two interfere.
    Fits,
    /// The tested station can't be in the set, by the line of this number.
    Refuted { line: u32 },
    /// The search has contradictory knowledge, because the query is about other stations than those before it.
    Lost,
}

impl Engine {
    /// Takes one step: propagates, then learns, restarts or decides.
    pub(crate) fn search_step(&mut self, alloc: Global) -> Result<StepOutcome, NoMemory> {
        if self.is_lost {
            return Ok(StepOutcome::Lost);
        }
        if let Some(conflict) = self.propagate(alloc)? {
            return self.learn_from(conflict);
        }
        if self.is_due && self.trail.level() > 1 {
            self.is_due = false;
            self.backjump_to(0)?;
            self.reduce_lines(alloc)?;
            return Ok(StepOutcome::Continues);
        }
        if self.trail.level() == 0 {
            return self.assume_tested();
        }
        match self.pick() {
            None => Ok(StepOutcome::Fits),
            Some(literal) => {
                self.trail.begin_level()?;
                self.assign(literal, Reason::Decision)?;
                Ok(StepOutcome::Continues)
            }
        }
    }

    // Turns a conflict into a line, and makes the line's first literal true.
    fn learn_from(&mut self, conflict: Reason) -> Result<StepOutcome, NoMemory> {
        if self.trail.level() == 0 {
            return Ok(StepOutcome::Lost);
        }
        let level = self.analyse(conflict)?;
        let glue = self.glue();
        let number = self.lines.add(&self.line, &self.hints)?;
        self.backjump_to(level)?;
        let first = read(&self.line, 0, Literal::of(0));
        if self.line.len() == 1 {
            self.assign(first, Reason::Decision)?;
            self.lines.set_fact(first.var(), number);
        } else {
            let used = self.clauses.use_of_new();
            let at = self
                .clauses
                .add(&self.line, Hint::Line(number), glue, used)?;
            self.assign(first, Reason::Clause { at })?;
        }
        if self.restarts.is_due() {
            self.is_due = true;
        }
        Ok(StepOutcome::Learnt)
    }

    // Decides first that the tested station is in the set. Without a tested station, the stations on air fit.
    fn assume_tested(&mut self) -> Result<StepOutcome, NoMemory> {
        if self.tested == NOBODY {
            return Ok(StepOutcome::Fits);
        }
        let selector = self.selector(self.tested);
        match self.trail.value(Literal::of(selector)) {
            Value::False => match self.lines.fact(selector) {
                Some(line) => Ok(StepOutcome::Refuted { line }),
                None => Ok(StepOutcome::Lost),
            },
            Value::True => {
                self.trail.begin_level()?;
                Ok(StepOutcome::Continues)
            }
            Value::Open => {
                self.trail.begin_level()?;
                self.assign(Literal::of(selector), Reason::Decision)?;
                Ok(StepOutcome::Continues)
            }
        }
    }

    // Picks the most active open variable of a station in play, which is tried as true.
    fn pick(&mut self) -> Option<Literal> {
        for _ in 0..self.search_scope.order.len() {
            let var = self.search_scope.order.take()?;
            if self.trail.is_open(var) && self.search_scope.is_in_set(self.grid.owner(var)) {
                return Some(Literal::of(var));
            }
        }
        None
    }
}
