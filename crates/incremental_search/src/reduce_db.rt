//! Thinning: now and then some of the little used lines are dropped, and the rest are compacted.
//!
//! A line is dropped from the stored clauses, and later from the stored lines if no clause needs it. The lines of the current test are
//! all kept until it ends, since they are its receipt if it spends its effort.

use crate::clauses::{ClauseHead, KeptClauses};
use crate::engine::Engine;
use crate::hint::Hint;
use crate::literal::Literal;
use crate::policy::{
    LINES_BETWEEN_REDUCTIONS, LINES_TO_ONE_DROPPED, MOST_LEVELS_OF_KEPT_LINE, Purpose,
    SPARE_LINES_BEFORE_SWEEP,
};
use crate::trail::Value;
use search_base::checked_access::{filled, write};
use std::alloc::{AllocError as NoMemory, Global};
use std::cmp::OrderedFloat;
use std::mem::replace;

impl Engine {
    /// At level 0: if enough lines came since the last thinning, drops some of the lines of more than a few levels. The least used go
    /// first, one in `LINES_TO_ONE_DROPPED`.
    pub(crate) fn reduce_lines(&mut self, alloc: Global) -> Result<(), NoMemory> {
        if self.clauses.lines() <= self.room {
            return Ok(());
        }
        let bound = self.use_limit(alloc)?;
        let fresh = KeptClauses::new(alloc, self.trail.vars())?;
        let old = replace(&mut self.clauses, fresh);
        for head in old.heads() {
            if !is_dropped(&old, *head, bound) {
                self.move_clause(&old, *head)?;
            }
        }
        self.clauses.count_on_from(&old);
        self.room = self
            .clauses
            .lines()
            .saturating_add(LINES_BETWEEN_REDUCTIONS);
        self.drop_unneeded_lines(alloc)
    }

    // Returns the use below which lines are dropped, among those that may be dropped.
    fn use_limit(&self, alloc: Global) -> Result<f64, NoMemory> {
        let mut uses = Vec::new(alloc);
        for head in self.clauses.heads() {
            if may_drop(&self.clauses, *head) {
                uses.push(head.used)?;
            }
        }
        uses.sort_unstable_by_key(|used| OrderedFloat(*used));
        let at = uses.len() / LINES_TO_ONE_DROPPED;
        if at < uses.len() {
            Ok(uses[at])
        } else {
            Ok(0.0)
        }
    }

    // Stores a clause again, unless it is true for good. Leaves out the false literals of selectors, whose stations are on air.
    fn move_clause(&mut self, old: &KeptClauses, head: ClauseHead) -> Result<(), NoMemory> {
        self.line.clear();
        for code in old.codes(head.at) {
            let literal = Literal { code: *code };
            match self.trail.value(literal) {
                Value::True => return Ok(()),
                Value::False => {
                    if self.is_channel(literal.var()) {
                        self.line.push(literal)?;
                    }
                }
                Value::Open => self.line.push(literal)?,
            }
        }
        self.move_open_first();
        let _at = self
            .clauses
            .add(&self.line, head.name, head.glue, head.used)?;
        Ok(())
    }

    // Swaps two literals of the line that are not false to its front, if the line has two. Returns how many it found.
    pub(crate) fn move_open_first(&mut self) -> usize {
        let mut found: usize = 0;
        for place in 0..self.line.len() {
            if found < 2 && place >= found && self.trail.value(self.line[place]) != Value::False {
                self.line.swap(found, place);
                found = found + 1;
            }
        }
        found
    }

    // If many lines are stored, deletes those that no clause, no fact and no receipt needs.
    fn drop_unneeded_lines(&mut self, alloc: Global) -> Result<(), NoMemory> {
        if !self.lines.is_sweep_due(SPARE_LINES_BEFORE_SWEEP) {
            return Ok(());
        }
        let mut needed = filled(alloc, self.lines.len(), false)?;
        for head in self.clauses.heads() {
            if let Hint::Line(line) = head.name {
                write(&mut needed, line, true);
            }
        }
        if self.purpose == Purpose::Answers {
            for line in self.first_line..self.lines.len() {
                write(&mut needed, line, true);
            }
        }
        self.lines.sweep(alloc, &mut needed)
    }
}

// Checks whether a clause is a line of more than two literals and more than a few levels.
fn may_drop(clauses: &KeptClauses, head: ClauseHead) -> bool {
    matches!(head.name, Hint::Line(_))
        && head.glue > MOST_LEVELS_OF_KEPT_LINE
        && clauses.size(head.at) > 2
}

fn is_dropped(clauses: &KeptClauses, head: ClauseHead, bound: f64) -> bool {
    may_drop(clauses, head) && head.used < bound
}
