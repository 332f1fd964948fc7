//! Unit propagation with two watched literals (MiniSat, Eén and Sörensson 2003): what follows from the true literals, until nothing more
//! follows or a clause is false.
//!
//! `visit` goes through the clauses that watch a literal which became false. A clause whose blocker is true stays without a visit, and
//! so does each clause behind a false one. Of the visited clauses, one that finds another literal to watch leaves the list. The rest
//! stay. If the other watched literal is open, the clause makes it true; if it is false, the clause is the conflict. It becomes the
//! blocker.

use crate::clauses::{KeptWatch, KeptWatchOutcome};
use crate::engine::Engine;
use crate::hint::Reason;
use crate::literal::Literal;
use crate::trail::Value;
use search_base::checked_access::{read, saturating_u32};
use std::alloc::{AllocError as NoMemory, Global};

impl Engine {
    /// Propagates the new literals of the trail, and returns the false clause, if one is found.
    pub(crate) fn propagate(&mut self, alloc: Global) -> Result<Option<Reason>, NoMemory> {
        // Each variable comes to the trail at most once.
        for _ in 0..self.trail.vars() {
            let Some(literal) = self.trail.next() else {
                return Ok(None);
            };
            if !literal.is_negated() && self.is_channel(literal.var()) {
                if let Some(conflict) = self.clear_channel(literal.var())? {
                    return Ok(Some(conflict));
                }
            }
            if let Some(conflict) = self.visit_watches(alloc, literal.opposite())? {
                return Ok(Some(conflict));
            }
        }
        Ok(None)
    }

    // Propagates a channel that became true: the station is on no other channel, and no station is on a channel that interferes.
    fn clear_channel(&mut self, v: u32) -> Result<Option<Reason>, NoMemory> {
        if let Some(w) = self.list_ruled_out(v)? {
            return Ok(Some(Reason::Pair { v, w }));
        }
        for i in 0..saturating_u32(self.ruled_out.len()) {
            let w = read(&self.ruled_out, i, 0);
            self.assign(Literal::negation_of(w), Reason::Pair { v, w })?;
        }
        Ok(None)
    }

    // Lists the open variables of the set's stations that may not be true together with this one. Returns one of them that is true
    // already, if there is one.
    fn list_ruled_out(&mut self, v: u32) -> Result<Option<u32>, NoMemory> {
        self.ruled_out.clear();
        for w in self.grid.vars_of(self.grid.owner(v)) {
            match self.trail.value(Literal::of(w)) {
                Value::False => {}
                Value::Open => self.ruled_out.push(w)?,
                Value::True => {
                    if w != v {
                        return Ok(Some(w));
                    }
                }
            }
        }
        for w in self.grid.rival_list(v) {
            let value = self.trail.value(Literal::of(*w));
            if value == Value::False || !self.search_scope.is_in_set(self.grid.owner(*w)) {
                continue;
            }
            if value == Value::True {
                return Ok(Some(*w));
            }
            self.ruled_out.push(*w)?;
        }
        Ok(None)
    }

    // Visits each clause that watches a literal which became false.
    fn visit_watches(
        &mut self,
        alloc: Global,
        falsified: Literal,
    ) -> Result<Option<Reason>, NoMemory> {
        let mut watches = self.clauses.take_watches(alloc, falsified);
        let conflict = self.visit(&mut watches, falsified)?;
        self.clauses.put_watches(falsified, watches);
        Ok(conflict)
    }

    // Keeps the watches that still watch the literal. After a false clause no more clauses are visited.
    fn visit(
        &mut self,
        watches: &mut Vec<KeptWatch>,
        falsified: Literal,
    ) -> Result<Option<Reason>, NoMemory> {
        let mut kept: usize = 0;
        let mut conflict = None;
        for i in 0..watches.len() {
            let mut watch = watches[i];
            if conflict.is_none() && self.trail.value(watch.blocker) != Value::True {
                let at = watch.at;
                match self.clauses.update_watch(&self.trail, watch, falsified)? {
                    KeptWatchOutcome::Moved => continue,
                    KeptWatchOutcome::Holds(other) => watch.blocker = other,
                    KeptWatchOutcome::Forces(first) => {
                        watch.blocker = first;
                        self.assign(first, Reason::Clause { at })?;
                    }
                    KeptWatchOutcome::False(first) => {
                        watch.blocker = first;
                        conflict = Some(Reason::Clause { at });
                    }
                }
            }
            if kept < watches.len() {
                watches[kept] = watch;
            }
            kept = kept.saturating_add(1);
        }
        watches.truncate(kept);
        Ok(conflict)
    }
}
