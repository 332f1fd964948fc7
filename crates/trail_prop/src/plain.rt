//! A trail without watches: propagation visits all clauses. `watching` adds the watches.

ghost use Rattle.std.specs.Prelude.{◌≡◌, ◌+◌, ◌-◌, ◌<◌, ◌≤◌, ◌++◌, ◌∷◌, [], length, filter, IfOk, IfSome, IfNone, OnOk, OnErr, Some, None, true, false};
ghost use Rattle.std.specs.List.{All};
ghost use Rattle.clause_db.specs.Clause.{clause_at};
ghost use Rattle.clause_db.specs.Clauses.{LitWithin, ClausesWithin};
ghost use Rattle.trail_prop.specs.Open.{LitsWithin, value_known, IsComplete};
ghost use Rattle.trail_prop.specs.declared.entry.TrailEntry.{TrailEntry};
ghost use Rattle.trail_prop.specs.Entries.{lits_of, level_of};
ghost use Rattle.trail_prop.specs.Trails.{IsTrail, IsFalseAt, Grows, forced_at, is_up_to, AboveIs, IsCut};
ghost use Rattle.trail_prop.specs.Plain.{PassIs};

use crate::assignment::TrueLiterals;
use crate::clause_status::{ClauseStatus, clause_status_of};
use crate::entry::{Conflict, TrailEntry};
use clause_db::list::ClauseList;
use clause_db::lit::Lit;
use std::alloc::{AllocError as NoMemory, Global};
use std::marker::Model;

/// Clauses, and in order the literals that are true by decisions and by these clauses.
#[derive(Drop)]
pub struct PlainTrail {
    clauses: ClauseList,
    assigned: TrueLiterals,
    level: u32,
}

impl Model for PlainTrail {
    ghost use Rattle.trail_prop.specs.Trails.{TrailView, TrailHolds};

    ghost Value = { TrailView };

    ghost view = { λ t. record { clauses = t.clauses; entries = t.assigned.entries } };

    ghost invariant = { λ t. TrailHolds t.clauses t.assigned.vars t.assigned.entries t.level };
}

/// The outcome of one step of propagation: a false clause; that no clause is false and none forces a literal; or progress.
#[derive(Clone, Copy, Debug, PartialEq, Eq)]
pub(crate) enum PropagationStep {
    Found(Conflict),
    Quiet,
    Moved,
}

/// Checks whether the last entry is above a level.
fn is_above(assigned: &TrueLiterals, level: u32) -> bool
    ensures { AboveIs level assigned.now.entries result }
{
    let entries = assigned.entries();
    let count = entries.len();
    if count == 0 {
        false
    } else {
        level < entries[count - 1].level
    }
}

/// Removes the last entries while they are above a level.
fn cut_above(assigned: &mut TrueLiterals, level: u32)
    ensures vars { assigned.new.vars ≡ assigned.old.vars }
    ensures cut { IsCut level assigned.old.entries assigned.new.entries }
{
    while is_above(assigned, level) {
        let _last = assigned.pop();
    }
}

impl PlainTrail {
    /// Returns a trail of these clauses without entries. Fails only if memory runs out.
    pub fn new(alloc: Global, clauses: ClauseList) -> Result<PlainTrail, NoMemory>
        requires { ClausesWithin clauses.vars clauses.list }
        ensures { IfOk result (λ t. t ≡ record { clauses = clauses; entries = [] }) }
    {
        let assigned = TrueLiterals::new(alloc, clauses.vars())?;
        Ok(PlainTrail {
            clauses,
            assigned,
            level: 0,
        })
    }

    /// Lends the clauses, those given first and those added.
    pub fn clauses(&self) -> &ClauseList
        ensures clauses { result.now ≡ self.now.clauses }
        ensures within { ClausesWithin self.now.clauses.vars self.now.clauses.list }
    {
        &self.clauses
    }

    /// Lends the true literals.
    pub(crate) fn assigned(&self) -> &TrueLiterals
        ensures { result.now ≡ record { vars = self.now.clauses.vars; entries = self.now.entries } }
    {
        &self.assigned
    }

    /// Lends the entries in order.
    pub fn entries(&self) -> &[TrailEntry]
        ensures { result.now ≡ self.now.entries }
    {
        self.assigned.entries()
    }

    /// Proves of every trail that each entry has the number of decisions up to it. Each entry is a decision, or is forced by its
    /// clause and the entries before it. Does nothing else.
    pub fn keeps_reasons(&self)
        ensures { IsTrail self.now.clauses self.now.entries }
    {
        let _assigned = &self.assigned;
    }

    /// Returns the number of decisions.
    pub fn level(&self) -> u32
        ensures level { result ≡ level_of self.now.entries }
        ensures top { All (λ (e : TrailEntry). e.level ≤ level_of self.now.entries) self.now.entries }
    {
        self.level
    }

    /// Returns the value of a variable, if it has one.
    pub fn value(&self, var: u64) -> Option<bool>
        ensures { result ≡ value_known (lits_of self.now.entries) var }
    {
        if var == 0 || var > self.assigned.vars() as u64 {
            return None;
        }
        let yes = Lit {
            var,
            positive: true,
        };
        let no = Lit {
            var,
            positive: false,
        };
        if self.assigned.is_true(yes) {
            Some(true)
        } else if self.assigned.is_true(no) {
            Some(false)
        } else {
            None
        }
    }

    /// Appends a clause. Fails only if memory runs out, and then changes nothing.
    pub fn add(&mut self, clause: &[Lit]) -> Result<(), NoMemory>
        requires { LitsWithin self.old.clauses.vars clause.now }
        ensures added { OnOk result (self.new ≡ record { clauses = record { vars = self.old.clauses.vars; list = self.old.clauses.list ++ clause.now ∷ [] }; entries = self.old.entries }) }
        ensures unchanged { OnErr result (self.new ≡ self.old) }
    {
        self.clauses.add(clause)?;
        Ok(())
    }

    /// Opens a new level with a literal of a variable without a value.
    pub fn decide(&mut self, lit: Lit)
        requires within { LitWithin self.old.clauses.vars lit }
        requires opens { value_known (lits_of self.old.entries) lit.var ≡ None }
        ensures { self.new ≡ record { clauses = self.old.clauses; entries = self.old.entries ++ record { lit = lit; level = level_of self.old.entries + 1; reason = None } ∷ [] } }
    {
        self.level += 1;
        self.assigned.push(TrailEntry {
            lit,
            level: self.level,
            reason: None,
        });
    }

    /// Appends a literal that a clause forces.
    pub fn force(&mut self, lit: Lit, clause: u64)
        requires { forced_at (lits_of self.old.entries) (clause_at self.old.clauses.list clause) ≡ Some lit }
        ensures pushed { self.new ≡ record { clauses = self.old.clauses; entries = self.old.entries ++ record { lit = lit; level = level_of self.old.entries; reason = Some clause } ∷ [] } }
        ensures room { length self.new.entries ≤ self.new.clauses.vars }
    {
        self.assigned.push(TrailEntry {
            lit,
            level: self.level,
            reason: Some(clause),
        });
    }

    /// Visits each clause once.
    fn pass(&mut self) -> PropagationStep
        ensures clauses { self.new.clauses ≡ self.old.clauses }
        ensures grows { Grows self.old.entries self.new.entries }
        ensures found { PassIs self.new.clauses self.old.entries self.new.entries result }
    {
        let mut moved = false;
        for at in 0..self.clauses.len() {
            match clause_status_of(&self.assigned, self.clauses.get(at + 1)) {
                ClauseStatus::False => {
                    return PropagationStep::Found(Conflict { clause: at + 1 });
                }
                ClauseStatus::Forces(lit) => {
                    self.force(lit, at + 1);
                    moved = true;
                }
                ClauseStatus::Settled => {}
            }
        }
        if moved {
            PropagationStep::Moved
        } else {
            PropagationStep::Quiet
        }
    }

    /// Appends every literal that a clause forces, until a clause is false or no clause forces a literal. Returns the false clause,
    /// if there is one.
    pub fn propagate(&mut self) -> Option<Conflict>
        ensures clauses { self.new.clauses ≡ self.old.clauses }
        ensures grows { Grows self.old.entries self.new.entries }
        ensures conflict { IfSome result (λ c. IsFalseAt (lits_of self.new.entries) (clause_at self.new.clauses.list c.clause)) }
        ensures complete { IfNone result (IsComplete self.new.clauses.list (lits_of self.new.entries)) }
    {
        loop {
            match self.pass() {
                PropagationStep::Found(conflict) => return Some(conflict),
                PropagationStep::Quiet => return None,
                PropagationStep::Moved => {}
            }
        }
    }

    /// Removes the entries above a level.
    pub fn backjump(&mut self, level: u32)
        requires { level ≤ level_of self.old.entries }
        ensures clauses { self.new.clauses ≡ self.old.clauses }
        ensures kept { self.new.entries ≡ filter (is_up_to level) self.old.entries }
        ensures level { level_of self.new.entries ≡ level }
        ensures cut { IsCut level self.old.entries self.new.entries }
    {
        cut_above(&mut self.assigned, level);
        self.level = level;
    }
}
