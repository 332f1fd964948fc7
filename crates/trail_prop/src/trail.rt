//! The trail as solvers see it: decisions, and the literals that clauses force.

ghost use Rattle.std.specs.Prelude.{ℕ, ◌≡◌, ◌+◌, ◌≤◌, ◌++◌, ◌∷◌, [], filter, IfOk, IfSome, IfNone, OnOk, OnErr, None, Some};
ghost use Rattle.clause_db.specs.Clause.{clause_at};
ghost use Rattle.clause_db.specs.Clauses.{LitWithin, ClausesWithin};
ghost use Rattle.trail_prop.specs.declared.entry.TrailEntry.{TrailEntry};
ghost use Rattle.trail_prop.specs.Entries.{lits_of, level_of, IsTrailEntry, IsEntryOf};
ghost use Rattle.trail_prop.specs.Open.{LitsWithin, value_known, IsComplete};
ghost use Rattle.trail_prop.specs.Trails.{IsTrail, IsFalseAt, Grows, is_up_to};

use crate::entry::{Conflict, TrailEntry};
use crate::propagate::propagate;
use crate::watching::Watching;
use clause_db::list::ClauseList;
use clause_db::lit::Lit;
use std::alloc::{AllocError as NoMemory, Global};
use std::marker::Model;

/// Clauses over the variables 1 to `vars`, and in order the literals that are true by decisions and by these clauses. Each clause
/// watches two of its literals, so propagation visits only the clauses whose watched literals become false.
#[derive(Drop)]
pub struct Trail {
    watching: Watching,
}

impl Model for Trail {
    ghost use Rattle.trail_prop.specs.Trails.{TrailView};

    ghost Value = { TrailView };

    ghost view = { λ t. t.watching.trail };
}

impl Trail {
    /// Returns a trail of these clauses without entries. Takes time and memory for each variable and clause; the first propagation
    /// visits each clause once. Fails only if memory runs out.
    pub fn new(alloc: Global, clauses: ClauseList) -> Result<Trail, NoMemory>
        requires { ClausesWithin clauses.vars clauses.list }
        ensures { IfOk result (λ t. t ≡ record { clauses = clauses; entries = [] }) }
    {
        let watching = Watching::new(alloc, clauses)?;
        Ok(Trail { watching })
    }

    /// Lends the clauses, those given first and those added, numbered from 1.
    pub fn clauses(&self) -> &ClauseList
        ensures clauses { result.now ≡ self.now.clauses }
        ensures within { ClausesWithin self.now.clauses.vars self.now.clauses.list }
    {
        self.watching.plain().clauses()
    }

    /// Lends the entries in order. Each has the number of decisions up to it, and the number of the clause that forced it by the
    /// entries before.
    pub fn entries(&self) -> &[TrailEntry]
        ensures { result.now ≡ self.now.entries }
    {
        self.watching.plain().entries()
    }

    /// Proves of every trail that each entry has the number of decisions up to it. Each entry is a decision, or is forced by its
    /// clause and the entries before it. Does nothing else.
    pub fn keeps_reasons(&self)
        ensures { IsTrail self.now.clauses self.now.entries }
    {
        self.watching.plain().keeps_reasons();
    }

    /// Returns the number of decisions.
    pub fn level(&self) -> u32
        ensures { result ≡ level_of self.now.entries }
    {
        self.watching.plain().level()
    }

    /// Returns the value of a variable, or `None` if it has none or the number is not a variable's. Takes constant time.
    pub fn value(&self, var: u64) -> Option<bool>
        ensures { result ≡ value_known (lits_of self.now.entries) var }
    {
        self.watching.plain().value(var)
    }

    /// Returns the entry of a variable, if it has one. Takes constant time.
    pub fn entry_of(&self, var: u64) -> Option<TrailEntry>
        requires from_one { 1 ≤ var }
        requires to_vars { var ≤ self.now.clauses.vars }
        ensures found { IfSome result (λ e. IsEntryOf self.now.entries var e) }
        ensures only { (k : ℕ) (e : TrailEntry) → IsTrailEntry self.now.entries k e → e.lit.var ≡ var → result ≡ Some e }
    {
        self.watching.plain().assigned().entry_of(var)
    }

    /// Appends a clause, which the next propagation visits. If memory runs out, the trail stays as it was.
    pub fn add(&mut self, clause: &[Lit]) -> Result<(), NoMemory>
        requires { LitsWithin self.old.clauses.vars clause.now }
        ensures added { OnOk result (self.new ≡ record { clauses = record { vars = self.old.clauses.vars; list = self.old.clauses.list ++ clause.now ∷ [] }; entries = self.old.entries }) }
        ensures unchanged { OnErr result (self.new ≡ self.old) }
    {
        self.watching.add(clause)
    }

    /// Opens a new level with a literal whose variable has no value. Takes no memory.
    pub fn decide(&mut self, lit: Lit)
        requires within { LitWithin self.old.clauses.vars lit }
        requires opens { value_known (lits_of self.old.entries) lit.var ≡ None }
        ensures { self.new ≡ record { clauses = self.old.clauses; entries = self.old.entries ++ record { lit = lit; level = level_of self.old.entries + 1; reason = None } ∷ [] } }
    {
        self.watching.decide(lit);
    }

    /// Appends every literal that a clause forces, each at the present level, until a clause is false or no clause forces a
    /// literal. Returns the false clause, if there is one. Otherwise no clause is false, and none has all literals false except one
    /// without a value.
    ///
    /// # Errors
    ///
    /// Fails only if memory runs out. A further call continues from there.
    pub fn propagate(&mut self) -> Result<Option<Conflict>, NoMemory>
        ensures clauses { self.new.clauses ≡ self.old.clauses }
        ensures grows { Grows self.old.entries self.new.entries }
        ensures conflict { IfOk result (λ r. IfSome r (λ c. IsFalseAt (lits_of self.new.entries) (clause_at self.new.clauses.list c.clause))) }
        ensures complete { IfOk result (λ r. IfNone r (IsComplete self.new.clauses.list (lits_of self.new.entries))) }
    {
        propagate(&mut self.watching)
    }

    /// Removes the entries above a level. Takes no memory, and time for each removed entry.
    pub fn backjump(&mut self, level: u32)
        requires { level ≤ level_of self.old.entries }
        ensures clauses { self.new.clauses ≡ self.old.clauses }
        ensures kept { self.new.entries ≡ filter (is_up_to level) self.old.entries }
        ensures level { level_of self.new.entries ≡ level }
    {
        self.watching.backjump(level);
    }
}
