//! The true literals in order, with a mark for each literal and the place of each variable's entry, so that lookups take constant
//! time.

ghost use Rattle.std.specs.Prelude.{ℕ, ◌≡◌, ◌+◌, ◌-◌, ◌*◌, ◌<◌, ◌≤◌, ◌++◌, ◌∷◌, [], length, IfOk, IfSome, Some, None, true, false};
ghost use Rattle.clause_db.specs.Clause.{has_lit, code_of};
ghost use Rattle.clause_db.specs.Clauses.{LitWithin};
ghost use Rattle.trail_prop.specs.Open.{is_open};
ghost use Rattle.trail_prop.specs.declared.entry.TrailEntry.{TrailEntry};
ghost use Rattle.trail_prop.specs.Entries.{lits_of, HasCode, IsTrailEntry, IsEntryOf};

use crate::entry::TrailEntry;
use clause_db::lit::Lit;
use std::alloc::{AllocError as NoMemory, Global};
use std::marker::Model;

/// The entries of a trail over the variables 1 to `vars`. Memory for one entry of each variable is reserved at the start.
#[derive(Drop)]
pub(crate) struct TrueLiterals {
    vars: u32,
    entries: Vec<TrailEntry>,
    marks: Vec<bool>,
    index: Vec<u32>,
}

impl Model for TrueLiterals {
    ghost use Rattle.std.specs.Vec.{vec_capacity};
    ghost use Rattle.trail_prop.specs.Entries.{Assigned, AssignmentHolds};

    ghost Value = { Assigned };

    ghost view = { λ a. record { vars = a.vars; entries = a.entries.items } };

    ghost invariant = { λ a. AssignmentHolds a.vars a.entries.items a.marks.items a.index.items (vec_capacity a.entries) };
}

/// Returns the code of a literal: the index of its mark and of its watches. Each variable has two.
pub(crate) fn code(lit: Lit) -> usize
    requires { HasCode lit }
    ensures { result ≡ code_of lit }
{
    let at = 2 * (lit.var - 1) as usize;
    if lit.positive { at } else { at + 1 }
}

impl TrueLiterals {
    /// Returns an assignment without entries. Fails only if memory runs out.
    pub(crate) fn new(alloc: Global, vars: u32) -> Result<TrueLiterals, NoMemory>
        ensures { IfOk result (λ a. a ≡ record { vars = vars; entries = [] }) }
    {
        let entries = Vec::with_capacity(alloc, vars as usize)?;
        let mut marks = Vec::with_capacity(alloc, 2 * vars as usize)?;
        for _ in 0..2 * vars as usize {
            marks.push(false)?;
        }
        let mut index = Vec::with_capacity(alloc, vars as usize)?;
        for _ in 0..vars {
            index.push(0)?;
        }
        Ok(TrueLiterals {
            vars,
            entries,
            marks,
            index,
        })
    }

    /// Returns the number of variables.
    pub(crate) fn vars(&self) -> u32
        ensures { result ≡ self.now.vars }
    {
        self.vars
    }

    /// Lends the entries in order.
    pub(crate) fn entries(&self) -> &[TrailEntry]
        ensures { result.now ≡ self.now.entries }
    {
        &self.entries
    }

    /// Checks whether a literal is true.
    pub(crate) fn is_true(&self, lit: Lit) -> bool
        requires { LitWithin self.now.vars lit }
        ensures { result ≡ has_lit (lits_of self.now.entries) lit }
    {
        self.marks[code(lit)]
    }

    /// Returns the entry of a variable, if it has one.
    pub(crate) fn entry_of(&self, var: u64) -> Option<TrailEntry>
        requires from_one { 1 ≤ var }
        requires to_vars { var ≤ self.now.vars }
        ensures found { IfSome result (λ e. IsEntryOf self.now.entries var e) }
        ensures only { (k : ℕ) (e : TrailEntry) → IsTrailEntry self.now.entries k e → e.lit.var ≡ var → result ≡ Some e }
    {
        let at = self.index[(var - 1) as usize] as usize;
        if at >= self.entries.len() {
            return None;
        }
        let entry = self.entries[at];
        if entry.lit.var != var {
            return None;
        }
        Some(entry)
    }

    /// Appends an entry of a variable without a value. Takes no memory.
    pub(crate) fn push(&mut self, entry: TrailEntry)
        requires within { LitWithin self.old.vars entry.lit }
        requires opens { is_open (lits_of self.old.entries) entry.lit ≡ true }
        ensures { self.new ≡ record { vars = self.old.vars; entries = self.old.entries ++ entry ∷ [] } }
    {
        self.marks[code(entry.lit)] = true;
        self.index[(entry.lit.var - 1) as usize] = self.entries.len() as u32;
        match self.entries.push(entry) {
            Ok(()) => {}
            Err(_) => unreachable!(),
        }
    }

    /// Removes the last entry and returns it.
    pub(crate) fn pop(&mut self) -> TrailEntry
        requires { 0 < length self.old.entries }
        ensures vars { self.new.vars ≡ self.old.vars }
        ensures entries { self.old.entries ≡ self.new.entries ++ result ∷ [] }
    {
        match self.entries.pop() {
            Some(entry) => {
                self.marks[code(entry.lit)] = false;
                entry
            }
            None => unreachable!(),
        }
    }
}
