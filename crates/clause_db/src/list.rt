//! Clauses, numbered from 1: the formulas that proofs and searches are over.

ghost use Rattle.std.specs.Prelude.{◌≡◌, ◌+◌, ◌-◌, ◌≤◌, ◌++◌, ◌∷◌, [], length, OnOk, OnErr, Some, slice_index_or, slice_range};
ghost use Rattle.clause_db.specs.Clause.{clause_at};

use crate::lit::Lit;
use std::alloc::{AllocError as NoMemory, Global};
use std::marker::Model;

/// Clauses over the variables 1 to `vars`, numbered from 1 in the order in which they were added. All literals are stored in one
/// vector, with the place at which each clause ends. A literal of a variable outside this range is stored unchanged.
#[derive(Debug, Drop)]
pub struct ClauseList {
    vars: u32,
    lits: Vec<Lit>,
    ends: Vec<usize>,
}

impl Model for ClauseList {
    ghost use Rattle.std.specs.Prelude.{length};
    ghost use Rattle.clause_db.specs.Clauses.{Clauses};
    ghost use Rattle.clause_db.specs.Cut.{cut, AreEnds};

    ghost Value = { Clauses };

    ghost view = { λ l. record { vars = l.vars; list = cut l.lits.items 0 l.ends.items } };

    ghost invariant = { λ l. AreEnds 0 (length l.lits.items) l.ends.items };
}

impl ClauseList {
    /// Returns an empty list over this many variables.
    pub fn new(alloc: Global, vars: u32) -> ClauseList
        ensures { result ≡ record { vars = vars; list = [] } }
    {
        ClauseList {
            vars,
            lits: Vec::new(alloc),
            ends: Vec::new(alloc),
        }
    }

    /// Returns the number of variables.
    pub fn vars(&self) -> u32
        ensures { result ≡ self.now.vars }
    {
        self.vars
    }

    /// Returns the number of clauses.
    pub fn len(&self) -> u64
        ensures { result ≡ length self.now.list }
    {
        self.ends.len() as u64
    }

    /// Lends the clause of a number from 1 to `len`.
    pub fn get(&self, i: u64) -> &[Lit]
        requires from_one { 1 ≤ i }
        requires to_len { i ≤ length self.now.list }
        ensures clause { clause_at self.now.list i ≡ Some result.now }
        ensures at { result.now ≡ slice_index_or self.now.list (i - 1) [] }
    {
        let at = (i - 1) as usize;
        let from = start_of(&self.ends, at);
        let end = self.ends[at];
        lits_between(&self.lits, from, end)
    }

    /// Appends a clause. If memory runs out, the list stays as it was.
    pub fn add(&mut self, clause: &[Lit]) -> Result<(), NoMemory>
        ensures added { OnOk result (self.new ≡ record { vars = self.old.vars; list = self.old.list ++ clause.now ∷ [] }) }
        ensures unchanged { OnErr result (self.new ≡ self.old) }
    {
        let before = self.lits.len();
        self.lits.extend_from_slice(clause)?;
        let end = self.lits.len();
        match self.ends.push(end) {
            Ok(()) => Ok(()),
            Err(_) => {
                self.lits.truncate(before);
                Err(NoMemory)
            }
        }
    }
}

// Returns the place at which the clause at place `at`, from 0, begins.
fn start_of(ends: &[usize], at: usize) -> usize
    requires { at ≤ length ends.now }
    ensures { result ≡ slice_index_or (0 ∷ ends.now) at 0 }
{
    if at == 0 { 0 } else { ends[at - 1] }
}

// Returns the literals from one place up to another.
fn lits_between(lits: &[Lit], from: usize, end: usize) -> &[Lit]
    requires in_order { from ≤ end }
    requires within { end ≤ length lits.now }
    ensures { result.now ≡ slice_range lits.now from end }
{
    &lits[from..end]
}
