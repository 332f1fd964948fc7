//! The literals that are known to be true while a line is checked, with constant-time lookup.

ghost use Rattle.std.specs.Prelude.{◌≡◌, ◌*◌, ◌^◌, ◌<◌, ◌≤◌, ◌++◌, ◌∷◌, [], length, IfOk, true};
ghost use Rattle.clause_db.specs.Clause.{has_lit, code_of};
ghost use Rattle.rup_check.specs.KnownLiterals.{is_lit_within, Marks};

use clause_db::lit::Lit;
use std::alloc::{AllocError as NoMemory, Global};
use std::marker::Model;

/// The known literals in the order in which they were added, and a mark for each literal of the variables 1 to `vars`. A known
/// literal of another variable has no mark, and is found by a linear search.
#[derive(Drop)]
pub struct KnownLiterals {
    vars: u32,
    lits: Vec<Lit>,
    marks: Vec<bool>,
}

impl Model for KnownLiterals {
    ghost use Rattle.std.specs.Prelude.{◌≡◌, ◌*◌, length};
    ghost use Rattle.rup_check.specs.KnownLiterals.{KnownLiteralsView, Marks};

    ghost Value = { KnownLiteralsView };

    ghost view = { λ k. record { vars = k.vars; lits = k.lits.items } };

    ghost invariant = { λ k. record { marks : Marks k.vars k.marks.items k.lits.items; size : length k.marks.items ≡ 2 * k.vars } };
}

impl KnownLiterals {
    /// Returns an empty set. Fails only if memory runs out.
    pub fn new(alloc: Global, vars: u32) -> Result<KnownLiterals, NoMemory>
        ensures { IfOk result (λ k. k ≡ record { vars = vars; lits = [] }) }
    {
        Ok(KnownLiterals {
            vars,
            lits: Vec::new(alloc),
            marks: vec![in alloc; false; 2 * vars as usize]?,
        })
    }

    /// Returns the number of variables.
    pub fn vars(&self) -> u32
        ensures { result ≡ self.now.vars }
    {
        self.vars
    }

    /// Checks whether a literal is known.
    pub fn has(&self, lit: Lit) -> bool
        ensures { result ≡ has_lit self.now.lits lit }
    {
        if within(self.vars, lit) {
            self.marks[code(lit)]
        } else {
            is_lit_in(&self.lits, lit)
        }
    }

    /// Adds a literal. Fails only if memory runs out; what is known then is unspecified.
    pub fn put(&mut self, lit: Lit) -> Result<(), NoMemory>
        ensures put { IfOk result (λ _. self.new.lits ≡ self.old.lits ++ lit ∷ []) }
        ensures vars { self.new.vars ≡ self.old.vars }
    {
        self.lits.push(lit)?;
        if within(self.vars, lit) {
            self.marks[code(lit)] = true;
        }
        Ok(())
    }

    /// Removes every literal. Only the marks of those that were known are visited.
    pub fn clear(&mut self)
        ensures { self.new ≡ record { vars = self.old.vars; lits = [] } }
    {
        unmark(&mut self.marks, self.vars, &self.lits);
        self.lits.clear();
    }
}

/// Checks whether the literal's variable is one of 1 to `vars`.
pub fn within(vars: u32, lit: Lit) -> bool
    ensures { result ≡ is_lit_within vars lit }
{
    1 <= lit.var && lit.var <= vars as u64
}

/// Returns the index of a literal's mark. Each variable has two, the positive literal's first.
pub fn code(lit: Lit) -> usize
    requires from_one { 1 ≤ lit.var }
    requires small { lit.var < 2 ^ 32 }
    ensures { result ≡ code_of lit }
{
    let at = 2 * (lit.var - 1) as usize;
    if lit.positive { at } else { at + 1 }
}

// Whether the literals contain this one.
fn is_lit_in(lits: &[Lit], lit: Lit) -> bool
    ensures { result ≡ has_lit lits.now lit }
{
    for known in lits {
        if *known == lit {
            return true;
        }
    }
    false
}

// Clears the marks of these literals.
fn unmark(marks: &mut [bool], vars: u32, lits: &[Lit])
    requires size { length marks.old ≡ 2 * vars }
    requires marked { Marks vars marks.old lits.now }
    ensures { Marks vars marks.new [] }
{
    for lit in lits {
        if within(vars, *lit) {
            marks[code(*lit)] = false;
        }
    }
}
