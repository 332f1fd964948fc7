//! Cursors over the literals or the hints of a line. They decode the packed bytes one item at a time and take no memory.

ghost use Rattle.std.specs.Prelude.{◌≡◌, ◌≤◌, ◌^◌, ◌<◌, ◌++◌, ◌∷◌, [], length, MatchOption, OnOk};
ghost use Rattle.rup_check.specs.Packed.{lit_of_number, number_of_lit};

use crate::digits::first_number;
use clause_db::lit::Lit;
use std::alloc::AllocError as NoMemory;
use std::marker::Model;

/// The remaining hints of a line.
#[derive(Debug, Drop)]
pub struct Hints<'a> {
    pub(crate) packed: &'a [u8],
}

impl<'a> Model for Hints<'a> {
    ghost use Rattle.std.specs.Prelude.{List, ℕ};
    ghost use Rattle.rup_check.specs.Packed.{numbers_of};

    ghost Value = { List ℕ };

    ghost view = { λ h. numbers_of h.packed.now };
}

impl<'a> Hints<'a> {
    /// Returns the next hint, if one is left.
    pub fn next(&mut self) -> Option<u64>
        ensures next { MatchOption result ((self.old ≡ []) × (self.new ≡ [])) (λ hint. self.old ≡ hint ∷ self.new) }
        ensures few { length self.old < 2 ^ 63 }
    {
        let (number, rest) = first_number(self.packed)?;
        self.packed = rest;
        Some(number)
    }
}

/// The remaining literals of a clause or a line.
#[derive(Debug, Drop)]
pub struct Literals<'a> {
    // The literals of a clause, and then those of a line. One of the two is empty.
    pub(crate) plain: &'a [Lit],
    pub(crate) packed: &'a [u8],
}

impl<'a> Model for Literals<'a> {
    ghost use Rattle.std.specs.Prelude.{List, ◌++◌};
    ghost use Rattle.clause_db.specs.declared.lit.Lit.{Lit};
    ghost use Rattle.rup_check.specs.Packed.{lits_spelled};

    ghost Value = { List Lit };

    ghost view = { λ l. l.plain.now ++ lits_spelled l.packed.now };
}

impl<'a> Literals<'a> {
    /// Returns the literals of a clause.
    pub(crate) fn of_clause(clause: &'a [Lit]) -> Literals<'a>
        ensures { result ≡ clause.now }
    {
        Literals {
            plain: clause,
            packed: &[],
        }
    }

    /// Returns the next literal, if one is left.
    pub fn next(&mut self) -> Option<Lit>
        ensures { MatchOption result ((self.old ≡ []) × (self.new ≡ [])) (λ lit. self.old ≡ lit ∷ self.new) }
    {
        if let Some((first, rest)) = self.plain.split_first() {
            self.plain = rest;
            return Some(*first);
        }
        let (number, rest) = first_number(self.packed)?;
        self.packed = rest;
        Some(lit_of(number))
    }

    /// Appends the remaining literals to these. Fails only if memory runs out.
    pub fn read_into(self, lits: &mut Vec<Lit>) -> Result<(), NoMemory>
        ensures { OnOk result (lits.new.items ≡ lits.old.items ++ self.entry) }
    {
        let mut left = self;
        while let Some(lit) = left.next() {
            lits.push(lit)?;
        }
        Ok(())
    }
}

// Returns the literal that a number encodes.
fn lit_of(number: u64) -> Lit
    ensures { result ≡ lit_of_number number }
{
    Lit {
        var: number / 2,
        positive: number % 2 == 1,
    }
}

/// Returns the number that encodes a literal, if it fits into 64 bits.
pub(crate) fn number_of(lit: Lit) -> Option<u64>
    ensures { MatchOption result (2 ^ 63 ≤ lit.var) (λ n. n ≡ number_of_lit lit) }
{
    let twice = lit.var.checked_mul(2)?;
    if lit.positive {
        Some(twice + 1)
    } else {
        Some(twice)
    }
}
