//! Counts of the literals of lines. A clause with a literal that no line has is a subset of no line, so it need not be filed. Any
//! other clause is best filed under the literal that lines have least often.

ghost use Rattle.std.specs.Prelude.{ℕ, ◌≡◌, ◌+◌, ◌-◌, ◌^◌, IfOk, min, true};
ghost use Rattle.clause_db.specs.declared.lit.Lit.{Lit};
ghost use Rattle.rup_check.specs.KnownLiterals.{is_lit_within};
ghost use Rattle.cert_types.specs.Uses.{AreCounted, are_used, count_of, one_more, times_in};

use clause_db::lit::Lit;
use rup_check::cursors::Literals;
use rup_check::known_literals::{code, within};
use rup_check::lines::Lines;
use std::alloc::{AllocError as NoMemory, Global};
use std::marker::Model;

/// A count for each literal of the variables 1 to `vars`. A count saturates at the greatest number.
#[derive(Drop)]
pub(crate) struct Uses {
    vars: u32,
    counts: Vec<u32>,
}

impl Model for Uses {
    ghost use Rattle.std.specs.Prelude.{◌≡◌, ◌*◌, length};
    ghost use Rattle.cert_types.specs.Uses.{UsesView};

    ghost Value = { UsesView };

    ghost view = { λ u. record { vars = u.vars; counts = u.counts.items } };

    ghost invariant = { λ u. length u.counts.items ≡ 2 * u.vars };
}

impl Uses {
    /// Returns how often these lines have each literal of the variables 1 to `vars`. Fails only if memory runs out.
    pub(crate) fn of(alloc: Global, vars: u32, lines: &Lines) -> Result<Uses, NoMemory>
        ensures { IfOk result (λ uses. AreCounted vars lines.now uses) }
    {
        let mut uses = Uses {
            vars,
            counts: vec![in alloc; 0; 2 * vars as usize]?,
        };
        for i in 0..lines.len() {
            uses.count_all(lines.lits(i));
        }
        Ok(uses)
    }

    // Counts the literals of one more line.
    fn count_all(&mut self, lits: Literals<'_>)
        ensures vars { self.new.vars ≡ self.old.vars }
        ensures counted { (l : Lit) (t : ℕ) → is_lit_within self.old.vars l ≡ true → count_of self.old l ≡ min t (2 ^ 32 - 1) → count_of self.new l ≡ min (t + times_in lits.entry l) (2 ^ 32 - 1) }
    {
        let mut left = lits;
        while let Some(lit) = left.next() {
            self.count(lit);
        }
    }

    // Counts one more literal.
    fn count(&mut self, lit: Lit)
        ensures vars { self.new.vars ≡ self.old.vars }
        ensures counted { (l : Lit) → is_lit_within self.old.vars l ≡ true → count_of self.new l ≡ one_more self.old lit l }
    {
        if !within(self.vars, lit) {
            return;
        }
        let at = code(lit);
        self.counts[at] = self.counts[at].saturating_add(1);
    }

    /// Returns the count of a literal, or the greatest number if its variable is not one of these.
    pub(crate) fn count_of(&self, lit: Lit) -> u32
        ensures { result ≡ count_of self.now lit }
    {
        if within(self.vars, lit) {
            self.counts[code(lit)]
        } else {
            u32::MAX
        }
    }

    /// Whether lines may have each of the literals.
    pub(crate) fn are_used(&self, lits: &[Lit]) -> bool
        ensures { result ≡ are_used self.now lits.now }
    {
        for lit in lits {
            if self.count_of(*lit) == 0 {
                return false;
            }
        }
        true
    }
}
