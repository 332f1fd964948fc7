//! The test of a trail's precondition on literals.

ghost use Rattle.std.specs.Prelude.{◌≡◌, true};
ghost use Rattle.trail_prop.specs.Open.{LitsWithin};

use clause_db::lit::Lit;

/// Checks whether the variable of each literal is one of 1 to `vars`. A trail requires this of its clauses.
pub fn are_within(vars: u32, lits: &[Lit]) -> bool
    ensures within { result ≡ true → LitsWithin vars lits.now }
    ensures exactly { LitsWithin vars lits.now → result ≡ true }
{
    for lit in lits {
        if lit.var < 1 || lit.var > vars as u64 {
            return false;
        }
    }
    true
}
