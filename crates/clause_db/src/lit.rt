//! Literals.

ghost use Rattle.std.specs.Prelude.{◌≡◌};
ghost use Rattle.clause_db.specs.Clause.{opposite};

/// A variable, numbered from 1, or its negation. DIMACS CNF writes the variable's number or its negative.
#[derive(Clone, Copy, Debug, PartialEq, Eq, PartialOrd, Ord)]
pub struct Lit {
    pub var: u64,
    pub positive: bool,
}

impl Lit {
    /// Returns the negation of the literal, which is true exactly if this one is false.
    pub fn opposite(self) -> Lit
        ensures { result ≡ opposite self }
    {
        Lit {
            var: self.var,
            positive: !self.positive,
        }
    }
}
