//! Literals of the searcher's variables.

/// A variable or its negation. The code is twice the variable's number, plus one if negated, so that literals index lists.
#[derive(Clone, Copy, Debug, PartialEq, Eq)]
pub(crate) struct Literal {
    pub(crate) code: u32,
}

impl Literal {
    /// Returns the positive literal of a variable.
    pub(crate) fn of(var: u32) -> Literal {
        Literal {
            code: var.wrapping_mul(2),
        }
    }

    /// Returns the negative literal of a variable.
    pub(crate) fn negation_of(var: u32) -> Literal {
        Literal {
            code: var.wrapping_mul(2) | 1,
        }
    }

    /// Returns the variable's number.
    pub(crate) fn var(self) -> u32 {
        self.code >> 1
    }

    /// Checks whether the literal is negative.
    pub(crate) fn is_negated(self) -> bool {
        self.code & 1 == 1
    }

    /// Returns the negation of the literal.
    pub(crate) fn opposite(self) -> Literal {
        Literal {
            code: self.code ^ 1,
        }
    }
}
