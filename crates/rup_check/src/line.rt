//! A line of a proof log, and the log.

ghost use Rattle.std.specs.Prelude.{◌≡◌};
ghost use Rattle.rup_check.specs.Follows.{ends_empty};

use crate::lines::Lines;
use clause_db::lit::Lit;
use pack_defs::items::Items;

/// A line of a log: a clause, and the numbers of the clauses and earlier lines that derive it, in the order of their use. The
/// numbers of lines continue the formula's: after `m` clauses the first line has the number `m + 1`.
#[derive(Debug, Drop)]
pub struct Line {
    pub lits: Items<Lit>,
    pub hints: Items<u64>,
}

/// A proof log.
#[derive(Debug, Drop)]
pub struct Log {
    pub lines: Lines,
}

impl Log {
    /// Checks whether the last line is empty and no other is, as in a refutation.
    pub fn ends_empty(&self) -> bool
        ensures { result ≡ ends_empty self.now.lines }
    {
        let count = self.lines.len();
        for i in 0..count {
            if self.lines.is_empty_at(i) {
                return i + 1 == count;
            }
        }
        false
    }
}
