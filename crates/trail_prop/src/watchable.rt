//! The choice of two literals that a clause can watch.

ghost use Rattle.std.specs.Prelude.{Option, ◌≡◌, ◌<◌, true, IfSome, None, Some};
ghost use Rattle.clause_db.specs.Clauses.{LitWithin};
ghost use Rattle.trail_prop.specs.Entries.{lits_of};
ghost use Rattle.trail_prop.specs.Watchable.{IsWatchable, IsWatchablePlace, AreWatchable};
ghost use Rattle.trail_prop.specs.Open.{LitsWithin};
ghost use Rattle.trail_prop.specs.Watching.{HasTrue};

use crate::assignment::TrueLiterals;
use crate::plain::PlainTrail;
use crate::watch_update::WatchPlaces;
use clause_db::lit::Lit;

/// Checks whether some literal of the clause is true. Only the answer `true` is specified.
pub(crate) fn has_true(assigned: &TrueLiterals, clause: &[Lit]) -> bool
    requires { LitsWithin assigned.now.vars clause.now }
    ensures { result ≡ true → HasTrue (lits_of assigned.now.entries) clause.now }
{
    for lit in clause {
        if assigned.is_true(*lit) {
            return true;
        }
    }
    false
}

// Whether a clause may watch the literal. The literal must not be false; or it became false at the present level, and the clause
// has a true literal.
fn is_watchable(plain: &PlainTrail, lit: Lit, holds: bool) -> bool
    requires { LitWithin plain.now.clauses.vars lit }
    ensures { result ≡ true → IsWatchable plain.now.entries holds lit }
{
    if !plain.assigned().is_true(lit.opposite()) {
        return true;
    }
    match plain.assigned().entry_of(lit.var) {
        Some(entry) => holds && entry.level == plain.level(),
        None => false,
    }
}

// Returns a place of the clause that may be watched, with another literal than `beside`.
fn watchable_place(
    plain: &PlainTrail,
    clause: &[Lit],
    holds: bool,
    beside: Option<Lit>,
) -> Option<usize>
    requires { LitsWithin plain.now.clauses.vars clause.now }
    ensures { IfSome result (λ at. IsWatchablePlace plain.now.entries holds clause.now beside at) }
{
    for (at, lit) in clause.iter().enumerate() {
        if Some(*lit) == beside || !is_watchable(plain, *lit, holds) {
            continue;
        }
        return Some(at);
    }
    None
}

/// Returns two places of the clause that may be watched.
pub(crate) fn watchable_places(plain: &PlainTrail, clause: &[Lit]) -> Option<WatchPlaces>
    requires { LitsWithin plain.now.clauses.vars clause.now }
    ensures { IfSome result (AreWatchable plain.now.entries clause.now) }
{
    let holds = has_true(plain.assigned(), clause);
    let first = watchable_place(plain, clause, holds, None)?;
    let second = watchable_place(plain, clause, holds, Some(clause[first]))?;
    Some(WatchPlaces { first, second })
}
