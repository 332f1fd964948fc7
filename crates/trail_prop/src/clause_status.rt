//! The state of one clause under the true literals.

ghost use Rattle.trail_prop.specs.Open.{LitsWithin};
ghost use Rattle.trail_prop.specs.Entries.{lits_of};
ghost use Rattle.trail_prop.specs.ClauseStatus.{ClauseStatusIs};

use crate::assignment::TrueLiterals;
use clause_db::lit::Lit;

/// The state of a clause: it is false, it forces a literal, or neither.
#[derive(Clone, Copy, Debug, PartialEq, Eq)]
pub(crate) enum ClauseStatus {
    False,
    Forces(Lit),
    Settled,
}

/// Returns the state of a clause under an assignment.
pub(crate) fn clause_status_of(assigned: &TrueLiterals, clause: &[Lit]) -> ClauseStatus
    requires { LitsWithin assigned.now.vars clause.now }
    ensures { ClauseStatusIs (lits_of assigned.now.entries) clause.now result }
{
    let mut open: Option<Lit> = None;
    for lit in clause {
        if !assigned.is_true(lit.opposite()) {
            if open.is_some() || assigned.is_true(*lit) {
                return ClauseStatus::Settled;
            }
            open = Some(*lit);
        }
    }
    match open {
        None => ClauseStatus::False,
        Some(lit) => ClauseStatus::Forces(lit),
    }
}
