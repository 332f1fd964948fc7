//! What a clause does when one of its two watched literals becomes false.

ghost use Rattle.std.specs.Prelude.{◌≡◌, ◌<◌, true};
ghost use Rattle.clause_db.specs.Clause.{has_lit, opposite};
ghost use Rattle.trail_prop.specs.Entries.{lits_of};
ghost use Rattle.trail_prop.specs.Open.{LitsWithin};
ghost use Rattle.trail_prop.specs.Find.{FindIs};
ghost use Rattle.trail_prop.specs.WatchUpdate.{SidesAre, WatchUpdateIs};

use crate::assignment::TrueLiterals;
use clause_db::lit::Lit;

/// The places of the two literals that a clause watches.
#[derive(Clone, Copy, Debug, PartialEq, Eq)]
pub(crate) struct WatchPlaces {
    pub(crate) first: usize,
    pub(crate) second: usize,
}

impl WatchPlaces {
    /// Returns arbitrary places, for a clause that is not watched.
    pub(crate) fn none() -> WatchPlaces
        ensures { result ≡ record { first = 0; second = 0 } }
    {
        WatchPlaces {
            first: 0,
            second: 0,
        }
    }
}

/// The place of the watched literal that became false, and the place of the other one.
#[derive(Clone, Copy, Debug, PartialEq, Eq)]
pub(crate) struct Sides {
    pub(crate) mine: usize,
    pub(crate) other: usize,
}

/// The places that a clause watches next, the new one first, and the literals there.
#[derive(Clone, Copy, Debug, PartialEq, Eq)]
pub(crate) struct Moved {
    pub(crate) places: WatchPlaces,
    pub(crate) lit: Lit,
    pub(crate) other: Lit,
}

/// What the clause does. `Holds`: its other watched literal is true. `Moves`: it watches another literal. `Leaves`: all its
/// literals are false except the other watched one. `Lost`: it cannot be watched.
#[derive(Clone, Copy, Debug, PartialEq, Eq)]
pub(crate) enum WatchUpdate {
    Holds(Lit),
    Moves(Moved),
    Leaves(Lit),
    Lost,
}

// Returns the two places, first the one with this literal.
fn sides_of(clause: &[Lit], places: WatchPlaces, gone: Lit) -> Option<Sides>
    ensures { SidesAre clause.now places gone result }
{
    if places.first >= clause.len() || places.second >= clause.len() {
        return None;
    }
    if clause[places.first] == gone {
        return Some(Sides {
            mine: places.first,
            other: places.second,
        });
    }
    if clause[places.second] == gone {
        return Some(Sides {
            mine: places.second,
            other: places.first,
        });
    }
    None
}

// Returns a place of the clause, other than these two, whose literal is not false.
fn find_place(assigned: &TrueLiterals, clause: &[Lit], sides: Sides) -> Option<usize>
    requires { LitsWithin assigned.now.vars clause.now }
    ensures { FindIs (lits_of assigned.now.entries) clause.now sides.mine sides.other result }
{
    for (at, lit) in clause.iter().enumerate() {
        if at != sides.mine && at != sides.other && !assigned.is_true(lit.opposite()) {
            return Some(at);
        }
    }
    None
}

/// Returns what a clause does that watches these places, now that this literal is false.
pub(crate) fn watch_update_of(
    assigned: &TrueLiterals,
    clause: &[Lit],
    places: WatchPlaces,
    gone: Lit,
) -> WatchUpdate
    requires within { LitsWithin assigned.now.vars clause.now }
    requires gone { has_lit (lits_of assigned.now.entries) (opposite gone) ≡ true }
    ensures { WatchUpdateIs (lits_of assigned.now.entries) clause.now places gone result }
{
    let Some(sides) = sides_of(clause, places, gone) else {
        return WatchUpdate::Lost;
    };
    let other = clause[sides.other];
    if other == gone {
        return WatchUpdate::Lost;
    }
    if assigned.is_true(other) {
        return WatchUpdate::Holds(other);
    }
    let Some(at) = find_place(assigned, clause, sides) else {
        return WatchUpdate::Leaves(other);
    };
    let lit = clause[at];
    if lit == other {
        return WatchUpdate::Lost;
    }
    WatchUpdate::Moves(Moved {
        places: WatchPlaces {
            first: at,
            second: sides.other,
        },
        lit,
        other,
    })
}
