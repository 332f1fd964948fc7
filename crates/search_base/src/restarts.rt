//! When the search restarts.

/// The restart schedule: the search restarts, with its lines, after 1, 1, 2, 1, 1, 2, 4, .. units of conflicts (the sequence of Luby,
/// Sinclair and Zuckerman 1993).
#[derive(Drop)]
pub struct Restarts {
    unit: u64,
    turn: u64,
    left: u64,
}

impl Restarts {
    /// Returns the schedule before any conflict. A unit of the sequence is this many conflicts.
    pub fn new(unit: u64) -> Restarts {
        Restarts {
            unit,
            turn: 1,
            left: unit,
        }
    }

    /// Counts a conflict, and returns whether a restart is due after it.
    pub fn is_due(&mut self) -> bool {
        self.left = self.left.saturating_sub(1);
        if self.left > 0 {
            return false;
        }
        self.turn = self.turn.saturating_add(1);
        self.left = luby(self.turn).saturating_mul(self.unit);
        true
    }
}

// Returns the number of units at a place of the sequence, from 1. At place 2^k - 1 the number is 2^(k-1), and the places after that
// repeat the sequence.
fn luby(place: u64) -> u64 {
    let mut rest = place;
    for _ in 0..64 {
        let (size, units) = luby_block(rest);
        if size == rest {
            return units;
        }
        rest = rest.saturating_sub(size / 2);
    }
    1
}

// Returns the least number 2^k - 1 that is not below a place, with 2^(k-1).
fn luby_block(place: u64) -> (u64, u64) {
    let mut size: u64 = 1;
    let mut units: u64 = 1;
    for _ in 0..62 {
        if size >= place {
            break;
        }
        size = size.saturating_mul(2).saturating_add(1);
        units = units.saturating_mul(2);
    }
    (size, units)
}
