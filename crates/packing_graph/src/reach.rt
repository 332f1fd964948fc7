//! A graph search over the stations on air, from one station to those that interfere with it, and on.

ghost use Rattle.std.specs.Prelude.{◌≡◌, ℕ, IfOk, OnOk};
ghost use Rattle.std.specs.BTreeSet.{contains};
ghost use Rattle.std.specs.Ordering.{nat_cmp};
ghost use Rattle.pack_defs.specs.Components.{component};
ghost use Rattle.pack_defs.specs.Lists.{is_in};
ghost use Rattle.packing_graph.specs.Sets.{with_station};
ghost use Rattle.packing_graph.specs.Reach.{IsVisited};

use crate::station_set::StationSet;
use pack_defs::book::Book;
use std::alloc::{AllocError as NoMemory, Global};
use std::collections::BTreeSet;

/// Returns `station` and the stations that it reaches by pairs of the book among the stations on air.
///
/// # Errors
/// Fails only if memory runs out.
pub fn reached<S: StationSet>(
    alloc: Global,
    book: &Book,
    on: &S,
    station: u32,
) -> Result<BTreeSet<u32>, NoMemory>
    ensures { IfOk result (λ seen. (t : ℕ) → contains nat_cmp seen t ≡ is_in (component book.now (with_station (S.stations on.now) station) station) t) }
{
    let mut seen = BTreeSet::new(alloc);
    seen.insert(station)?;
    let mut waiting = vec![in alloc; station]?;
    while let Some(next) = waiting.pop() {
        visit(on, book.neighbours(next), &mut seen, &mut waiting)?;
    }
    Ok(seen)
}

// Adds the neighbours that are on air, and queues each new one for its own visit.
fn visit<S: StationSet>(
    on: &S,
    near: &[u32],
    seen: &mut BTreeSet<u32>,
    waiting: &mut Vec<u32>,
) -> Result<(), NoMemory>
    ensures { OnOk result (IsVisited (S.stations on.now) near.now (contains nat_cmp seen.old) waiting.old.items (contains nat_cmp seen.new) waiting.new.items) }
{
    for t in near {
        if !on.has(*t) {
            continue;
        }
        if seen.insert(*t)? {
            waiting.push(*t)?;
        }
    }
    Ok(())
}
