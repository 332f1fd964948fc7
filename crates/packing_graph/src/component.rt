//! The component of a station: the stations on air that it reaches by pairs.

ghost use Rattle.std.specs.Prelude.{◌≡◌, IfOk, IsTrue};
ghost use Rattle.pack_defs.specs.Components.{component};
ghost use Rattle.pack_defs.specs.Lists.{is_ascending};
ghost use Rattle.packing_graph.specs.Sets.{with_station};

use crate::reach::reached;
use crate::station_set::{ListedStations, StationSet};
use pack_defs::book::Book;
use std::alloc::{AllocError as NoMemory, Global};
use std::collections::BTreeSet;

/// Returns `station` and the stations that it reaches by pairs of the book among the stations on air, ascending. Costs what
/// `component_among` costs, with a binary search in `on` for each membership question.
///
/// # Errors
/// Fails only if memory runs out.
pub fn component(alloc: Global, book: &Book, on: &[u32], station: u32) -> Result<Vec<u32>, NoMemory>
    requires { IsTrue (is_ascending on.now) }
    ensures { IfOk result (λ stations. stations.items ≡ component book.now (with_station on.now station) station) }
{
    component_among(alloc, book, &ListedStations { list: on }, station)
}

/// Returns `station` and the stations that it reaches by pairs of the book among the stations of a set, ascending.
///
/// The cost depends only on these stations and their neighbours, not on the size of the set or the number of pairs. Each costs a lookup
/// of its `neighbours` in the book. Each neighbour costs one question to `on` and a lookup in the ordered set of the reached stations.
///
/// # Errors
/// Fails only if memory runs out.
pub fn component_among<S: StationSet>(
    alloc: Global,
    book: &Book,
    on: &S,
    station: u32,
) -> Result<Vec<u32>, NoMemory>
    requires { IsTrue (is_ascending (S.stations on.now)) }
    ensures component { IfOk result (λ stations. stations.items ≡ component book.now (with_station (S.stations on.now) station) station) }
    ensures ascending { IfOk result (λ stations. IsTrue (is_ascending stations.items)) }
{
    let seen = reached(alloc, book, on, station)?;
    listed(alloc, seen)
}

// Lists the numbers of a set, ascending.
fn listed(alloc: Global, set: BTreeSet<u32>) -> Result<Vec<u32>, NoMemory>
    ensures { IfOk result (λ list. (list.items ≡ set.keys) × IsTrue (is_ascending list.items)) }
{
    let mut list = Vec::with_capacity(alloc, set.len())?;
    for number in set {
        list.push(number)?;
    }
    Ok(list)
}
