//! The neighbours of each station of a book, that is, the stations that interfere with it.
//!
//! The lists are built once, with the book, each from the pairs of its own station alone. The other station of each pair is inserted into
//! the ascending list. Most often the list has that station already, since two stations share a pair for each conflicting pair of
//! channels.

ghost use Rattle.std.specs.Prelude.{◌≡◌, ℕ, [], ◌∷◌, IfOk, IsTrue, OnOk, map};
ghost use Rattle.std.specs.List.{list_all};
ghost use Rattle.std.specs.List.Sorted.{IsNonDecreasingBy};
ghost use Rattle.pack_defs.specs.Book.{AreInOrder, is_within};
ghost use Rattle.pack_defs.specs.Lists.{is_ascending};
ghost use Rattle.pack_defs.specs.Neighbours.{HasInserted, IsListFor, lists_for};
ghost use Rattle.pack_defs.specs.PairOrders.{IsBySecond};

use crate::domain::Domain;
use crate::items::Items;
use crate::pair::Pair;
use crate::station_pairs::{pairs_with_first, pairs_with_second};
use std::alloc::{AllocError as NoMemory, Global};

/// Returns the neighbours of each station of these domains, from the pairs in two orders. Each pair costs two binary searches among the
/// neighbours of a station.
///
/// # Errors
/// Fails only if memory runs out.
pub fn neighbour_lists(
    alloc: Global,
    domains: &[Domain],
    pairs: &[Pair],
    by_second: &[Pair],
) -> Result<Vec<Items<u32>>, NoMemory>
    requires domains { AreInOrder domains.now }
    requires within { IsTrue (list_all (is_within domains.now) pairs.now) }
    requires rises { IsNonDecreasingBy (λ p. p.f) pairs.now }
    requires by_second { IsBySecond pairs.now by_second.now }
    ensures { IfOk result (λ lists. (top : ℕ) → lists.items ≡ lists_for (record { top = top; domains = domains.now; pairs = pairs.now })) }
{
    let mut lists = Vec::with_capacity(alloc, domains.len())?;
    for domain in domains {
        lists.push(neighbour_list(alloc, domain.station, pairs, by_second)?)?;
    }
    Ok(lists)
}

/// Copies each list.
///
/// # Errors
/// Fails only if memory runs out.
pub fn copy_lists(alloc: Global, lists: &[Items<u32>]) -> Result<Vec<Items<u32>>, NoMemory>
    ensures { IfOk result (λ copy. copy.items ≡ lists.now) }
{
    let mut copy = Vec::with_capacity(alloc, lists.len())?;
    for list in lists {
        copy.push(Items::from_vec(Vec::from_slice(alloc, list.as_slice())?))?;
    }
    Ok(copy)
}

// Returns the neighbours of one station: the first stations of the pairs to it, and the second stations of the pairs from it.
fn neighbour_list(
    alloc: Global,
    station: u32,
    pairs: &[Pair],
    by_second: &[Pair],
) -> Result<Items<u32>, NoMemory>
    requires rises { IsNonDecreasingBy (λ p. p.f) pairs.now }
    requires by_second { IsBySecond pairs.now by_second.now }
    ensures { IfOk result (IsListFor pairs.now station) }
{
    let mut near = Vec::new(alloc);
    add_firsts(&mut near, pairs_with_second(by_second, station))?;
    add_seconds(&mut near, pairs_with_first(pairs, station))?;
    Ok(Items::from_vec(near))
}

// Inserts the first station of each of these pairs into an ascending list.
fn add_firsts(near: &mut Vec<u32>, pairs: &[Pair]) -> Result<(), NoMemory>
    requires { IsTrue (is_ascending near.old.items) }
    ensures { OnOk result (HasInserted near.old.items (map (λ p. p.f) pairs.now) near.new.items) }
{
    for p in pairs {
        put(near, p.f)?;
    }
    Ok(())
}

// Inserts the second station of each of these pairs into an ascending list.
fn add_seconds(near: &mut Vec<u32>, pairs: &[Pair]) -> Result<(), NoMemory>
    requires { IsTrue (is_ascending near.old.items) }
    ensures { OnOk result (HasInserted near.old.items (map (λ p. p.g) pairs.now) near.new.items) }
{
    for p in pairs {
        put(near, p.g)?;
    }
    Ok(())
}

// Inserts a station into an ascending list, unless the list has it.
fn put(near: &mut Vec<u32>, station: u32) -> Result<(), NoMemory>
    requires { IsTrue (is_ascending near.old.items) }
    ensures { OnOk result (HasInserted near.old.items (station ∷ []) near.new.items) }
{
    match near.binary_search(&station) {
        Ok(_) => Ok(()),
        Err(place) => {
            near.insert(place, station)?;
            Ok(())
        }
    }
}
