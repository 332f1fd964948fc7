//! The check of a channel map on a set of stations. Fits of solvers and of transcripts pass through here.

ghost use Rattle.std.specs.Prelude.{◌≡◌, ◌==◌, IsTrue, filter, find};
ghost use Rattle.pack_defs.specs.ChannelMap.{IsAscending};
ghost use Rattle.pack_defs.specs.Lists.{has_entry, is_ascending};
ghost use Rattle.assign_check.specs.Fault.{extra, first_fault, is_violated, missing, off_domain, violation};

use crate::fault::MapFault;
use pack_defs::book::Book;
use pack_defs::channel_map::ChannelMap;
use pack_defs::pair::Pair;

/// Returns the first fault of a channel map on an ascending set of stations. `None` says that the map is clean and of exactly the
/// set. The faults in order are:
///
/// - the least station of the set without a channel,
/// - the least station with a channel that is not in the set,
/// - the least station whose channel is not in its domain,
/// - the first pair of the book with both entries in the map.
///
/// Takes no memory. Costs one binary search for each station of the set. Each station of the map costs four, and passes over its
/// domain and the pairs from it. Each pair that is on its station's channel costs one more.
pub fn first_fault(book: &Book, set: &[u32], map: &ChannelMap) -> Option<MapFault>
    requires { IsTrue (is_ascending set.now) }
    ensures { result ≡ first_fault book.now set.now map.now }
{
    let entries = map.entries();
    if let Some(fault) = missing(set, map) {
        return Some(fault);
    }
    if let Some(fault) = extra(set, entries) {
        return Some(fault);
    }
    if let Some(fault) = off_domain(book, entries) {
        return Some(fault);
    }
    violation(book, map)
}

// Returns the least station of the set without a channel.
fn missing(set: &[u32], map: &ChannelMap) -> Option<MapFault>
    ensures { result ≡ missing set.now map.now }
{
    for s in set {
        if map.get(*s).is_none() {
            return Some(MapFault::Missing(*s));
        }
    }
    None
}

// Returns the first station of the entries that is not in the set.
fn extra(set: &[u32], entries: &[(u32, u8)]) -> Option<MapFault>
    requires { IsTrue (is_ascending set.now) }
    ensures { result ≡ extra set.now entries.now }
{
    for x in entries {
        if set.binary_search(&x.0).is_err() {
            return Some(MapFault::Extra(x.0));
        }
    }
    None
}

// Returns the first station of the entries whose channel is not in its domain.
fn off_domain(book: &Book, entries: &[(u32, u8)]) -> Option<MapFault>
    ensures { result ≡ off_domain book.now entries.now }
{
    for x in entries {
        if !book.domain(x.0).contains(&x.1) {
            return Some(MapFault::OffDomain(x.0));
        }
    }
    None
}

/// Returns the first pair of the book with both entries in the map, if there is one. Takes no memory. Each station of the map costs
/// two binary searches and a pass over the pairs from it. Each pair that is on the station's channel costs one more search.
pub fn violation(book: &Book, map: &ChannelMap) -> Option<MapFault>
    requires { IsAscending map.now }
    ensures { result ≡ violation book.now map.now }
{
    book.keeps_order();
    for x in map.entries() {
        if let Some(pair) = violated_from(book, map, *x) {
            return Some(MapFault::Violates(pair));
        }
    }
    None
}

// Returns the first pair from this entry's station with both entries in the map.
fn violated_from(book: &Book, map: &ChannelMap, own: (u32, u8)) -> Option<Pair>
    requires ascending { IsAscending map.now }
    requires own { IsTrue (has_entry map.now own) }
    ensures { result ≡ find (is_violated map.now) (filter (λ p. p.f == own.0) book.now.pairs) }
{
    for p in book.pairs_from(own.0) {
        if p.a == own.1 && map.has(p.g, p.b) {
            return Some(*p);
        }
    }
    None
}
