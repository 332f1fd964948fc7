//! What a channel map violates at the stations that were changed, without a copy of the map.

ghost use Rattle.std.specs.Prelude.{◌≡◌, ◌==◌, IsTrue, filter};
ghost use Rattle.std.specs.List.{list_any};
ghost use Rattle.pack_defs.specs.ChannelMap.{IsAscending, overlaid};
ghost use Rattle.pack_defs.specs.Lists.{has_entry};
ghost use Rattle.assign_check.specs.Changes.{violates_at_some};
ghost use Rattle.assign_check.specs.Fault.{is_violated};

use pack_defs::book::Book;
use pack_defs::channel_map::ChannelMap;

/// Checks whether a pair of some changed station has both entries in the map that `changes` written over `last` gives. If `last`
/// violates no pair, this decides whether the new map violates one. Takes no memory. Each changed station costs four binary
/// searches and a pass over its pairs. Each pair that is on the station's channel costs up to two more searches.
pub fn violates_at_some(book: &Book, last: &ChannelMap, changes: &ChannelMap) -> bool
    ensures { result ≡ violates_at_some book.now (overlaid last.now changes.now) changes.now }
{
    last.keeps_order();
    changes.keeps_order();
    for x in changes.entries() {
        if violates_from(book, last, changes, *x) || violates_to(book, last, changes, *x) {
            return true;
        }
    }
    false
}

// Whether a pair from this change's station has both its entries in the map.
fn violates_from(book: &Book, last: &ChannelMap, changes: &ChannelMap, own: (u32, u8)) -> bool
    requires last { IsAscending last.now }
    requires changes { IsAscending changes.now }
    requires own { IsTrue (has_entry changes.now own) }
    ensures { result ≡ list_any (is_violated (overlaid last.now changes.now)) (filter (λ p. p.f == own.0) book.now.pairs) }
{
    for p in book.pairs_from(own.0) {
        if p.a == own.1 && is_on_channel(last, changes, p.g, p.b) {
            return true;
        }
    }
    false
}

// Whether a pair to this change's station has both its entries in the map.
fn violates_to(book: &Book, last: &ChannelMap, changes: &ChannelMap, own: (u32, u8)) -> bool
    requires last { IsAscending last.now }
    requires changes { IsAscending changes.now }
    requires own { IsTrue (has_entry changes.now own) }
    ensures { result ≡ list_any (is_violated (overlaid last.now changes.now)) (filter (λ p. p.g == own.0) book.now.pairs) }
{
    for p in book.pairs_to(own.0) {
        if p.b == own.1 && is_on_channel(last, changes, p.f, p.a) {
            return true;
        }
    }
    false
}

// Whether the map has the station on this channel.
#[tactic(auto, using(crate::proofs::Changed::standing))]
fn is_on_channel(last: &ChannelMap, changes: &ChannelMap, station: u32, c: u8) -> bool
    requires last { IsAscending last.now }
    requires changes { IsAscending changes.now }
    ensures { result ≡ has_entry (overlaid last.now changes.now) (station, c) }
{
    match changes.get(station) {
        Some(d) => d == c,
        None => last.has(station, c),
    }
}
