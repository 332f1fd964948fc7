//! The test that a task is a query: what a caller checks before it asks a solver.

ghost use Rattle.std.specs.Prelude.{◌≡◌, ◌==◌, ◌&&◌, ◌||◌, IsTrue, is_none};
ghost use Rattle.std.specs.Bool.{OnTrue};
ghost use Rattle.std.specs.List.{list_all};
ghost use Rattle.pack_defs.specs.Book.{domain_of};
ghost use Rattle.pack_defs.specs.Lists.{has_station, is_ascending, is_in};
ghost use Rattle.assign_check.specs.Fault.{violation};
ghost use Rattle.cert_types.specs.Certificate.{IsTaskOf};
ghost use Rattle.cert_types.specs.Query.{IsQuery, has_channels, places_others, is_last_map, is_on_domains, is_query};

use crate::subset::ascends;
use crate::task::Task;
use assign_check::check::violation;
use pack_defs::book::Book;
use pack_defs::channel_map::ChannelMap;
use pack_defs::numbers::is_in;

/// Checks whether a solver may be asked this task under this book. All of this must hold:
///
/// - The set ascends, and each of its stations has a channel.
/// - Each entry of the last map is of a station of the set, on a channel of its domain.
/// - The last map violates no pair.
/// - If a station is tested, the last map has every other station of the set.
///
/// Costs one binary search for each station and each entry, and a pass over the pairs of the last map's stations. Takes no memory.
/// An auction's queries always pass, so the auction need not call this.
#[tactic(auto, unfolding(crate::specs::Query::is_query))]
pub fn is_query(book: &Book, task: &Task) -> bool
    ensures exact { result ≡ is_query book.now task.now }
    ensures query { OnTrue result (IsQuery book.now task.now) }
    ensures task { OnTrue result (IsTaskOf book.now task.now) }
{
    let set = task.set.as_slice();
    ascends(set) && has_channels(book, set) && is_last_map(book, task)
}

// Whether each station has some channel.
fn has_channels(book: &Book, set: &[u32]) -> bool
    ensures { result ≡ has_channels book.now set.now }
{
    for s in set {
        if book.domain(*s).is_empty() {
            return false;
        }
    }
    true
}

// Whether the last map has only stations of the ascending set, on their domains, and violates no pair. It must have all of the set
// except the tested station.
fn is_last_map(book: &Book, task: &Task) -> bool
    requires { IsTrue (is_ascending task.now.set) }
    ensures { result ≡ is_last_map book.now task.now }
{
    is_on_domains(book, task.set.as_slice(), task.last.entries())
        && violation(book, &task.last).is_none()
        && places_others(task.station, task.set.as_slice(), &task.last)
}

// Whether each station of the set except the tested one is in the map. If none is tested, any map passes.
fn places_others(tested: Option<u32>, set: &[u32], map: &ChannelMap) -> bool
    ensures { result ≡ places_others tested set.now map.now }
{
    match tested {
        Some(s) => places_all_but(s, set, map),
        None => true,
    }
}

// Whether each station of the set except this one is in the map.
fn places_all_but(tested: u32, set: &[u32], map: &ChannelMap) -> bool
    ensures { result ≡ list_all (λ t. (t == tested) || has_station map.now t) set.now }
{
    for t in set {
        if !is_tested_or_placed(tested, map, *t) {
            return false;
        }
    }
    true
}

// Whether a station is this one or is in the map.
fn is_tested_or_placed(tested: u32, map: &ChannelMap, station: u32) -> bool
    ensures { result ≡ ((station == tested) || has_station map.now station) }
{
    station == tested || map.get(station).is_some()
}

/// Whether each entry is of a station of the ascending set, on a channel of its domain.
pub(crate) fn is_on_domains(book: &Book, set: &[u32], entries: &[(u32, u8)]) -> bool
    requires { IsTrue (is_ascending set.now) }
    ensures { result ≡ is_on_domains book.now set.now entries.now }
{
    for x in entries {
        if !is_on_domain(book, set, *x) {
            return false;
        }
    }
    true
}

// Whether the entry is of a station of the ascending set, on a channel of its domain.
fn is_on_domain(book: &Book, set: &[u32], x: (u32, u8)) -> bool
    requires { IsTrue (is_ascending set.now) }
    ensures { result ≡ (is_in set.now x.0 && is_in (domain_of book.now x.0) x.1) }
{
    is_in(set, x.0) && book.domain(x.0).contains(&x.1)
}
