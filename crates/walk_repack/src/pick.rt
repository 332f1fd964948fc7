//! A violated pair: picked by the policy, and checked before use.

ghost use Rattle.std.specs.Prelude.{◌≡◌, ◌==◌, Contains, IfNone, IfSome, false, find, filter, true};
ghost use Rattle.pack_defs.specs.declared.pair.Pair.{Pair};
ghost use Rattle.pack_defs.specs.ChannelMap.{IsAscending};
ghost use Rattle.pack_defs.specs.Lists.{has_entry};
ghost use Rattle.assign_check.specs.Fault.{is_violated};
ghost use Rattle.cert_types.specs.Moves.{violates_some};
ghost use Rattle.walk_repack.specs.WalkState.{IsViolated};

use crate::walk_state::WalkState;
use pack_defs::book::Book;
use pack_defs::pair::Pair;

/// The place of a pair in the book: among the pairs from a station, or among those to a station.
#[derive(Clone, Copy, Debug)]
pub(crate) struct Pick {
    pub(crate) station: u32,
    pub(crate) is_first: bool,
    pub(crate) index: usize,
}

/// Returns a violated pair of the walk's map: the picked one, if it is violated, otherwise the first of all, if there is one. Without a
/// violated pick the cost is a pass over the pairs from each station.
pub(crate) fn violated(book: &Book, walk_state: &WalkState, pick: Option<Pick>) -> Option<Pair>
    requires { book.now ≡ walk_state.now.book }
    ensures some { IfSome result (λ p. IsViolated walk_state.now.book walk_state.now.entries p) }
    ensures none { IfNone result (violates_some walk_state.now.book walk_state.now.entries ≡ false) }
{
    if let Some(pair) = picked_pair(book, walk_state, pick) {
        return Some(pair);
    }
    first_violated(book, walk_state)
}

// Returns the picked pair, if it exists and is violated.
fn picked_pair(book: &Book, walk_state: &WalkState, pick: Option<Pick>) -> Option<Pair>
    requires { book.now ≡ walk_state.now.book }
    ensures { IfSome result (λ p. IsViolated walk_state.now.book walk_state.now.entries p) }
{
    let Some(pick) = pick else {
        return None;
    };
    let pairs = listed(book, pick);
    if pick.index >= pairs.len() {
        return None;
    }
    let pair = pairs[pick.index];
    if walk_state.is_on_channel(pair.f, pair.a) && walk_state.is_on_channel(pair.g, pair.b) {
        return Some(pair);
    }
    None
}

// Returns the list of pairs that the pick refers to.
fn listed(book: &Book, pick: Pick) -> &[Pair]
    ensures { (p : Pair) → Contains result.now p → Contains book.now.pairs p }
{
    if pick.is_first {
        return book.pairs_from(pick.station);
    }
    book.pairs_to(pick.station)
}

// Returns the first violated pair, by a pass over the pairs from each station.
fn first_violated(book: &Book, walk_state: &WalkState) -> Option<Pair>
    requires { book.now ≡ walk_state.now.book }
    ensures some { IfSome result (λ p. IsViolated walk_state.now.book walk_state.now.entries p) }
    ensures none { IfNone result (violates_some walk_state.now.book walk_state.now.entries ≡ false) }
{
    walk_state.keeps_walk_state();
    for x in walk_state.entries() {
        if let Some(pair) = violated_from(book, walk_state, *x) {
            return Some(pair);
        }
    }
    None
}

// Returns the first violated pair from this entry's station.
fn violated_from(book: &Book, walk_state: &WalkState, own: (u32, u8)) -> Option<Pair>
    requires book { book.now ≡ walk_state.now.book }
    requires ascending { IsAscending walk_state.now.entries }
    requires own { has_entry walk_state.now.entries own ≡ true }
    ensures { result ≡ find (is_violated walk_state.now.entries) (filter (λ p. p.f == own.0) walk_state.now.book.pairs) }
{
    for p in book.pairs_from(own.0) {
        if p.a == own.1 && walk_state.is_on_channel(p.g, p.b) {
            return Some(*p);
        }
    }
    None
}
