//! What a walk finds before each move.

ghost use Rattle.std.specs.Prelude.{◌≡◌, ◌≢◌, ◌<◌, IsTrue, length, true};
ghost use Rattle.pack_defs.specs.Lists.{is_ascending, is_in};
ghost use Rattle.walk_repack.specs.WalkState.{IsViolated};
ghost use Rattle.walk_repack.specs.Steps.{MapStatusIs};

use crate::guide::Guide;
use crate::pick::violated;
use crate::walk_state::WalkState;
use pack_defs::book::Book;
use pack_defs::pair::Pair;

/// What a walk finds in its map.
#[derive(Clone, Copy, Debug)]
pub(crate) enum MapStatus {
    /// No pair is violated.
    Clean,
    /// This pair is violated, and each of its stations has a domain of one channel.
    Dead(Pair),
    /// This station of a violated pair is on this channel, and has other channels in its domain.
    Open { station: u32, channel: u8 },
}

/// Finds a violated pair, if there is one, and picks which of its stations to move.
pub(crate) fn map_status(book: &Book, walk_state: &WalkState, guide: &mut Guide) -> MapStatus
    requires { book.now ≡ walk_state.now.book }
    ensures { MapStatusIs walk_state.now.book walk_state.now.entries result }
{
    let pick = guide.pair();
    match violated(book, walk_state, pick) {
        None => MapStatus::Clean,
        Some(pair) => movable_station(book, walk_state, pair, guide.coin()),
    }
}

// Picks which station of a violated pair to move: if both can move, the first on heads and the second on tails.
fn movable_station(book: &Book, walk_state: &WalkState, pair: Pair, heads: bool) -> MapStatus
    requires book { book.now ≡ walk_state.now.book }
    requires violated { IsViolated walk_state.now.book walk_state.now.entries pair }
    ensures { MapStatusIs walk_state.now.book walk_state.now.entries result }
{
    book.keeps_order();
    walk_state.keeps_walk_state();
    let one = MapStatus::Open {
        station: pair.f,
        channel: pair.a,
    };
    let other = MapStatus::Open {
        station: pair.g,
        channel: pair.b,
    };
    let choices = book.domain(pair.f).len();
    let other_choices = book.domain(pair.g).len();
    if choices > 1 {
        if heads || other_choices < 2 {
            return one;
        }
        return other;
    }
    if other_choices > 1 {
        return other;
    }
    MapStatus::Dead(pair)
}

/// Returns another channel than the station's own: the one at this place of its domain, unless that is its own.
pub(crate) fn other_channel(domain: &[u8], own: u8, at: usize) -> u8
    requires ascending { IsTrue (is_ascending domain.now) }
    requires choice { 1 < length domain.now }
    ensures on_domain { is_in domain.now result ≡ true }
    ensures other { result ≢ own }
{
    if at < domain.len() && domain[at] != own {
        return domain[at];
    }
    if domain[0] != own {
        return domain[0];
    }
    domain[1]
}
