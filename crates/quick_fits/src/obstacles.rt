//! For each channel of a station, who blocks the station there, and how much its neighbours want the channel.

ghost use Rattle.std.specs.Prelude.{ℕ, ◌≡◌, ◌==◌, ◌&&◌, ◌||◌, ◌⊎◌, IfOk, IfSome, Some, false, filter, length, not, true};
ghost use Rattle.std.specs.List.{list_any};
ghost use Rattle.std.specs.Option.{is_some};
ghost use Rattle.pack_defs.specs.Lists.{has_entry, is_in};
ghost use Rattle.quick_fits.specs.Obstacles.{AreObstacles, blocks_first, blocks_second, is_unblocked, is_channel_open, moved_map, obstacles_at};

use pack_defs::book::Book;
use pack_defs::channel_map::ChannelMap;
use std::alloc::{AllocError as NoMemory, Global};

/// Who blocks a station on a channel.
#[derive(Clone, Copy, Debug, PartialEq, Eq)]
pub(crate) enum Blocker {
    No,
    One(u32),
    Many,
}

/// A channel as a station meets it.
#[derive(Clone, Copy, Debug)]
pub(crate) struct ChannelObstacles {
    pub(crate) blocker: Blocker,
    // The number of the station's pairs on the channel. More pairs mean that its neighbours want the channel more.
    pub(crate) pairs: u32,
}

/// A channel map in which one station is on another channel than the map says.
#[derive(Clone, Copy)]
pub(crate) struct MovedMap<'a> {
    pub(crate) map: &'a ChannelMap,
    pub(crate) moved: Option<(u32, u8)>,
}

impl<'a> MovedMap<'a> {
    // Checks whether the station is on this channel.
    #[tactic(auto, using(crate::proofs::FreeLemmas::moved))]
    fn is_on(&self, station: u32, c: u8) -> bool
        ensures { result ≡ has_entry (moved_map self.now.map.now self.now.moved) (station, c) }
    {
        self.map.keeps_order();
        let Some(x) = self.moved else {
            return self.map.has(station, c);
        };
        if x.0 == station {
            return x.1 == c;
        }
        self.map.has(station, c)
    }
}

// The number of channels that a `u8` can name.
const CHANNELS: usize = 256;

/// Returns what a station meets on each channel, from channel 0 on, with the other stations as in `stands`. Costs a pass over the
/// station's pairs, with a binary search for each.
///
/// # Errors
/// Fails only if memory runs out.
pub(crate) fn obstacles_by_channel(
    alloc: Global,
    book: &Book,
    stands: MovedMap,
    station: u32,
) -> Result<Vec<ChannelObstacles>, NoMemory>
    ensures { IfOk result (λ ways. AreObstacles book.now (moved_map stands.entry.map.now stands.entry.moved) station ways.items) }
{
    let open = ChannelObstacles {
        blocker: Blocker::No,
        pairs: 0,
    };
    let mut ways = vec![in alloc; open; CHANNELS]?;
    count_first(&mut ways, book, stands, station);
    count_second(&mut ways, book, stands, station);
    Ok(ways)
}

// Records the pairs whose first station this is.
fn count_first(ways: &mut [ChannelObstacles], book: &Book, stands: MovedMap, station: u32)
    requires { length ways.old ≡ 256 }
    ensures size { length ways.new ≡ 256 }
    ensures way { (c : ℕ) → is_channel_open (obstacles_at ways.new c) ≡ (is_channel_open (obstacles_at ways.old c) && not (list_any (blocks_first (moved_map stands.entry.map.now stands.entry.moved) c) (filter (λ p. p.f == station) book.now.pairs))) }
{
    for p in book.pairs_from(station) {
        count_pair(ways, p.a, p.g, stands.is_on(p.g, p.b));
    }
}

// Records the pairs whose second station this is.
fn count_second(ways: &mut [ChannelObstacles], book: &Book, stands: MovedMap, station: u32)
    requires { length ways.old ≡ 256 }
    ensures size { length ways.new ≡ 256 }
    ensures way { (c : ℕ) → is_channel_open (obstacles_at ways.new c) ≡ (is_channel_open (obstacles_at ways.old c) && not (list_any (blocks_second (moved_map stands.entry.map.now stands.entry.moved) c) (filter (λ p. p.g == station) book.now.pairs))) }
{
    for p in book.pairs_to(station) {
        count_pair(ways, p.b, p.f, stands.is_on(p.f, p.a));
    }
}

// Records a pair on a channel, whose other station blocks or not.
fn count_pair(ways: &mut [ChannelObstacles], channel: u8, other: u32, blocks: bool)
    requires { length ways.old ≡ 256 }
    ensures size { length ways.new ≡ 256 }
    ensures way { (c : ℕ) → is_channel_open (obstacles_at ways.new c) ≡ (is_channel_open (obstacles_at ways.old c) && not ((channel == c) && blocks)) }
{
    let at = channel as usize;
    ways[at] = with_pair_counted(ways[at], other, blocks);
}

// Returns the channel with one more pair, whose other station blocks or not.
fn with_pair_counted(way: ChannelObstacles, other: u32, blocks: bool) -> ChannelObstacles
    ensures { is_channel_open result ≡ (is_channel_open way && not blocks) }
{
    let pairs = way.pairs.saturating_add(1);
    if !blocks {
        return ChannelObstacles {
            blocker: way.blocker,
            pairs,
        };
    }
    ChannelObstacles {
        blocker: add_blocker(way.blocker, other),
        pairs,
    }
}

// Returns who blocks once this station blocks too.
fn add_blocker(blocker: Blocker, other: u32) -> Blocker
    ensures { is_unblocked result ≡ false }
{
    match blocker {
        Blocker::No => Blocker::One(other),
        Blocker::One(same) if same == other => blocker,
        _ => Blocker::Many,
    }
}

/// Returns the channel of a domain that nobody blocks and that has the fewest pairs, the lowest if several have.
pub(crate) fn free_channel(domain: &[u8], ways: &[ChannelObstacles]) -> Option<u8>
    requires { length ways.now ≡ 256 }
    ensures some { is_some result ≡ list_any (λ c. is_channel_open (obstacles_at ways.now c)) domain.now }
    ensures free { IfSome result (λ c. (is_in domain.now c ≡ true) × (is_channel_open (obstacles_at ways.now c) ≡ true)) }
{
    let mut best = None;
    for c in domain {
        best = better_channel(ways, best, *c);
    }
    best
}

// Returns the better of the best channel so far and the next one, which counts only if nobody blocks it.
fn better_channel(ways: &[ChannelObstacles], best: Option<u8>, next: u8) -> Option<u8>
    requires { length ways.now ≡ 256 }
    ensures some { is_some result ≡ (is_some best || is_channel_open (obstacles_at ways.now next)) }
    ensures which { (result ≡ best) ⊎ ((result ≡ Some next) × (is_channel_open (obstacles_at ways.now next) ≡ true)) }
{
    let way = ways[next as usize];
    if !is_unblocked(way.blocker) {
        return best;
    }
    let Some(least) = best else {
        return Some(next);
    };
    if ways[least as usize].pairs <= way.pairs {
        return best;
    }
    Some(next)
}

// Checks whether nobody blocks.
fn is_unblocked(blocker: Blocker) -> bool
    ensures { result ≡ is_unblocked blocker }
{
    match blocker {
        Blocker::No => true,
        Blocker::One(_) => false,
        Blocker::Many => false,
    }
}
