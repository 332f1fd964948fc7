//! A channel for the tested station while the others stay, or with one of them repaired, that is, moved to another channel.

ghost use Rattle.std.specs.Prelude.{ℕ, ◌≡◌, IfOk, true};
ghost use Rattle.pack_defs.specs.Book.{domain_of};
ghost use Rattle.pack_defs.specs.Lists.{is_in};
ghost use Rattle.quick_fits.specs.Obstacles.{IsFreeProposal, changed, is_free};

use crate::obstacles::{Blocker, ChannelObstacles, MovedMap, free_channel, obstacles_by_channel};
use pack_defs::book::Book;
use pack_defs::channel_map::ChannelMap;
use std::alloc::{AllocError as NoMemory, Global};

/// A proposal: a channel for the tested station, and optionally a channel for one station that blocks it there.
#[derive(Clone, Copy, Debug, PartialEq, Eq)]
pub(crate) struct Proposal {
    pub(crate) own: (u32, u8),
    pub(crate) moved: Option<(u32, u8)>,
}

impl Proposal {
    /// Returns the channels that the proposal changes, ascending by station.
    ///
    /// # Errors
    /// Fails only if memory runs out.
    #[tactic(auto, using(crate::proofs::FreeLemmas::changing))]
    pub(crate) fn changes(self, alloc: Global) -> Result<ChannelMap, NoMemory>
        ensures { IfOk result (λ map. map ≡ changed self.own self.moved) }
    {
        let own = self.own;
        let Some(moved) = self.moved else {
            return ChannelMap::of(alloc, &[own]);
        };
        if own.0 < moved.0 {
            return ChannelMap::of(alloc, &[own, moved]);
        }
        if own.0 == moved.0 {
            return ChannelMap::of(alloc, &[own]);
        }
        ChannelMap::of(alloc, &[moved, own])
    }
}

/// Returns the first proposal for a station beside a map. The first choice is the free channel that its neighbours want least. The
/// second is a channel that only one station blocks, if that station then has a free channel.
///
/// # Errors
/// Fails only if memory runs out.
pub(crate) fn propose(
    alloc: Global,
    book: &Book,
    map: &ChannelMap,
    station: u32,
) -> Result<Option<Proposal>, NoMemory>
    ensures { (c : ℕ) → is_in (domain_of book.now station) c ≡ true → is_free book.now map.now station c ≡ true → IfOk result (IsFreeProposal book.now map.now station) }
{
    let ways = obstacles_by_channel(alloc, book, MovedMap { map, moved: None }, station)?;
    if let Some(c) = free_channel(book.domain(station), &ways) {
        return Ok(Some(Proposal {
            own: (station, c),
            moved: None,
        }));
    }
    repair(alloc, book, map, station, &ways)
}

// Returns the first channel of a station that only one other station blocks, if that station can move.
fn repair(
    alloc: Global,
    book: &Book,
    map: &ChannelMap,
    station: u32,
    ways: &[ChannelObstacles],
) -> Result<Option<Proposal>, NoMemory> {
    for c in book.domain(station) {
        let Some(t) = only_blocker(ways, *c) else {
            continue;
        };
        if let Some(d) = free_channel_for(alloc, book, map, (station, *c), t)? {
            return Ok(Some(Proposal {
                own: (station, *c),
                moved: Some((t, d)),
            }));
        }
    }
    Ok(None)
}

// Returns the station that alone blocks a channel.
fn only_blocker(ways: &[ChannelObstacles], c: u8) -> Option<u32> {
    match ways.get(c as usize)?.blocker {
        Blocker::One(t) => Some(t),
        _ => None,
    }
}

// Returns a channel that is free for station `t` once another station has moved.
fn free_channel_for(
    alloc: Global,
    book: &Book,
    map: &ChannelMap,
    moved: (u32, u8),
    t: u32,
) -> Result<Option<u8>, NoMemory> {
    let stands = MovedMap {
        map,
        moved: Some(moved),
    };
    let ways = obstacles_by_channel(alloc, book, stands, t)?;
    Ok(free_channel(book.domain(t), &ways))
}
