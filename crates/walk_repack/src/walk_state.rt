//! The moves of a walk and the map that they lead to: the verified part of a walk's state.

ghost use Rattle.std.specs.Prelude.{◌≡◌, ◌++◌, ◌∷◌, [], OnErr, OnOk, false, length, true};
ghost use Rattle.pack_defs.specs.Book.{domain_of};
ghost use Rattle.pack_defs.specs.ChannelMap.{IsAscending, put};
ghost use Rattle.pack_defs.specs.Lists.{has_entry, is_in};
ghost use Rattle.cert_types.specs.Moves.{has_violation};
ghost use Rattle.walk_repack.specs.WalkState.{AreOnDomains, IsWalkState};

use assign_check::assignment::{channel_in, set_channel};
use pack_defs::book::Book;
use std::alloc::{AllocError as NoMemory, Global};
use std::marker::Model;
use std::snapshot::Snapshot;

/// A walk so far: the moves from a start map, and the map that they lead to. Each move put a station of a violated pair on another
/// channel of its domain, and each move except the last left some pair violated. The book and the start map exist in proofs only.
#[derive(Drop)]
pub(crate) struct WalkState {
    book: Snapshot<Book>,
    start: Snapshot<Vec<(u32, u8)>>,
    moves: Vec<(u32, u8)>,
    entries: Vec<(u32, u8)>,
}

impl Model for WalkState {
    ghost use Rattle.walk_repack.specs.WalkState.{WalkStateView, IsWalkState};

    ghost Value = { WalkStateView };

    ghost view = { λ c. record { book = c.book.value; start = c.start.value.items; moves = c.moves.items; entries = c.entries.items } };

    ghost invariant = { λ c. IsWalkState (record { book = c.book.value; start = c.start.value.items; moves = c.moves.items; entries = c.entries.items }) };
}

impl WalkState {
    /// Returns the walk without moves at this map, in which each station is on a channel of its domain.
    pub(crate) fn new(alloc: Global, book: &Book, entries: Vec<(u32, u8)>) -> WalkState
        requires ascending { IsAscending entries.items }
        requires on_domains { AreOnDomains book.now entries.items }
        ensures { result ≡ record { book = book.now; start = entries.items; moves = []; entries = entries.items } }
    {
        WalkState {
            book: Snapshot::of(book),
            start: Snapshot::of(&entries),
            moves: Vec::new(alloc),
            entries,
        }
    }

    /// Returns the number of moves.
    pub(crate) fn len(&self) -> usize
        ensures { result ≡ length self.now.moves }
    {
        self.moves.len()
    }

    /// Returns the map, each entry a station and its channel.
    pub(crate) fn entries(&self) -> &[(u32, u8)]
        ensures { result.now ≡ self.now.entries }
    {
        &self.entries
    }

    /// Proves that the map of each walk is the one its moves lead to, ascends, and is on its domains; does nothing when run.
    pub(crate) fn keeps_walk_state(&self)
        ensures { IsWalkState self.now }
    {
        let _entries = &self.entries;
    }

    /// Checks whether the map has the station on this channel. Costs one binary search.
    pub(crate) fn is_on_channel(&self, station: u32, channel: u8) -> bool
        ensures { result ≡ has_entry self.now.entries (station, channel) }
    {
        channel_in(&self.entries, station) == Some(channel)
    }

    /// Moves a station of a violated pair to another channel of its domain.
    ///
    /// # Errors
    /// Fails only if memory runs out; then nothing changes.
    pub(crate) fn make(&mut self, station: u32, channel: u8) -> Result<(), NoMemory>
        requires violating { has_violation self.old.book self.old.entries station ≡ true }
        requires on_domain { is_in (domain_of self.old.book station) channel ≡ true }
        requires elsewhere { has_entry self.old.entries (station, channel) ≡ false }
        ensures book { self.new.book ≡ self.old.book }
        ensures start { self.new.start ≡ self.old.start }
        ensures moves { OnOk result (self.new.moves ≡ self.old.moves ++ (station, channel) ∷ []) }
        ensures entries { OnOk result (self.new.entries ≡ put (station, channel) self.old.entries) }
        ensures moves_kept { OnErr result (self.new.moves ≡ self.old.moves) }
        ensures entries_kept { OnErr result (self.new.entries ≡ self.old.entries) }
    {
        self.moves.reserve(1)?;
        set_channel(&mut self.entries, station, channel);
        self.moves.push_reserved((station, channel));
        Ok(())
    }

    /// Returns the map, and with it proves what holds of each walk.
    pub(crate) fn into_entries(self) -> Vec<(u32, u8)>
        ensures entries { result.items ≡ self.entries }
        ensures walk_state { IsWalkState self }
    {
        self.entries
    }

    /// Returns the moves, which are those of a walk.
    pub(crate) fn into_moves(self) -> Vec<(u32, u8)>
        ensures moves { result.items ≡ self.moves }
        ensures walk_state { IsWalkState self }
    {
        self.moves
    }
}
