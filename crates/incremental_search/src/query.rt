//! A query from beginning to end. If several stations have no channel yet, as at the start of an auction, they are tested one after the
//! other, each together with those before it.
//!
//! `search` takes turn after turn, and stays undecided after a given number of learnt lines. If the tested station fits, its fit is
//! adopted, and the search ends with `QueryProgress::Next` if another station waits, otherwise with `QueryProgress::Fits`. If the
//! station is refuted, the search ends with the line of the refutation. A contradiction ends the search too.

ghost use Rattle.std.specs.Bool.{OnTrue};
ghost use Rattle.pack_defs.specs.ChannelMap.{IsAscending};

use crate::engine::Engine;
use crate::policy::{CONFLICTS_BETWEEN_MOVES, MOVES_OF_CONFLICT, Purpose};
use crate::search_scope::NOBODY;
use crate::search_step::StepOutcome;
use local_search::local_search::NOWHERE;
use pack_defs::channel_map::ChannelMap;
use std::alloc::{AllocError as NoMemory, Global};

/// How far a search came.
#[derive(Clone, Copy, Debug, PartialEq, Eq)]
pub(crate) enum QueryProgress {
    /// The search can continue.
    Open,
    /// The tested station fits, and the test of the next one is begun.
    Next,
    /// Every station of the set has a channel.
    Fits,
    /// The tested station can't be in the set, by the line of this number.
    Refuted { line: u32 },
    /// The search's knowledge was about other stations than the query is.
    Lost,
}

impl Engine {
    /// Begins a query of this set. The stations without a channel in the last map are tested.
    pub(crate) fn begin_query(
        &mut self,
        alloc: Global,
        set: &[u32],
        last: &ChannelMap,
        from: Option<&ChannelMap>,
    ) -> Result<(), NoMemory> {
        self.end()?;
        self.tested = NOBODY;
        self.set.clear();
        self.waiting.clear();
        for station in set.iter().rev() {
            self.add_to_set(*station, last.get(*station))?;
        }
        self.test_next(alloc)?;
        if let Some(fit) = from {
            for entry in fit.entries() {
                self.begin_from_entry(entry.0, entry.1)?;
            }
        }
        Ok(())
    }

    /// Begins the test of one of these stations together with the others, which come on air if they are not yet.
    pub(crate) fn begin_one_test(
        &mut self,
        alloc: Global,
        stations: &[u32],
        tested: u32,
    ) -> Result<(), NoMemory> {
        self.end()?;
        self.set.clear();
        for station in stations {
            if let Some(place) = self.grid.place_of(*station) {
                self.set.push(place)?;
                if *station != tested {
                    self.put_on_channel(place, NOWHERE)?;
                }
            }
        }
        match self.grid.place_of(tested) {
            Some(place) => self.begin(alloc, place),
            None => Ok(()),
        }
    }

    /// Searches until the tested station is decided, or this many lines are learnt.
    pub(crate) fn search(
        &mut self,
        alloc: Global,
        conflicts: u32,
    ) -> Result<QueryProgress, NoMemory> {
        if conflicts == 0 {
            return Ok(QueryProgress::Open);
        }
        let mut learnt: u32 = 0;
        for _ in 0..u64::MAX {
            if self.moves_due > 0 && self.find_by_moves()? {
                return self.finish_test(alloc);
            }
            match self.search_step(alloc)? {
                StepOutcome::Continues => {}
                StepOutcome::Learnt => {
                    self.match_conflict();
                    learnt = learnt.saturating_add(1);
                    if learnt >= conflicts {
                        break;
                    }
                }
                StepOutcome::Fits => {
                    self.apply_fit();
                    return self.finish_test(alloc);
                }
                StepOutcome::Refuted { line } => {
                    self.end()?;
                    return Ok(QueryProgress::Refuted { line });
                }
                StepOutcome::Lost => return Ok(QueryProgress::Lost),
            }
        }
        Ok(QueryProgress::Open)
    }

    /// Returns the channels of the set's stations that differ from the last map; none if the set does not ascend.
    pub(crate) fn fit(
        &self,
        alloc: Global,
        set: &[u32],
        last: &ChannelMap,
    ) -> Result<Option<ChannelMap>, NoMemory> {
        let mut entries = Vec::new(alloc);
        for station in set {
            if let Some(channel) = self.channel_of(*station) {
                if last.get(*station) != Some(channel) {
                    entries.push((*station, channel))?;
                }
            }
        }
        if !ascends(&entries) {
            return Ok(None);
        }
        let map = ChannelMap::of(alloc, &entries)?;
        Ok(Some(map))
    }

    // Puts a station of the set on its channel, or queues the station for its test.
    fn add_to_set(&mut self, station: u32, channel: Option<u8>) -> Result<(), NoMemory> {
        let Some(place) = self.grid.place_of(station) else {
            return Ok(());
        };
        self.set.push(place)?;
        match channel {
            None => {
                self.local_search.set_channel(&self.grid, place, NOWHERE);
                self.waiting.push(place)?;
            }
            Some(channel) => {
                if let Some(var) = self.grid.var_of(place, channel) {
                    self.put_on_channel(place, var)?;
                }
            }
        }
        Ok(())
    }

    // Begins the test of the next waiting station, if one waits. Otherwise every station has a channel.
    fn test_next(&mut self, alloc: Global) -> Result<QueryProgress, NoMemory> {
        let Some(place) = self.waiting.pop() else {
            return Ok(QueryProgress::Fits);
        };
        self.begin(alloc, place)?;
        Ok(QueryProgress::Next)
    }

    // Counts a conflict, for which the local search makes moves too.
    fn match_conflict(&mut self) {
        self.unmatched = self.unmatched.saturating_add(1);
        if self.unmatched >= CONFLICTS_BETWEEN_MOVES && self.purpose == Purpose::Answers {
            self.moves_due = self.unmatched.saturating_mul(MOVES_OF_CONFLICT);
            self.unmatched = 0;
        }
    }

    fn begin_from_entry(&mut self, station: u32, channel: u8) -> Result<(), NoMemory> {
        let Some(place) = self.grid.place_of(station) else {
            return Ok(());
        };
        let Some(var) = self.grid.var_of(place, channel) else {
            return Ok(());
        };
        if self.search_scope.is_in_set(place) {
            self.begin_from(place, var)?;
        }
        Ok(())
    }

    // Ends the test of a station whose fit is adopted, and begins the next one, if a station waits.
    fn finish_test(&mut self, alloc: Global) -> Result<QueryProgress, NoMemory> {
        self.end()?;
        if self.waiting.is_empty() {
            return Ok(QueryProgress::Fits);
        }
        let place = self.tested;
        let channel = self.search_scope.station_state(place).channel;
        self.put_on_channel(place, channel)?;
        self.test_next(alloc)
    }

    fn channel_of(&self, station: u32) -> Option<u8> {
        let place = self.grid.place_of(station)?;
        let var = self.search_scope.station_state(place).channel;
        if self.is_channel(var) {
            Some(self.grid.channel(var))
        } else {
            None
        }
    }
}

// Checks whether the stations of the entries ascend.
fn ascends(entries: &[(u32, u8)]) -> bool
    ensures { OnTrue result (IsAscending entries.now) }
{
    for i in 1..entries.len() {
        if entries[i - 1].0 >= entries[i].0 {
            return false;
        }
    }
    true
}
