//! The test history: what later tests need to know of the tests so far. `clock_run` records each settled test here. A test that would
//! repeat the one before is recognised without storing any earlier set.

ghost use Rattle.std.specs.Prelude.{◌≡◌, ◌≤◌, ◌<◌, ◌+◌, ℕ, [], IfOk, IsTrue, OnOk, is_some, length, map, option_map, slice_index, true, unwrap_or};
ghost use Rattle.pack_defs.specs.Lists.{is_ascending, is_in};
ghost use Rattle.pack_defs.specs.Limits.{MOST_STATIONS};
ghost use Rattle.auction_core.specs.ComponentLabels.{label_of, labelled, relabelled, touches_since};
ghost use Rattle.auction_core.specs.TestHistory.{with_settled_step};
ghost use Rattle.auction_core.specs.State.{fit_of, last_fit};
ghost use Rattle.auction_core.specs.StepList.{names_only, has_verdict, step_kind_of};

use crate::air_map::ids;
use crate::component_labels::ComponentLabels;
use crate::record::{Shown, Step};
use crate::step_list::StepList;
use pack_defs::book::Book;
use pack_defs::channel_map::ChannelMap;
use pack_defs::items::Items;
use pack_defs::station::Station;
use std::alloc::{AllocError as NoMemory, Global};
use std::marker::Model;

/// The components of the stations on air and the steps so far. For each station also the number of stations on air at its last
/// test, and the place of its last fit.
#[derive(Debug, Drop)]
pub struct TestHistory {
    component_labels: ComponentLabels,
    on_air: u32,
    seen: Vec<u32>,
    steps: StepList,
    // Places among the verdicts of the steps, counted from 1; 0 before a station's first fit.
    fits: Vec<usize>,
}

impl Model for TestHistory {
    ghost use Rattle.std.specs.Prelude.{IsTrue};
    ghost use Rattle.pack_defs.specs.Lists.{is_ascending};
    ghost use Rattle.auction_core.specs.TestHistory.{AreLastFits, AreSeen, TestHistoryView};

    ghost Value = { TestHistoryView };

    ghost view = { λ p. record {
      component_labels = p.component_labels;
      on_air = p.on_air;
      seen = p.seen.items;
      steps = p.steps.steps;
      room = p.steps.room;
      verdicts = p.steps.verdicts;
    } };

    ghost invariant = { λ p. IsTrue (is_ascending p.component_labels.stations) × AreSeen p.component_labels.stations p.on_air p.seen.items × AreLastFits p.component_labels.stations p.steps.steps p.steps.told p.fits.items };
}

impl TestHistory {
    /// Returns the history with no station on air and no step.
    ///
    /// # Errors
    ///
    /// Fails only if memory runs out.
    pub fn none(alloc: Global, stations: &[Station]) -> Result<TestHistory, NoMemory>
        requires { IsTrue (is_ascending (map (λ x. x.id) stations.now)) }
        ensures stations { IfOk result (λ p. p.component_labels.stations ≡ map (λ x. x.id) stations.now) }
        ensures labels { IfOk result (λ p. (s : ℕ) → label_of p.component_labels s ≡ 0) }
        ensures on_air { IfOk result (λ p. p.on_air ≡ 0) }
        ensures long { IfOk result (λ p. length p.seen ≡ length stations.now) }
        ensures seen { IfOk result (λ p. (i : ℕ) → slice_index p.seen i ≡ 0) }
        ensures steps { IfOk result (λ p. p.steps ≡ []) }
    {
        Ok(TestHistory {
            component_labels: ComponentLabels::none(alloc, &ids(alloc, stations)?)?,
            on_air: 0,
            seen: vec![in alloc; 0; stations.len()]?,
            steps: StepList::none(alloc),
            fits: vec![in alloc; 0; stations.len()]?,
        })
    }

    /// Returns the components of the stations on air.
    pub fn component_labels(&self) -> &ComponentLabels
        ensures { result.now ≡ self.now.component_labels }
    {
        &self.component_labels
    }

    /// Returns the steps so far.
    pub fn steps(&self) -> &StepList
        ensures { result.now.steps ≡ self.now.steps }
    {
        &self.steps
    }

    /// Returns how many stations are on air.
    pub fn on_air(&self) -> u32
        ensures { result ≡ self.now.on_air }
    {
        self.on_air
    }

    /// Reserves room for `more` further steps and for one verdict. Success or failure, no room is lost and nothing else changes.
    ///
    /// # Errors
    ///
    /// Fails only if memory runs out.
    pub fn reserve(&mut self, more: usize) -> Result<(), NoMemory>
        ensures room { OnOk result (more ≤ self.new.room) }
        ensures verdicts { OnOk result (1 ≤ self.new.verdicts) }
        ensures room_kept { self.old.room ≤ self.new.room }
        ensures verdicts_kept { self.old.verdicts ≤ self.new.verdicts }
        ensures same { self.new ≡ record self.old { room = self.new.room; verdicts = self.new.verdicts } }
    {
        self.steps.reserve(more)
    }

    /// Puts the station on air and merges it with the components that it interferes with. Allocates nothing. Cost: a binary search
    /// for each neighbour of the station, and a pass over all stations for each merged component.
    pub fn put_on_air(&mut self, book: &Book, station: u32)
        requires known { IsTrue (is_in self.old.component_labels.stations station) }
        requires few { self.old.on_air < MOST_STATIONS }
        ensures same { self.new ≡ record self.old { component_labels = self.new.component_labels; on_air = self.old.on_air + 1 } }
        ensures stations { self.new.component_labels.stations ≡ self.old.component_labels.stations }
        ensures labels { (z : ℕ) → label_of self.new.component_labels z ≡ relabelled book.now (labelled self.old.component_labels) (label_of self.old.component_labels) station (self.old.on_air + 1) z }
    {
        self.on_air += 1;
        self.component_labels.join(book, station, self.on_air);
    }

    /// Records the settled test of the station at this place. Allocates nothing.
    pub fn note(&mut self, place: usize, step: Step)
        requires place { place < length self.old.component_labels.stations }
        requires station { slice_index self.old.component_labels.stations place ≡ step.station }
        requires names { names_only step.station step.shown ≡ true }
        requires room { 1 ≤ self.old.room }
        requires verdict { has_verdict (step_kind_of step.shown) ≡ true → 1 ≤ self.old.verdicts }
        ensures same { self.new ≡ with_settled_step self.old place step self.new.room self.new.verdicts }
        ensures room { self.old.room ≤ self.new.room + 1 }
    {
        let is_fit = is_fit(&step.shown);
        self.seen[place] = self.on_air;
        self.steps.push(step);
        if !is_fit {
            return;
        }
        self.fits[place] = self.steps.told();
    }

    /// Returns whether the station at this place interferes with a station on air whose component changed since the station's last
    /// test. Cost: a binary search for each neighbour of the station.
    pub(crate) fn has_changed(&self, book: &Book, place: usize, station: u32) -> bool
        requires { place < length self.now.component_labels.stations }
        ensures { result ≡ touches_since book.now self.now.component_labels station (slice_index self.now.seen place + 1) }
    {
        self.component_labels
            .touches_since(book, station, self.seen[place] + 1)
    }

    /// Returns the entries of the last fit of the station at this place, if it had one.
    pub fn last_fit(&self, place: usize) -> Option<&ChannelMap>
        requires { place < length self.now.component_labels.stations }
        ensures { unwrap_or (option_map (λ m. m.now) result) [] ≡ last_fit self.now.steps (slice_index self.now.component_labels.stations place) [] }
    {
        self.steps.fit(self.fits[place])
    }

    /// Returns the steps in one list.
    ///
    /// # Errors
    ///
    /// Fails only if memory runs out.
    pub(crate) fn into_steps(self, alloc: Global) -> Result<Items<Step>, NoMemory>
        ensures { IfOk result (λ steps. steps ≡ self.steps) }
    {
        let TestHistory { steps, .. } = self;
        steps.into_items(alloc)
    }
}

// Whether the step was settled by a fit.
fn is_fit(shown: &Shown) -> bool
    ensures { result ≡ is_some (fit_of shown.now) }
{
    matches!(shown, Shown::Fits(_))
}
