//! The steps of an auction, kept so that a step without a query takes a few bytes. `test_history` owns the list; `step_check` reads its
//! lines.

ghost use Rattle.std.specs.Prelude.{◌≡◌, ◌≤◌, ◌+◌, ◌++◌, ◌∷◌, [], IfOk, MatchOption, OnOk, length, option_map, slice_get, true, unwrap_or, ⊤};
ghost use Rattle.std.specs.Vec.Iter.{into_iter_items};
ghost use Rattle.auction_core.specs.State.{fit_of};
ghost use Rattle.auction_core.specs.StepList.{fit_at, step_line_of, names_only, shown_of_line, has_verdict, verdicts_after, verdicts_with, step_kind_of};

use crate::record::{Shown, Step};
use pack_defs::channel_map::ChannelMap;
use pack_defs::items::Items;
use std::alloc::{AllocError as NoMemory, Global};
use std::marker::Model;
use std::vec::IntoIter;

/// How a step was settled.
#[derive(Clone, Copy, Debug, PartialEq, Eq)]
pub enum StepKind {
    /// By a certificate of its own, which settled its query.
    Verdict,
    /// By the test of its station one round before.
    SameSet,
    /// By its station having no channel.
    Channelless,
}

/// A step without its certificate.
#[derive(Clone, Copy, Debug, PartialEq, Eq)]
pub struct StepLine {
    /// The round, from 1.
    pub round: u32,
    /// The station, by its facility number.
    pub station: u32,
    pub step_kind: StepKind,
}

/// The steps of an auction, in order. A step without a query takes twelve bytes.
#[derive(Debug, Drop)]
pub struct StepList {
    lines: Vec<StepLine>,
    told: Vec<Shown>,
}

impl Model for StepList {
    ghost use Rattle.std.specs.Prelude.{◌-◌, vec_capacity, vec_len};
    ghost use Rattle.auction_core.specs.StepList.{IsKept, StepListView, merged};

    ghost Value = { StepListView };

    ghost view = { λ l. record {
      steps = merged l.lines.items l.told.items;
      told = l.told.items;
      room = vec_capacity l.lines - vec_len l.lines;
      verdicts = vec_capacity l.told - vec_len l.told;
    } };

    ghost invariant = { λ l. IsKept l.lines.items l.told.items };
}

impl StepList {
    /// Returns a list without steps.
    pub fn none(alloc: Global) -> StepList
        ensures steps { result.steps ≡ [] }
        ensures told { result.told ≡ [] }
    {
        StepList {
            lines: Vec::new(alloc),
            told: Vec::new(alloc),
        }
    }

    /// Returns the number of steps.
    pub fn len(&self) -> usize
        ensures { result ≡ length self.now.steps }
    {
        self.lines.len()
    }

    /// Returns the number of verdicts: the steps that have a certificate of their own.
    pub fn told(&self) -> usize
        ensures { result ≡ length self.now.told }
    {
        self.told.len()
    }

    /// Returns the step at this place, from 0, without its certificate: round, station and step kind. Returns `None` behind the
    /// last step. A `StepKind::Channelless` step is always settled by its own station.
    pub fn line(&self, place: usize) -> Option<StepLine>
        ensures line { result ≡ option_map step_line_of (slice_get self.now.steps place) }
        ensures names { MatchOption (slice_get self.now.steps place) ⊤ (λ x. names_only x.station x.shown ≡ true) }
    {
        match self.lines.get(place) {
            Some(line) => Some(*line),
            None => None,
        }
    }

    /// Returns the fit at this place among the verdicts, counted from 1. Returns `None` at 0, behind the last verdict, or if the
    /// verdict there is no fit.
    pub fn fit(&self, place: usize) -> Option<&ChannelMap>
        ensures { unwrap_or (option_map (λ m. m.now) result) [] ≡ fit_at self.now.told place }
    {
        if place == 0 {
            return None;
        }
        let Some(shown) = self.told.get(place - 1) else {
            return None;
        };
        fit_of(shown)
    }

    /// Reserves room for `more` further steps and for one verdict. Success or failure, no room is lost and nothing else changes.
    ///
    /// # Errors
    ///
    /// Fails only if memory runs out.
    pub fn reserve(&mut self, more: usize) -> Result<(), NoMemory>
        ensures room { OnOk result (more ≤ self.new.room) }
        ensures verdicts { OnOk result (1 ≤ self.new.verdicts) }
        ensures room_kept { self.old.room ≤ self.new.room }
        ensures verdicts_kept { self.old.verdicts ≤ self.new.verdicts }
        ensures steps { self.new.steps ≡ self.old.steps }
        ensures told { self.new.told ≡ self.old.told }
    {
        self.lines.reserve(more)?;
        self.told.reserve(1)
    }

    /// Appends a step. Allocates nothing.
    pub fn push(&mut self, step: Step)
        requires names { names_only step.station step.shown ≡ true }
        requires room { 1 ≤ self.old.room }
        requires verdict { has_verdict (step_kind_of step.shown) ≡ true → 1 ≤ self.old.verdicts }
        ensures steps { self.new.steps ≡ self.old.steps ++ step ∷ [] }
        ensures told { self.new.told ≡ verdicts_with self.old.told step.shown }
        ensures room { self.old.room ≤ self.new.room + 1 }
    {
        let Step {
            round,
            station,
            shown,
        } = step;
        let step_kind = step_kind_of(&shown);
        self.lines.push_reserved(StepLine {
            round,
            station,
            step_kind,
        });
        if !has_verdict(step_kind) {
            return;
        }
        self.told.push_reserved(shown);
    }

    /// Returns the steps in one list.
    ///
    /// # Errors
    ///
    /// Fails only if memory runs out.
    pub(crate) fn into_items(self, alloc: Global) -> Result<Items<Step>, NoMemory>
        ensures { IfOk result (λ steps. steps ≡ self.steps) }
    {
        let StepList { lines, told } = self;
        let mut steps = Vec::with_capacity(alloc, lines.len())?;
        let mut told = told.into_iter();
        for line in &lines {
            steps.push(Step {
                round: line.round,
                station: line.station,
                shown: shown_of_line(line, &mut told),
            })?;
        }
        Ok(Items::from_vec(steps))
    }
}

// Returns the step kind of a step settled this way.
fn step_kind_of(shown: &Shown) -> StepKind
    ensures { result ≡ step_kind_of shown.now }
{
    match shown {
        Shown::Empty | Shown::Fits(_) => StepKind::Verdict,
        Shown::Same => StepKind::SameSet,
        Shown::NoChannel(_) => StepKind::Channelless,
        Shown::Refuted { .. } | Shown::Outside(_) => StepKind::Verdict,
        Shown::Undecided(_) => StepKind::Verdict,
    }
}

// Whether a step of this kind has a verdict of its own.
fn has_verdict(step_kind: StepKind) -> bool
    ensures { result ≡ has_verdict step_kind }
{
    match step_kind {
        StepKind::Verdict => true,
        StepKind::SameSet | StepKind::Channelless => false,
    }
}

// Returns the entries of a fit, if the step was settled by one.
fn fit_of(shown: &Shown) -> Option<&ChannelMap>
    ensures { option_map (λ m. m.now) result ≡ fit_of shown.now }
{
    match shown {
        Shown::Fits(delta) => Some(delta),
        _ => None,
    }
}

// Returns how the step of this line was settled. Takes its verdict, if it has one, from the front of `told`.
fn shown_of_line(line: &StepLine, told: &mut IntoIter<Shown>) -> Shown
    ensures shown { result ≡ shown_of_line line.now.step_kind line.now.station (into_iter_items told.old) }
    ensures told { into_iter_items told.new ≡ verdicts_after line.now.step_kind (into_iter_items told.old) }
{
    match line.step_kind {
        StepKind::Verdict => told.next().unwrap_or(Shown::Empty),
        StepKind::SameSet => Shown::Same,
        StepKind::Channelless => Shown::NoChannel(line.station),
    }
}
