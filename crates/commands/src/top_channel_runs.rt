//! Tests whether the start set fits at a top channel, and seeks the least one at which it does.
//!
//! For each top channel that is tested, the auction of the start set alone is run. Its start test asks whether the set fits up to
//! that channel. The records of these auctions are kept, and the two that certify what was found are picked. `seek` calls it, and
//! `target_seek` chooses the top channels.

ghost use Rattle.std.specs.Prelude.{◌≡◌, ◌≢◌, ◌≤◌, ◌<◌, ◌++◌, ◌-◌, [], ◌∷◌, IfErr, IfOk, List, MatchOption, None, OnOk, false, length, true};
ghost use Rattle.std.specs.List.{list_any};
ghost use Rattle.pack_defs.specs.Limits.{GREATEST_CHANNEL, LEAST_CHANNEL};
ghost use Rattle.auction_core.specs.Setup.{IsOfAuction};
ghost use Rattle.target_seek.specs.TopChannels.{IsSought, IsTruth, SeekBase};
ghost use Rattle.commands.specs.Records.{IsRecordBy};
ghost use Rattle.commands.specs.Seek.{AreTopRecords, IsFoundTop, IsSeekable, IsTopRecord, Picks, answer_of, asked_of, base_of, ending_by, inputs_at, same_answer, has_top_answer};

use crate::inputs::Inputs;
use crate::inputs::sources::Sources;
use crate::run::auction_of;
use auction_core::record::{Ending, Record};
use pack_defs::limits::LEAST_CHANNEL;
use scenario_json::join::join;
use scenario_json::start_only::start_only;
use solver_gate::gate::Gate;
use std::alloc::{AllocError as NoMemory, Global};
use std::marker::Model;
use std::sync::Wait;
use std::thread::Threads;
use target_seek::search::TopSearch;
use target_seek::sought::Sought;
use target_seek::top_test::TopAnswer;

/// The least top channel that is tested.
const FIRST: u8 = LEAST_CHANNEL;

/// The record of the auction of the start set alone up to a top channel.
#[derive(Drop)]
pub struct TopRecord {
    pub top: u8,
    pub rec: Record,
}

/// What was read, and the records of the top channels that were tested so far.
#[derive(Drop)]
pub struct TopRecords {
    sources: Sources,
    kept: Vec<TopRecord>,
}

impl Model for TopRecords {
    ghost use Rattle.commands.specs.Seek.{AreTopRecords, TopRecordsView, base_of};

    ghost Value = { TopRecordsView };

    ghost view = { λ t. record { base = base_of t.sources; kept = t.kept.items } };

    ghost invariant = { λ t. AreTopRecords (base_of t.sources) t.kept.items };
}

/// A top channel up to which the start set fits, with its record and, if it is above 14, the record of one channel less.
#[derive(Drop)]
pub struct LeastTop {
    pub top: u8,
    pub rec: Record,
    pub below: Option<Record>,
    /// Whether the test of one channel less is undecided. If it is not, and `top` is above 14, the set does not fit up to that
    /// channel.
    pub is_open: bool,
}

/// What a search for the least top channel found.
#[derive(Drop)]
pub enum FoundTop {
    /// The start set does not fit up to the scenario's own top channel.
    NoneFits(Record),
    /// Whether it fits up to the scenario's own top channel is undecided.
    LastOpen(Record),
    /// A top channel up to which it fits.
    Found(LeastTop),
}

// Returns whether the start set fits, by how the auction of the start set alone ended.
fn answer_of(ending: Ending) -> TopAnswer
    ensures { result ≡ answer_of ending }
{
    match ending {
        Ending::Done => TopAnswer::Fits,
        Ending::StartRefuted => TopAnswer::Unfit,
        Ending::StartUndecided => TopAnswer::Open,
    }
}

impl TopRecords {
    /// Returns what was read, with no top channel tested yet.
    fn new(alloc: Global, sources: Sources) -> TopRecords
        requires { IsSeekable (base_of sources) }
        ensures { result ≡ record { base = base_of sources; kept = [] } }
    {
        TopRecords {
            sources,
            kept: Vec::new(alloc),
        }
    }

    /// Returns the inputs of the auction of the start set alone up to this top channel. Fails only if memory runs out, since each
    /// station has a domain row.
    fn inputs_at(&self, alloc: Global, top: u8) -> Result<Inputs, NoMemory>
        requires least { LEAST_CHANNEL ≤ top }
        requires most { top ≤ GREATEST_CHANNEL }
        ensures inputs { IfOk result (λ i. i ≡ inputs_at self.now.base top) }
        ensures auction { IfOk result (λ i. IsOfAuction i.scenario i.book) }
    {
        inputs_up_to(alloc, &self.sources, top)
    }

    /// Runs the auction of the start set alone up to this top channel, keeps its record, and returns whether the set fits. Fails
    /// only if memory runs out, and then nothing is kept.
    fn ask<G: Gate + Sync, W: Threads + Wait + Sync>(
        &mut self,
        rt: &W,
        alloc: Global,
        gate: &G,
        top: u8,
    ) -> Result<TopAnswer, NoMemory>
        requires least { LEAST_CHANNEL ≤ top }
        requires most { top ≤ GREATEST_CHANNEL }
        ensures base { self.new.base ≡ self.old.base }
        ensures asked { IfOk result (λ answer. asked_of self.new.kept ≡ asked_of self.old.kept ++ record { top = top; answer = answer } ∷ []) }
        ensures unasked { IfErr result (λ _. self.new ≡ self.old) }
    {
        let inputs = self.inputs_at(alloc, top)?;
        let rec = auction_of(rt, alloc, &inputs, gate)?;
        let answer = answer_of(rec.ending);
        self.keep(top, rec)?;
        Ok(answer)
    }

    /// Proves that each record is of the auction of the start set alone up to its top channel. Does nothing when run.
    fn keeps_records(&self)
        ensures { AreTopRecords self.now.base self.now.kept }
    {
        let _kept = &self.kept;
    }

    /// Keeps the record of this top channel. Fails only if memory runs out, and then nothing is kept.
    fn keep(&mut self, top: u8, rec: Record) -> Result<(), NoMemory>
        requires { IsTopRecord self.old.base (record { top = top; rec = rec }) }
        ensures kept { OnOk result (self.new ≡ record self.old { kept = self.old.kept ++ record { top = top; rec = rec } ∷ [] }) }
        ensures not_kept { IfErr result (λ _. self.new ≡ self.old) }
    {
        self.kept.push(TopRecord { top, rec })?;
        Ok(())
    }
}

// Returns the inputs of the auction of the start set alone up to this top channel. The counts of the rows file are zero, since
// the auction does not depend on them.
fn inputs_up_to(alloc: Global, sources: &Sources, top: u8) -> Result<Inputs, NoMemory>
    requires seekable { IsSeekable (base_of sources.now) }
    requires least { LEAST_CHANNEL ≤ top }
    requires most { top ≤ GREATEST_CHANNEL }
    ensures inputs { IfOk result (λ i. i ≡ inputs_at (base_of sources.now) top) }
    ensures auction { IfOk result (λ i. IsOfAuction i.scenario i.book) }
{
    let scenario = start_only(alloc, &sources.scenario, top)?;
    let Ok(book) = join(alloc, &scenario, &sources.domains, &sources.pairs) else {
        return Err(NoMemory);
    };
    Ok(Inputs {
        scenario,
        book,
        self_pairs: 0,
        strangers: 0,
    })
}

// What a search found, and the records of the top channels that it tested.
#[derive(Drop)]
struct TopSearchRun {
    sought: Sought,
    records: TopRecords,
}

// Seeks the least top channel, from 14 to the scenario's own, and keeps the records of those that it tests.
fn search_tops<G: Gate + Sync, W: Threads + Wait + Sync>(
    rt: &W,
    alloc: Global,
    sources: Sources,
    gate: &G,
) -> Result<TopSearchRun, NoMemory>
    requires { IsSeekable (base_of sources) }
    ensures base { IfOk result (λ s. s.records.base ≡ base_of sources) }
    ensures asked { IfOk result (λ s. IsSought LEAST_CHANNEL sources.scenario.top (asked_of s.records.kept) s.sought) }
    ensures truth { IfOk result (λ s. IsTruth (base_of sources) LEAST_CHANNEL sources.scenario.top s.sought) }
    ensures asked_few { IfOk result (λ s. length (asked_of s.records.kept) ≤ 7) }
{
    let last = sources.scenario.top;
    let mut records = TopRecords::new(alloc, sources);
    let mut search = TopSearch::new(FIRST, last);
    while let Some(top) = search.next() {
        let answer = records.ask(rt, alloc, gate, top)?;
        search = search.with_top_answer(answer);
    }
    records.keeps_records();
    let sought = search.found();
    Ok(TopSearchRun { sought, records })
}

// A top channel, and the answer to its test.
#[derive(Clone, Copy)]
struct AnsweredTop {
    top: u8,
    answer: TopAnswer,
}

// Whether the two answers are the same.
fn is_same(one: TopAnswer, other: TopAnswer) -> bool
    ensures { result ≡ same_answer one other }
{
    match one {
        TopAnswer::Fits => matches!(other, TopAnswer::Fits),
        TopAnswer::Unfit => matches!(other, TopAnswer::Unfit),
        TopAnswer::Open => matches!(other, TopAnswer::Open),
    }
}

// Whether the record is of this top channel and has this answer.
fn has_top_answer(x: &TopRecord, answered: AnsweredTop) -> bool
    ensures { result ≡ has_top_answer answered.top answered.answer x.now }
{
    x.top == answered.top && is_same(answer_of(x.rec.ending), answered.answer)
}

// The two records that are picked so far, each if it was found.
#[derive(Drop)]
struct TwoRecords {
    first: Option<Record>,
    second: Option<Record>,
}

// Returns what is picked after one more record. That record is picked if it is one of the two that are asked for, and else
// dropped.
fn pick_from(
    picked: TwoRecords,
    x: TopRecord,
    first: AnsweredTop,
    second: AnsweredTop,
) -> TwoRecords
    requires apart { first.top ≢ second.top }
    ensures first { (base : SeekBase) (all left : List TopRecord) → IsTopRecord base x →
        Picks base all (left ++ x ∷ []) first.top first.answer picked.first → Picks base all left first.top first.answer result.first }
    ensures second { (base : SeekBase) (all left : List TopRecord) → IsTopRecord base x →
        Picks base all (left ++ x ∷ []) second.top second.answer picked.second → Picks base all left second.top second.answer result.second }
{
    if has_top_answer(&x, first) {
        return TwoRecords {
            first: Some(x.rec),
            second: picked.second,
        };
    }
    if has_top_answer(&x, second) {
        return TwoRecords {
            first: picked.first,
            second: Some(x.rec),
        };
    }
    picked
}

// Returns the records of these two top channels with these answers, each if there is one. The other records are dropped.
fn pick_records(records: TopRecords, first: AnsweredTop, second: AnsweredTop) -> TwoRecords
    requires apart { first.top ≢ second.top }
    ensures first { Picks records.base records.kept [] first.top first.answer result.first }
    ensures second { Picks records.base records.kept [] second.top second.answer result.second }
{
    let TopRecords {
        sources: _,
        mut kept,
    } = records;
    let mut picked = TwoRecords {
        first: None,
        second: None,
    };
    while let Some(x) = kept.pop() {
        picked = pick_from(picked, x, first, second);
    }
    picked
}

// Returns the record of this top channel with this answer. `pick_records` picks two records, and is also asked for top channel 0, which
// no record has.
fn only_record(records: TopRecords, top: u8, answer: TopAnswer) -> Record
    requires least { LEAST_CHANNEL ≤ top }
    requires has_answer { list_any (has_top_answer top answer) records.kept ≡ true }
    ensures { IsRecordBy (inputs_at records.base top) result (ending_by answer) }
{
    let answered = AnsweredTop { top, answer };
    let other = AnsweredTop { top: 0, answer };
    let TwoRecords { first, second: _ } = pick_records(records, answered, other);
    let Some(rec) = first else {
        unreachable!();
    };
    rec
}

// Returns what was found, if the set fits up to this top channel and the test of one channel less has this answer.
fn found_above_first(records: TopRecords, top: u8, below: TopAnswer) -> LeastTop
    requires least { LEAST_CHANNEL < top }
    requires has_answer { list_any (has_top_answer top TopAnswer.Fits) records.kept ≡ true }
    requires answered_below { list_any (has_top_answer (top - 1) below) records.kept ≡ true }
    ensures top { result.top ≡ top }
    ensures rec { IsRecordBy (inputs_at records.base top) result.rec Ending.Done }
    ensures below { MatchOption result.below ⊥ (λ rec. IsRecordBy (inputs_at records.base (top - 1)) rec (ending_by below)) }
    ensures is_open { result.is_open ≡ same_answer below TopAnswer.Open }
{
    let at = AnsweredTop {
        top,
        answer: TopAnswer::Fits,
    };
    let less = AnsweredTop {
        top: top - 1,
        answer: below,
    };
    let TwoRecords { first, second } = pick_records(records, at, less);
    let Some(rec) = first else {
        unreachable!();
    };
    LeastTop {
        top,
        rec,
        below: second,
        is_open: is_same(below, TopAnswer::Open),
    }
}

// Returns what was found, if the set fits up to the first top channel. No lower one is tested.
fn found_at_first_top(records: TopRecords) -> LeastTop
    requires { list_any (has_top_answer LEAST_CHANNEL TopAnswer.Fits) records.kept ≡ true }
    ensures top { result.top ≡ LEAST_CHANNEL }
    ensures rec { IsRecordBy (inputs_at records.base LEAST_CHANNEL) result.rec Ending.Done }
    ensures below { result.below ≡ None }
    ensures is_open { result.is_open ≡ false }
{
    LeastTop {
        top: FIRST,
        rec: only_record(records, FIRST, TopAnswer::Fits),
        below: None,
        is_open: false,
    }
}

// Returns what was found, by the answer of the search, with the records that certify it.
fn found_top_of(records: TopRecords, last: u8, sought: Sought) -> FoundTop
    requires last { last ≡ records.base.scenario.top }
    requires least { LEAST_CHANNEL ≤ last }
    requires sought { IsSought LEAST_CHANNEL last (asked_of records.kept) sought }
    requires truth { IsTruth records.base LEAST_CHANNEL last sought }
    ensures { IsFoundTop records.base result }
{
    match sought {
        Sought::NoneFits => FoundTop::NoneFits(only_record(records, last, TopAnswer::Unfit)),
        Sought::LastOpen => FoundTop::LastOpen(only_record(records, last, TopAnswer::Open)),
        Sought::Least { top } => {
            if top == FIRST {
                return FoundTop::Found(found_at_first_top(records));
            }
            FoundTop::Found(found_above_first(records, top, TopAnswer::Unfit))
        }
        Sought::AboveOpen { top } => FoundTop::Found(found_above_first(
            records,
            top,
            TopAnswer::Open,
        )),
    }
}

/// Returns the least top channel, from 14 to the scenario's own, at which the start set fits, as far as the tests decide it.
///
/// At most seven top channels are tested: the scenario's own, and then by binary search. For each, the auction of the start set
/// alone is run, and its solvers race as in any auction. A top channel whose test is undecided counts as one at which the set
/// does not fit.
///
/// # Errors
///
/// Memory ran out. Then no record is returned.
pub fn least_top<G: Gate + Sync, W: Threads + Wait + Sync>(
    rt: &W,
    alloc: Global,
    sources: Sources,
    gate: &G,
) -> Result<FoundTop, NoMemory>
    requires { IsSeekable (base_of sources) }
    ensures { IfOk result (IsFoundTop (base_of sources)) }
{
    let last = sources.scenario.top;
    let TopSearchRun { sought, records } = search_tops(rt, alloc, sources, gate)?;
    Ok(found_top_of(records, last, sought))
}
