//! Writes the transcript of a finished record. The writer moves a clock of its own along the steps. The clock shows
//! which stations are on air at a step's test, and so after how many clauses the step's logs are numbered.

ghost use Rattle.std.specs.Prelude.{◌≡◌, ◌≤◌, ◌+◌, ◌<◌, ◌^◌, [], IfOk, IsTrue, OnOk, length};
ghost use Rattle.pack_defs.specs.ClockRule.{ClockState, opening_state};
ghost use Rattle.pack_defs.specs.Lists.{is_in};
ghost use Rattle.pack_defs.specs.Prices.{prices};
ghost use Rattle.pack_defs.specs.Scenario.{IsWithinLimits, StationsAscend, facilities};
ghost use Rattle.auction_core.specs.Backed.{IsBacked};
ghost use Rattle.auction_core.specs.Clock.{AreStatuses, IsClockOf};
ghost use Rattle.auction_core.specs.State.{tested_set};
ghost use Rattle.auction_core.specs.LogNumbers.{clauses_in, firsts_of};
ghost use Rattle.transcript_text.specs.Fields.{most_counted};
ghost use Rattle.transcript_text.specs.Spelling.{transcript_text};

use crate::line_writers::{push_end, push_start, push_step, push_version};
use crate::test_set::test_set;
use auction_core::clock::Clock;
use auction_core::record::{Ending, Record, Shown, Step};
use auction_core::station_list::place_of;
use cnf_encode::count::clause_count;
use offer_sched::offers::schedule;
use pack_defs::book::Book;
use pack_defs::scenario::Scenario;
use std::alloc::{AllocError as NoMemory, Global};

// Returns how many clauses the formula of a test's set has. The set is the station and those that it reaches among
// the stations on air.
fn test_clauses(
    alloc: Global,
    sc: &Scenario,
    book: &Book,
    clock: &Clock,
    station: u32,
) -> Result<u64, NoMemory>
    requires ascend { StationsAscend sc.now }
    requires known { IsTrue (is_in (facilities sc.now) station) }
    requires stations { length clock.now.station_statuses ≡ length sc.now.stations }
    ensures count { IfOk result (λ n. (st : ClockState) → AreStatuses sc.now st clock.now.station_statuses → n ≡ clauses_in book.now (tested_set sc.now book.now st station)) }
    ensures few { IfOk result (λ n. n + (most_counted + 1) ≤ 2 ^ 63) }
{
    let set = test_set(alloc, sc, book, clock, station)?;
    Ok(clause_count(book, &set))
}

// Returns how many clauses the logs of a step are numbered after. Only a proof from outside and an undecided test
// have logs over their test's set; for any other step the result is 0.
fn log_clauses(
    alloc: Global,
    sc: &Scenario,
    book: &Book,
    clock: &Clock,
    step: &Step,
) -> Result<u64, NoMemory>
    requires ascend { StationsAscend sc.now }
    requires known { IsTrue (is_in (facilities sc.now) step.now.station) }
    requires stations { length clock.now.station_statuses ≡ length sc.now.stations }
    ensures count { IfOk result (λ n. (st : ClockState) → AreStatuses sc.now st clock.now.station_statuses → firsts_of n step.now.shown ≡ firsts_of (clauses_in book.now (tested_set sc.now book.now st step.now.station)) step.now.shown) }
    ensures few { IfOk result (λ n. n + (most_counted + 1) ≤ 2 ^ 63) }
{
    match &step.shown {
        Shown::Outside(_) | Shown::Undecided(_) => {
            return test_clauses(alloc, sc, book, clock, step.station);
        }
        Shown::Empty | Shown::Fits(_) | Shown::Same => return Ok(0),
        Shown::NoChannel(_) | Shown::Refuted { .. } => return Ok(0),
    }
}

/// Returns the transcript of a record, which is backed by this book. The first line names the order in which a round
/// tests the stations. The start, each step, and a last line that counts the steps follow.
///
/// The text is written in one pass. A step costs the length of its text. A step with a proof also costs the pairs of
/// the proof's stations. An undecided step, and one with a proof from outside, also cost the stations of their test
/// and these stations' pairs. Fails only if memory runs out.
pub fn write_transcript(alloc: Global, rec: &Record, book: &Book) -> Result<Vec<u8>, NoMemory>
    requires backed { IsBacked rec.now.scenario book.now rec.now.order rec.now }
    requires done { rec.now.ending ≡ Ending.Done }
    requires limits { IsWithinLimits rec.now.scenario }
    ensures { IfOk result (λ text. text.items ≡ transcript_text rec.now.scenario book.now rec.now) }
{
    let sc = &rec.scenario;
    let prices = schedule(alloc, sc)?;
    let mut clock = Clock::open(alloc, sc)?;
    let mut text = Vec::new(alloc);
    push_transcript(alloc, &mut text, rec, book, &prices, &mut clock)?;
    Ok(text)
}

// Appends the transcript to an empty text. `offers` are the prices of the rounds, and `clock` is the clock before the
// first round.
fn push_transcript(
    alloc: Global,
    text: &mut Vec<u8>,
    rec: &Record,
    book: &Book,
    offers: &[u32],
    clock: &mut Clock,
) -> Result<(), NoMemory>
    requires empty { text.old.items ≡ [] }
    requires backed { IsBacked rec.now.scenario book.now rec.now.order rec.now }
    requires done { rec.now.ending ≡ Ending.Done }
    requires limits { IsWithinLimits rec.now.scenario }
    requires prices { offers.now ≡ prices rec.now.scenario }
    requires clock { IsClockOf rec.now.scenario (opening_state rec.now.scenario) clock.old }
    ensures { OnOk result (text.new.items ≡ transcript_text rec.now.scenario book.now rec.now) }
{
    book.keeps_order();
    let sc = &rec.scenario;
    push_version(text, rec.order)?;
    push_start(text, &rec.start)?;
    for step in rec.steps.as_slice() {
        match place_of(sc.stations.as_slice(), step.station) {
            Some(i) => {
                let clauses = log_clauses(alloc, sc, book, clock, step)?;
                push_step(text, book, clauses, step)?;
                clock.settle(sc, offers, i, step.round, step.shown.shows_room());
            }
            None => unreachable!(),
        }
    }
    push_end(text, rec.steps.as_slice().len() as u64)?;
    Ok(())
}
