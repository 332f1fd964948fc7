//! Reads the steps of a transcript. `read`, `reader` and `prefix_reading` call `read_remaining_steps`.

ghost use Rattle.std.specs.Prelude.{◌≡◌, ◌≤◌, IfOk};
ghost use Rattle.pack_defs.specs.Scenario.{StationsAscend};
ghost use Rattle.transcript_text.specs.Fields.{most_counted};
ghost use Rattle.transcript_text.specs.Reading.{IsHeadCounted, fit_step, log_step, next_step, outside_step, step_at, step_of, undecided_step};
ghost use Rattle.transcript_text.specs.Pieces.{ArePrefixSteps, IsAtEnd, ReadsOn, stopped};
ghost use Rattle.transcript_text.specs.Steps.{Gives};

use crate::error::TextErr;
use crate::fields::{TextLines, next_line, word_at};
use crate::head::{Head, StepTest};
use crate::heads::head_at;
use crate::log_lines::{entries_at, log_at, stations_of};
use crate::reading::{NumberedLog, Receipts, numbered_log, receipts_at};
use auction_core::record::{Shown, Step};
use auction_core::transcript::{Transcript, TranscriptStep};
use cert_types::answer::Refutation;
use cert_types::outside::OutsideProof;
use cnf_encode::count::clause_count;
use pack_defs::book::Book;
use pack_defs::channel_map::ChannelMap;
use pack_defs::items::Items;
use pack_defs::order::Order;
use pack_defs::scenario::Scenario;
use rup_check::line::Log;
use std::alloc::Global;
use std::marker::Model;

// Returns a step of a transcript.
fn step_of(test: StepTest, shown: Shown, firsts: Vec<u64>) -> TranscriptStep
    ensures { result ≡ step_of test shown firsts.items }
{
    TranscriptStep {
        step: Step {
            round: test.round,
            station: test.station,
            shown,
        },
        firsts: Items::from_vec(firsts),
    }
}

// Reads a `fit` step: `count` entries.
#[tactic(auto, unfolding(crate::specs::Reading::fit_step))]
fn fit_step<'a>(
    alloc: Global,
    sc: &Scenario,
    test: StepTest,
    count: u64,
    lines: TextLines<'a>,
) -> Result<(TranscriptStep, TextLines<'a>), TextErr>
    requires { StationsAscend sc.now }
    ensures { Gives (λ x. x) (fit_step sc.now test count lines.entry) result }
{
    let (entries, rest) = entries_at(alloc, sc, count, lines)?;
    let delta = ChannelMap::of(alloc, &entries)?;
    let step = step_of(test, Shown::Fits(delta), Vec::new(alloc));
    Ok((step, rest))
}

// Reads a `log` step: the stations on the next line, and the log over their clauses.
#[tactic(auto, unfolding(crate::specs::Reading::log_step))]
fn log_step<'a>(
    alloc: Global,
    sc: &Scenario,
    book: &Book,
    test: StepTest,
    worker: u32,
    count: u64,
    lines: TextLines<'a>,
) -> Result<(TranscriptStep, TextLines<'a>), TextErr>
    requires ascend { StationsAscend sc.now }
    requires few { count ≤ most_counted }
    ensures { Gives (λ x. x) (log_step sc.now book.now test worker count lines.entry) result }
{
    let (line, rest) = next_line(lines)?;
    let line = word_at(b"on", line)?;
    let subset = stations_of(alloc, sc, line.number, line.into_rest())?;
    let first = clause_count(book, &subset) + 1;
    let (log, rest) = log_at(alloc, first, count, rest)?;
    let how = Refutation::Proof {
        subset: Items::from_vec(subset),
        log: Log { lines: log },
    };
    let step = step_of(test, Shown::Refuted { worker, how }, Vec::new(alloc));
    Ok((step, rest))
}

// Reads an `outside` step: a log whose first line may have any number.
#[tactic(auto, unfolding(crate::specs::Reading::outside_step))]
fn outside_step<'a>(
    alloc: Global,
    test: StepTest,
    count: u64,
    lines: TextLines<'a>,
) -> Result<(TranscriptStep, TextLines<'a>), TextErr>
    requires { count ≤ most_counted }
    ensures { Gives (λ x. x) (outside_step test count lines.entry) result }
{
    let (found, rest) = numbered_log(alloc, count, lines)?;
    let NumberedLog { log, first } = found;
    let firsts = vec![in alloc; first]?;
    let step = step_of(test, Shown::Outside(OutsideProof { log }), firsts);
    Ok((step, rest))
}

// Reads an `undecided` step: a receipt of each worker.
#[tactic(auto, unfolding(crate::specs::Reading::undecided_step))]
fn undecided_step<'a>(
    alloc: Global,
    sc: &Scenario,
    test: StepTest,
    lines: TextLines<'a>,
) -> Result<(TranscriptStep, TextLines<'a>), TextErr>
    requires { StationsAscend sc.now }
    ensures { Gives (λ x. x) (undecided_step sc.now test lines.entry) result }
{
    let (found, rest) = receipts_at(alloc, sc, lines)?;
    let Receipts { receipts, firsts } = found;
    let shown = Shown::Undecided(Items::from_vec(receipts));
    Ok((step_of(test, shown, firsts), rest))
}

// Reads the step that begins with this first line, or returns no step if it is the `end` line.
#[tactic(auto, unfolding(crate::specs::Reading::step_at))]
fn step_at<'a>(
    alloc: Global,
    sc: &Scenario,
    book: &Book,
    head: Head,
    lines: TextLines<'a>,
) -> Result<(Option<TranscriptStep>, TextLines<'a>), TextErr>
    requires ascend { StationsAscend sc.now }
    requires few { IsHeadCounted head }
    ensures { Gives (λ x. x) (step_at sc.now book.now head lines.entry) result }
{
    match head {
        Head::Fit { test, count } => {
            let (step, rest) = fit_step(alloc, sc, test, count, lines)?;
            return Ok((Some(step), rest));
        }
        Head::Same { test } => {
            let step = step_of(test, Shown::Same, Vec::new(alloc));
            return Ok((Some(step), lines));
        }
        Head::NoChannel { test } => {
            let shown = Shown::NoChannel(test.station);
            return Ok((Some(step_of(test, shown, Vec::new(alloc))), lines));
        }
        Head::Log {
            test,
            worker,
            count,
        } => {
            let (step, rest) = log_step(alloc, sc, book, test, worker, count, lines)?;
            return Ok((Some(step), rest));
        }
        Head::Dead { test, worker, pair } => {
            let how = Refutation::Dead(pair);
            let shown = Shown::Refuted { worker, how };
            return Ok((Some(step_of(test, shown, Vec::new(alloc))), lines));
        }
        Head::Outside { test, count } => {
            let (step, rest) = outside_step(alloc, test, count, lines)?;
            return Ok((Some(step), rest));
        }
        Head::Undecided { test } => {
            let (step, rest) = undecided_step(alloc, sc, test, lines)?;
            return Ok((Some(step), rest));
        }
        Head::End => return Ok((None, lines)),
    }
}

// Reads the next step after `steps` steps, or returns no step at the `end` line.
#[tactic(auto, unfolding(crate::specs::Reading::next_step))]
fn next_step<'a>(
    alloc: Global,
    sc: &Scenario,
    book: &Book,
    steps: u64,
    lines: TextLines<'a>,
) -> Result<(Option<TranscriptStep>, TextLines<'a>), TextErr>
    requires { StationsAscend sc.now }
    ensures { Gives (λ x. x) (next_step sc.now book.now steps lines.entry) result }
{
    let (line, rest) = next_line(lines)?;
    let head = head_at(sc, steps, line)?;
    step_at(alloc, sc, book, head, rest)
}

/// What was read: the transcript so far, the lines after it, and whether its `end` line was read.
#[derive(Drop)]
pub(crate) struct StepsRead<'a> {
    pub(crate) begun: Transcript,
    pub(crate) rest: TextLines<'a>,
    pub(crate) ended: bool,
}

impl<'a> Model for StepsRead<'a> {
    ghost use Rattle.transcript_text.specs.Pieces.{StepsSoFar};

    ghost Value = { StepsSoFar };

    ghost view = { λ s. record { begun = s.begun; rest = s.rest; ended = s.ended } };
}

// Returns what was read, with these steps.
fn steps_so_far<'a>(
    order: Order,
    start: Shown,
    steps: Vec<TranscriptStep>,
    rest: TextLines<'a>,
    ended: bool,
) -> StepsRead<'a>
    ensures { result ≡ record { begun = record { order = order; start = start; steps = steps.items }; rest = rest.entry; ended = ended } }
{
    let steps = Items::from_vec(steps);
    StepsRead {
        begun: Transcript {
            order,
            start,
            steps,
        },
        rest,
        ended,
    }
}

// Returns what was read if only lines are missing; passes any other error on.
fn stopped<'a>(why: TextErr, read: StepsRead<'a>) -> Result<StepsRead<'a>, TextErr>
    ensures { result ≡ stopped why read.entry }
{
    match why {
        TextErr::Version => return Err(TextErr::Version),
        TextErr::BadLine { n } => return Err(TextErr::BadLine { n }),
        TextErr::Truncated => return Ok(read),
        TextErr::NoMemory => return Err(TextErr::NoMemory),
    }
}

/// Reads steps after those of `begun`, up to the `end` line or as far as they are complete. Returns them with the
/// lines that are not read.
///
/// # Errors
///
/// `BadLine` for the first invalid line, `NoMemory` if memory runs out. Missing lines are no error.
pub(crate) fn read_remaining_steps<'a>(
    alloc: Global,
    sc: &Scenario,
    book: &Book,
    begun: Transcript,
    lines: TextLines<'a>,
) -> Result<StepsRead<'a>, TextErr>
    requires { StationsAscend sc.now }
    ensures read { ReadsOn sc.now book.now begun lines.entry result }
    ensures waits { IfOk result (λ x. IsAtEnd sc.now book.now x) }
    ensures there { ArePrefixSteps sc.now book.now begun lines.entry result }
{
    let Transcript {
        order,
        start,
        steps,
    } = begun;
    let mut steps = steps.into_vec();
    let mut rest = lines;
    loop {
        match next_step(alloc, sc, book, steps.len() as u64, rest.same_lines()) {
            Ok((next, after)) => match next {
                Some(step) => {
                    rest = after;
                    steps.push(step)?;
                }
                None => return Ok(steps_so_far(order, start, steps, after, true)),
            },
            Err(why) => return stopped(why, steps_so_far(order, start, steps, rest, false)),
        }
    }
}
