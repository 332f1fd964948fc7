//! Reads the first line of a step, and the last line of a transcript. `steps` calls `head_at`.

ghost use Rattle.std.specs.Prelude.{IfOk};
ghost use Rattle.pack_defs.specs.Scenario.{StationsAscend};
ghost use Rattle.transcript_text.specs.Reading.{IsHeadCounted, dead_head, end_head, fit_head, head_at, head_of_word, log_head, none_head, outside_head, same_head, step_test_at, undecided_head};
ghost use Rattle.transcript_text.specs.Steps.{Gives};

use crate::error::TextErr;
use crate::fields::{
    LineFields, channel_at, count_at, exact_number_at, line_end, next_field, short_number,
    station_at, word_at, worker_at,
};
use crate::head::{Head, StepTest};
use itoa::Buffer;
use pack_defs::pair::Pair;
use pack_defs::scenario::Scenario;

// Returns the round and the station, and the fields after them.
#[tactic(auto, unfolding(crate::specs::Reading::step_test_at))]
fn test_at<'a>(sc: &Scenario, line: LineFields<'a>) -> Result<(StepTest, LineFields<'a>), TextErr>
    requires { StationsAscend sc.now }
    ensures { Gives (λ x. x) (step_test_at sc.now line.entry) result }
{
    let (round, rest) = short_number(line)?;
    let (station, rest) = station_at(sc, rest)?;
    Ok((StepTest { round, station }, rest))
}

#[tactic(auto, unfolding(crate::specs::Reading::fit_head))]
fn fit_head<'a>(sc: &Scenario, line: LineFields<'a>) -> Result<Head, TextErr>
    requires { StationsAscend sc.now }
    ensures head { Gives (λ x. x) (fit_head sc.now line.entry) result }
    ensures counted { IfOk result IsHeadCounted }
{
    let (test, rest) = test_at(sc, line)?;
    let (count, rest) = count_at(rest)?;
    line_end(rest)?;
    Ok(Head::Fit { test, count })
}

#[tactic(auto, unfolding(crate::specs::Reading::same_head))]
fn same_head<'a>(sc: &Scenario, line: LineFields<'a>) -> Result<Head, TextErr>
    requires { StationsAscend sc.now }
    ensures head { Gives (λ x. x) (same_head sc.now line.entry) result }
    ensures counted { IfOk result IsHeadCounted }
{
    let (test, rest) = test_at(sc, line)?;
    line_end(rest)?;
    Ok(Head::Same { test })
}

#[tactic(auto, unfolding(crate::specs::Reading::none_head))]
fn none_head<'a>(sc: &Scenario, line: LineFields<'a>) -> Result<Head, TextErr>
    requires { StationsAscend sc.now }
    ensures head { Gives (λ x. x) (none_head sc.now line.entry) result }
    ensures counted { IfOk result IsHeadCounted }
{
    let (test, rest) = test_at(sc, line)?;
    line_end(rest)?;
    Ok(Head::NoChannel { test })
}

#[tactic(auto, unfolding(crate::specs::Reading::log_head))]
fn log_head<'a>(sc: &Scenario, line: LineFields<'a>) -> Result<Head, TextErr>
    requires { StationsAscend sc.now }
    ensures head { Gives (λ x. x) (log_head sc.now line.entry) result }
    ensures counted { IfOk result IsHeadCounted }
{
    let (test, rest) = test_at(sc, line)?;
    let (worker, rest) = worker_at(sc, rest)?;
    let (count, rest) = count_at(rest)?;
    line_end(rest)?;
    Ok(Head::Log {
        test,
        worker,
        count,
    })
}

#[tactic(auto, unfolding(crate::specs::Reading::dead_head))]
fn dead_head<'a>(sc: &Scenario, line: LineFields<'a>) -> Result<Head, TextErr>
    requires { StationsAscend sc.now }
    ensures head { Gives (λ x. x) (dead_head sc.now line.entry) result }
    ensures counted { IfOk result IsHeadCounted }
{
    let (test, rest) = test_at(sc, line)?;
    let (worker, rest) = worker_at(sc, rest)?;
    let (f, rest) = station_at(sc, rest)?;
    let (a, rest) = channel_at(rest)?;
    let (g, rest) = station_at(sc, rest)?;
    let (b, rest) = channel_at(rest)?;
    line_end(rest)?;
    Ok(Head::Dead {
        test,
        worker,
        pair: Pair { f, a, g, b },
    })
}

#[tactic(auto, unfolding(crate::specs::Reading::outside_head))]
fn outside_head<'a>(sc: &Scenario, line: LineFields<'a>) -> Result<Head, TextErr>
    requires { StationsAscend sc.now }
    ensures head { Gives (λ x. x) (outside_head sc.now line.entry) result }
    ensures counted { IfOk result IsHeadCounted }
{
    let (test, rest) = test_at(sc, line)?;
    let (count, rest) = count_at(rest)?;
    line_end(rest)?;
    Ok(Head::Outside { test, count })
}

// Reads the rest of an `undecided` line: its test, and the count of receipts, which is one for each worker.
#[tactic(auto, unfolding(crate::specs::Reading::undecided_head))]
fn undecided_head<'a>(sc: &Scenario, line: LineFields<'a>) -> Result<Head, TextErr>
    requires { StationsAscend sc.now }
    ensures head { Gives (λ x. x) (undecided_head sc.now line.entry) result }
    ensures counted { IfOk result IsHeadCounted }
{
    let (test, rest) = test_at(sc, line)?;
    let rest = exact_number_at(sc.workers.as_slice().len() as u64, rest)?;
    line_end(rest)?;
    Ok(Head::Undecided { test })
}

// Reads the rest of the `end` line: the count of the steps, spelled exactly.
#[tactic(auto, unfolding(crate::specs::Reading::end_head))]
fn end_head<'a>(steps: u64, line: LineFields<'a>) -> Result<Head, TextErr>
    ensures head { Gives (λ x. x) (end_head steps line.entry) result }
    ensures counted { IfOk result IsHeadCounted }
{
    let mut buffer = Buffer::new();
    let rest = word_at(buffer.format(steps).as_bytes(), line)?;
    line_end(rest)?;
    Ok(Head::End)
}

// Reads the rest of the first line that begins with this word.
fn head_of_word<'a>(
    sc: &Scenario,
    steps: u64,
    word: &[u8],
    line: LineFields<'a>,
) -> Result<Head, TextErr>
    requires { StationsAscend sc.now }
    ensures head { Gives (λ x. x) (head_of_word sc.now steps word.now line.entry) result }
    ensures counted { IfOk result IsHeadCounted }
{
    if word == b"fit".as_slice() {
        return fit_head(sc, line);
    }
    if word == b"same".as_slice() {
        return same_head(sc, line);
    }
    if word == b"none".as_slice() {
        return none_head(sc, line);
    }
    if word == b"log".as_slice() {
        return log_head(sc, line);
    }
    if word == b"dead".as_slice() {
        return dead_head(sc, line);
    }
    if word == b"outside".as_slice() {
        return outside_head(sc, line);
    }
    if word == b"undecided".as_slice() {
        return undecided_head(sc, line);
    }
    if word == b"end".as_slice() {
        return end_head(steps, line);
    }
    Err(TextErr::BadLine { n: line.number })
}

/// Reads the first line of a step, or the last line of a transcript that has `steps` steps so far.
///
/// # Errors
///
/// `BadLine` if the line is neither.
#[tactic(auto, unfolding(crate::specs::Reading::head_at))]
pub(crate) fn head_at<'a>(sc: &Scenario, steps: u64, line: LineFields<'a>) -> Result<Head, TextErr>
    requires { StationsAscend sc.now }
    ensures head { Gives (λ x. x) (head_at sc.now steps line.entry) result }
    ensures counted { IfOk result IsHeadCounted }
{
    let (word, rest) = next_field(line)?;
    head_of_word(sc, steps, word, rest)
}
