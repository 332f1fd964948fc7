//! Reads a complete transcript. `read_transcript` is the entry point; `reader` and `prefix_reading` share the parts.

ghost use Rattle.std.specs.Prelude.{◌≡◌};
ghost use Rattle.pack_defs.specs.Scenario.{StationsAscend};
ghost use Rattle.lrat_text.specs.Lines.{ended_lines};
ghost use Rattle.transcript_text.specs.Reading.{empty_start, fit_start, order_of, start_at, start_of_word, text_end, transcript_of, version_at};
ghost use Rattle.transcript_text.specs.Pieces.{ended_on_error, continue_reading, opened_at};
ghost use Rattle.transcript_text.specs.Steps.{Gives};

use crate::error::TextErr;
use crate::fields::{LineFields, TextLines, count_at, line_end, next_field, next_line, word_at};
use crate::log_lines::entries_at;
use crate::steps::{StepsRead, read_remaining_steps};
use auction_core::record::Shown;
use auction_core::transcript::Transcript;
use lrat_text::lines::{is_whole, split_line};
use pack_defs::book::Book;
use pack_defs::channel_map::ChannelMap;
use pack_defs::items::Items;
use pack_defs::order::Order;
use pack_defs::scenario::Scenario;
use std::alloc::Global;

// Returns the order of tests that a first line names, or `None` if it names no version.
#[tactic(auto, unfolding(crate::specs::Reading::order_of))]
fn order_of(line: &[u8]) -> Option<Order>
    ensures { result ≡ order_of line.now }
{
    if line == b"transcript 1".as_slice() {
        return Some(Order::ByFacility);
    }
    if line == b"transcript 2".as_slice() {
        return Some(Order::ByVolume);
    }
    None
}

/// Reads the first line. Returns the order that it names, and the lines after it.
///
/// # Errors
///
/// `Truncated` without a complete line, `Version` if the line names no version.
pub(crate) fn version_at(text: &[u8]) -> Result<(Order, TextLines<'_>), TextErr>
    ensures { Gives (λ x. x) (version_at (ended_lines text.now)) result }
{
    let Some((line, rest)) = split_line(text) else {
        return Err(TextErr::Truncated);
    };
    let Some(order) = order_of(line) else {
        return Err(TextErr::Version);
    };
    let lines = TextLines {
        number: 2,
        text: rest,
    };
    Ok((order, lines))
}

// Reads the rest of a `start fit` line, and the entries after it.
#[tactic(auto, unfolding(crate::specs::Reading::fit_start))]
fn fit_start<'a>(
    alloc: Global,
    sc: &Scenario,
    line: LineFields<'a>,
    lines: TextLines<'a>,
) -> Result<(Shown, TextLines<'a>), TextErr>
    requires { StationsAscend sc.now }
    ensures { Gives (λ x. x) (fit_start sc.now line.entry lines.entry) result }
{
    let (count, fields) = count_at(line)?;
    line_end(fields)?;
    let (entries, rest) = entries_at(alloc, sc, count, lines)?;
    let delta = ChannelMap::of(alloc, &entries)?;
    Ok((Shown::Fits(delta), rest))
}

// Reads the rest of a `start empty` line.
#[tactic(auto, unfolding(crate::specs::Reading::empty_start))]
fn empty_start<'a>(
    line: LineFields<'a>,
    lines: TextLines<'a>,
) -> Result<(Shown, TextLines<'a>), TextErr>
    ensures { Gives (λ x. x) (empty_start line.entry lines.entry) result }
{
    line_end(line)?;
    Ok((Shown::Empty, lines))
}

// Reads the rest of line `n`, the start line, whose kind is `word`.
fn start_of_word<'a>(
    alloc: Global,
    sc: &Scenario,
    n: u64,
    word: &[u8],
    line: LineFields<'a>,
    lines: TextLines<'a>,
) -> Result<(Shown, TextLines<'a>), TextErr>
    requires { StationsAscend sc.now }
    ensures { Gives (λ x. x) (start_of_word sc.now n word.now line.entry lines.entry) result }
{
    if word == b"empty".as_slice() {
        return empty_start(line, lines);
    }
    if word == b"fit".as_slice() {
        return fit_start(alloc, sc, line, lines);
    }
    Err(TextErr::BadLine { n })
}

/// Reads how the start test was settled. Returns it, and the lines after it.
#[tactic(auto, unfolding(crate::specs::Reading::start_at))]
pub(crate) fn start_at<'a>(
    alloc: Global,
    sc: &Scenario,
    lines: TextLines<'a>,
) -> Result<(Shown, TextLines<'a>), TextErr>
    requires { StationsAscend sc.now }
    ensures { Gives (λ x. x) (start_at sc.now lines.entry) result }
{
    let n = lines.number;
    let (line, rest) = next_line(lines)?;
    let fields = word_at(b"start", line)?;
    let (kind, fields) = next_field(fields)?;
    start_of_word(alloc, sc, n, kind, fields, rest)
}

/// Checks that nothing follows the last line. `whole` is whether the text ends with a complete line.
///
/// # Errors
///
/// `BadLine` if a line or a begun line follows.
pub(crate) fn text_end<'a>(whole: bool, lines: TextLines<'a>) -> Result<(), TextErr>
    ensures { Gives (λ u. u) (text_end whole lines.entry) result }
{
    match split_line(lines.text) {
        Some(_) => return Err(TextErr::BadLine { n: lines.number }),
        None => {
            if whole {
                return Ok(());
            }
            return Err(TextErr::BadLine { n: lines.number });
        }
    }
}

/// Reads the first line and the start. Returns a transcript without steps, and the lines after them.
#[tactic(auto, unfolding(crate::specs::Pieces::opened_at))]
pub(crate) fn opened_at<'a>(
    alloc: Global,
    sc: &Scenario,
    text: &'a [u8],
) -> Result<(Transcript, TextLines<'a>), TextErr>
    requires { StationsAscend sc.now }
    ensures { Gives (λ x. x) (opened_at sc.now (ended_lines text.now)) result }
{
    let (order, lines) = version_at(text)?;
    let (start, lines) = start_at(alloc, sc, lines)?;
    let begun = Transcript {
        order,
        start,
        steps: Items::from_vec(Vec::new(alloc)),
    };
    Ok((begun, lines))
}

/// Returns the transcript that was read, if no more lines come.
///
/// # Errors
///
/// `Truncated` if the `end` line is missing, `BadLine` if anything follows it.
#[tactic(auto, unfolding(crate::specs::Pieces::ended_on_error))]
pub(crate) fn ended_on_error<'a>(whole: bool, read: StepsRead<'a>) -> Result<Transcript, TextErr>
    ensures { Gives (λ t. t) (ended_on_error whole read.entry) result }
{
    let StepsRead { begun, rest, ended } = read;
    if ended {
        text_end(whole, rest)?;
        return Ok(begun);
    }
    Err(TextErr::Truncated)
}

/// Returns the transcript that begins with `begun` and ends with these lines. `whole` is whether the text ends with a
/// complete line.
pub(crate) fn continue_reading<'a>(
    alloc: Global,
    sc: &Scenario,
    book: &Book,
    begun: Transcript,
    whole: bool,
    lines: TextLines<'a>,
) -> Result<Transcript, TextErr>
    requires { StationsAscend sc.now }
    ensures { Gives (λ t. t) (continue_reading sc.now book.now begun whole lines.entry) result }
{
    match read_remaining_steps(alloc, sc, book, begun, lines) {
        Ok(read) => return ended_on_error(whole, read),
        Err(why) => return Err(why),
    }
}

/// Returns the transcript that a text spells, for an auction of this scenario and this book. Makes one pass over the
/// text. Only the first line of a receipt's log or of a proof from outside is read twice, for its number. Each proof
/// over stations also costs the count of their clauses, by their pairs. Memory grows with what was read, never with
/// the counts that the text states.
///
/// # Errors
///
/// `Version` if the first line is complete and names no version. `BadLine` for the first complete line that is not
/// allowed at its place, or if any bytes follow the `end` line. `Truncated` if the text ends before its `end` line.
/// `NoMemory` if memory runs out.
pub fn read_transcript(
    alloc: Global,
    text: &[u8],
    sc: &Scenario,
    book: &Book,
) -> Result<Transcript, TextErr>
    requires { StationsAscend sc.now }
    ensures { Gives (λ t. t) (transcript_of sc.now book.now text.now) result }
{
    match opened_at(alloc, sc, text) {
        Ok((begun, lines)) => return continue_reading(
            alloc,
            sc,
            book,
            begun,
            is_whole(text),
            lines,
        ),
        Err(why) => return Err(why),
    }
}
