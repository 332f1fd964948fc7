//! Reads the beginning of a transcript: any number of its first bytes, as far as its parts are complete. A run that
//! was interrupted resumes from it.

ghost use Rattle.std.specs.Prelude.{◌≡◌, [], None, false};
ghost use Rattle.pack_defs.specs.Scenario.{StationsAscend};
ghost use Rattle.transcript_text.specs.Pieces.{prefix_on_error};
ghost use Rattle.transcript_text.specs.PrefixReading.{goes_on_there, kept_on_error, prefix_of, prefix_start};
ghost use Rattle.transcript_text.specs.Steps.{Gives};

use crate::error::TextErr;
use crate::fields::TextLines;
use crate::read::{start_at, text_end, version_at};
use crate::steps::{StepsRead, read_remaining_steps};
use auction_core::prefix::Prefix;
use auction_core::record::Shown;
use auction_core::transcript::Transcript;
use pack_defs::book::Book;
use pack_defs::items::Items;
use pack_defs::order::Order;
use pack_defs::scenario::Scenario;
use std::alloc::Global;

// Returns `kept` if only lines are missing; passes any other error on.
fn kept_on_error(why: TextErr, kept: Prefix) -> Result<Prefix, TextErr>
    ensures { result ≡ kept_on_error kept why }
{
    match why {
        TextErr::Version => return Err(TextErr::Version),
        TextErr::BadLine { n } => return Err(TextErr::BadLine { n }),
        TextErr::Truncated => return Ok(kept),
        TextErr::NoMemory => return Err(TextErr::NoMemory),
    }
}

// Returns a prefix without a start.
fn unstarted(alloc: Global, order: Option<Order>) -> Prefix
    ensures { result ≡ record { order = order; start = None; steps = []; ended = false } }
{
    Prefix {
        order,
        start: None,
        steps: Items::from_vec(Vec::new(alloc)),
        ended: false,
    }
}

// Returns a transcript with its start, before its first step.
fn started(alloc: Global, order: Order, start: Shown) -> Transcript
    ensures { result ≡ record { order = order; start = start; steps = [] } }
{
    Transcript {
        order,
        start,
        steps: Items::from_vec(Vec::new(alloc)),
    }
}

/// Returns the complete part of a transcript, if no more lines come.
///
/// # Errors
///
/// `BadLine` if a line follows the `end` line.
#[tactic(auto, unfolding(crate::specs::Pieces::prefix_on_error))]
pub(crate) fn prefix_on_error<'a>(read: StepsRead<'a>) -> Result<Prefix, TextErr>
    ensures { Gives (λ p. p) (prefix_on_error read.entry) result }
{
    let StepsRead { begun, rest, ended } = read;
    if ended {
        text_end(true, rest)?;
    }
    let Transcript {
        order,
        start,
        steps,
    } = begun;
    Ok(Prefix {
        order: Some(order),
        start: Some(start),
        steps,
        ended,
    })
}

/// Returns the complete part of the transcript that begins with `begun` and continues with these lines.
pub(crate) fn prefix_steps<'a>(
    alloc: Global,
    sc: &Scenario,
    book: &Book,
    begun: Transcript,
    lines: TextLines<'a>,
) -> Result<Prefix, TextErr>
    requires { StationsAscend sc.now }
    ensures { Gives (λ p. p) (goes_on_there sc.now book.now begun lines.entry) result }
{
    match read_remaining_steps(alloc, sc, book, begun, lines) {
        Ok(read) => return prefix_on_error(read),
        Err(why) => return Err(why),
    }
}

// Returns the complete part of the transcript whose first line names this order and whose other lines are these.
fn prefix_start<'a>(
    alloc: Global,
    sc: &Scenario,
    book: &Book,
    order: Order,
    lines: TextLines<'a>,
) -> Result<Prefix, TextErr>
    requires { StationsAscend sc.now }
    ensures { Gives (λ p. p) (prefix_start sc.now book.now order lines.entry) result }
{
    match start_at(alloc, sc, lines) {
        Ok((start, rest)) => {
            let begun = started(alloc, order, start);
            return prefix_steps(alloc, sc, book, begun, rest);
        }
        Err(why) => return kept_on_error(why, unstarted(alloc, Some(order))),
    }
}

/// Returns the complete part of the transcript that begins with this text, for an auction of this scenario and this
/// book. The text may end anywhere. Bytes after the last line end are dropped; the start and a step are dropped if
/// some of their lines are missing. Makes one pass over the text, as
/// [`read_transcript`](crate::read::read_transcript) does, and allocates the parts that it returns.
///
/// # Errors
///
/// `Version` if the first line is complete and names no version. `BadLine` for the first complete line that is not
/// allowed at its place, or that follows the `end` line. `NoMemory` if memory runs out. Never `Truncated`.
pub fn read_prefix(
    alloc: Global,
    text: &[u8],
    sc: &Scenario,
    book: &Book,
) -> Result<Prefix, TextErr>
    requires { StationsAscend sc.now }
    ensures { Gives (λ p. p) (prefix_of sc.now book.now text.now) result }
{
    match version_at(text) {
        Ok((order, lines)) => return prefix_start(alloc, sc, book, order, lines),
        Err(why) => return kept_on_error(why, unstarted(alloc, None)),
    }
}
