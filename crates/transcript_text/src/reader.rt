//! An incremental reader of a transcript. `feed` takes the text in pieces; `finish` returns the transcript, and
//! `finish_prefix` the part of it that is complete.
//!
//! The reader keeps the steps that it has read, one piece, and the bytes of the step that is not complete. The first
//! line of a step counts its lines, so the step is read only once they are all there. The start and the receipts of
//! an undecided test have no such count. For these each attempt waits for twice the lines of the last one, so up to
//! twice their text is kept.

ghost use Rattle.std.specs.Prelude.{◌≡◌, ◌++◌, [], ℕ, IfOk, IfSome, List};
ghost use Rattle.pack_defs.specs.Scenario.{StationsAscend};
ghost use Rattle.pack_defs.specs.Book.{BookView};
ghost use Rattle.pack_defs.specs.declared.scenario.Scenario.{Scenario};
ghost use Rattle.transcript_text.specs.declared.reader.Stage.TheVariants.{Opening, Steps, Refused};
ghost use Rattle.transcript_text.specs.Pieces.{HasRead, IsFaulty, IsStageOnError, ReadersAgree, ReadsToSame};
ghost use Rattle.transcript_text.specs.PrefixReading.{prefix_of};
ghost use Rattle.transcript_text.specs.Reading.{transcript_of};
ghost use Rattle.transcript_text.specs.Steps.{Gives};

use crate::error::TextErr;
use crate::fields::{TextLines, next_line};
use crate::head::Head;
use crate::heads::head_at;
use crate::pieces::{kept_of, line_ends, lines_from, whole_part};
use crate::prefix_reading::{prefix_on_error, prefix_steps, read_prefix};
use crate::read::{continue_reading, ended_on_error, opened_at, read_transcript};
use crate::steps::{StepsRead, read_remaining_steps};
use auction_core::prefix::Prefix;
use auction_core::transcript::Transcript;
use lrat_text::lines::{is_whole, split_line};
use pack_defs::book::Book;
use pack_defs::scenario::Scenario;
use std::alloc::{AllocError as NoMemory, Global};
use std::marker::Model;

/// How far the reader has come.
#[derive(Drop)]
pub(crate) enum Stage {
    /// Before the end of the start.
    Opening,
    /// After the start, and after the last of these steps.
    Steps(Transcript),
    /// After the `end` line.
    Whole(Transcript),
    /// At the first error.
    Refused(TextErr),
}

/// Reads a transcript that comes in pieces, cut anywhere. The result and the errors are those of
/// [`read_transcript`](crate::read::read_transcript).
#[derive(Drop)]
pub struct TranscriptReader {
    alloc: Global,
    stage: Stage,
    // The number of the first line that is not read.
    number: u64,
    // The bytes from that line on.
    left: Vec<u8>,
    // How many complete lines `left` has.
    lines: u64,
    // How many complete lines the next attempt waits for.
    wanted: u64,
}

impl Model for TranscriptReader {
    ghost use Rattle.transcript_text.specs.Pieces.{ReadSoFar};

    ghost Value = { ReadSoFar };

    ghost view = { λ r. record { stage = r.stage; number = r.number; left = r.left.items } };
}

// Returns the stage after this error: `waiting` if lines are missing, otherwise the error.
fn stage_on_error(why: TextErr, waiting: Stage) -> Result<Stage, NoMemory>
    ensures { IfOk result (λ stage. IsStageOnError why waiting stage) }
{
    match why {
        TextErr::Version => return Ok(Stage::Refused(TextErr::Version)),
        TextErr::BadLine { n } => return Ok(Stage::Refused(TextErr::BadLine { n })),
        TextErr::Truncated => return Ok(waiting),
        TextErr::NoMemory => return Err(NoMemory),
    }
}

// Reads steps, as far as they are complete.
fn read_steps<'a>(
    alloc: Global,
    sc: &Scenario,
    book: &Book,
    begun: Transcript,
    lines: TextLines<'a>,
) -> Result<(Stage, TextLines<'a>), NoMemory>
    requires { StationsAscend sc.now }
    ensures { IfOk result (λ x. ReadsToSame sc.now book.now (Steps begun) lines.entry x.0 x.1) }
{
    match read_remaining_steps(alloc, sc, book, begun, lines.same_lines()) {
        Ok(read) => {
            if read.ended {
                return Ok((Stage::Whole(read.begun), read.rest));
            }
            return Ok((Stage::Steps(read.begun), read.rest));
        }
        Err(why) => return Ok((stage_on_error(why, Stage::Refused(why))?, lines)),
    }
}

// Reads from the first line on, as far as steps are complete.
fn read_opening<'a>(
    alloc: Global,
    sc: &Scenario,
    book: &Book,
    lines: TextLines<'a>,
) -> Result<(Stage, TextLines<'a>), NoMemory>
    requires { StationsAscend sc.now }
    ensures { IfOk result (λ x. ReadsToSame sc.now book.now Opening lines.entry x.0 x.1) }
{
    match opened_at(alloc, sc, lines.text) {
        Ok((begun, behind)) => return read_steps(alloc, sc, book, begun, behind),
        Err(why) => return Ok((stage_on_error(why, Stage::Opening)?, lines)),
    }
}

// Continues from a stage, as far as steps are complete.
fn read_stage<'a>(
    alloc: Global,
    sc: &Scenario,
    book: &Book,
    stage: Stage,
    lines: TextLines<'a>,
) -> Result<(Stage, TextLines<'a>), NoMemory>
    requires { StationsAscend sc.now }
    ensures { IfOk result (λ x. ReadsToSame sc.now book.now stage lines.entry x.0 x.1) }
{
    match stage {
        Stage::Opening => return read_opening(alloc, sc, book, lines),
        Stage::Steps(begun) => return read_steps(alloc, sc, book, begun, lines),
        Stage::Whole(transcript) => return Ok((Stage::Whole(transcript), lines)),
        Stage::Refused(why) => return Ok((Stage::Refused(why), lines)),
    }
}

// Returns how many lines to wait for before the step that begins at the next line is tried again. The first line of
// the step tells it, except for an undecided test: then it is twice `there`, the complete lines that did not suffice.
fn step_lines<'a>(sc: &Scenario, steps: usize, lines: TextLines<'a>, there: u64) -> u64
    requires { StationsAscend sc.now }
{
    let Ok((line, _)) = next_line(lines) else {
        return 1;
    };
    let Ok(head) = head_at(sc, steps as u64, line) else {
        return 1;
    };
    match head {
        Head::Log { count, .. } => count.saturating_add(2),
        Head::Fit { count, .. } => count.saturating_add(1),
        Head::Outside { count, .. } => count.saturating_add(1),
        Head::Undecided { .. } => there.saturating_mul(2),
        _ => 1,
    }
}

// Returns how many complete lines to wait for before the next attempt. `there` lines did not suffice for the last.
fn lines_wanted<'a>(sc: &Scenario, stage: &Stage, lines: TextLines<'a>, there: u64) -> u64
    requires { StationsAscend sc.now }
{
    match stage {
        Stage::Opening => there.saturating_mul(2).max(1),
        Stage::Steps(begun) => step_lines(sc, begun.steps.as_slice().len(), lines, there),
        Stage::Whole(_) => 1,
        Stage::Refused(_) => 0,
    }
}

impl TranscriptReader {
    /// Returns a reader before the first byte.
    pub fn new(alloc: Global) -> TranscriptReader
        ensures { (sc : Scenario) (book : BookView) → HasRead sc book [] result }
    {
        TranscriptReader {
            alloc,
            stage: Stage::Opening,
            number: 1,
            left: Vec::new(alloc),
            lines: 0,
            wanted: 1,
        }
    }

    // Returns a reader that has found this error and keeps no bytes.
    fn refused(alloc: Global, why: TextErr) -> TranscriptReader
        ensures { result.stage ≡ Refused why }
    {
        TranscriptReader {
            alloc,
            stage: Stage::Refused(why),
            number: 0,
            left: Vec::new(alloc),
            lines: 0,
            wanted: 0,
        }
    }

    // Returns the reader with another piece, which is not read yet.
    fn with_piece(self, piece: &[u8]) -> Result<TranscriptReader, NoMemory>
        ensures { IfOk result (λ fed. fed ≡ record { stage = self.stage; number = self.number; left = self.left ++ piece.now }) }
    {
        let TranscriptReader {
            alloc,
            stage,
            number,
            mut left,
            lines,
            wanted,
        } = self;
        left.extend_from_slice(piece)?;
        Ok(TranscriptReader {
            alloc,
            stage,
            number,
            left,
            lines: lines.saturating_add(line_ends(piece)),
            wanted,
        })
    }

    // Returns the error that the text has whatever bytes follow, if one is known.
    fn fault(&self) -> Option<TextErr>
        ensures { IfSome result (λ why. (sc : Scenario) (book : BookView) → IsFaulty sc book self.now why) }
    {
        match &self.stage {
            Stage::Refused(why) => return Some(*why),
            Stage::Whole(_) => match split_line(&self.left) {
                Some(_) => return Some(TextErr::BadLine { n: self.number }),
                None => return None,
            },
            _ => return None,
        }
    }

    // Reads as far as steps are complete.
    fn read_on(self, sc: &Scenario, book: &Book) -> Result<TranscriptReader, NoMemory>
        requires { StationsAscend sc.now }
        ensures { IfOk result (λ read. ReadersAgree sc.now book.now self read) }
    {
        let TranscriptReader {
            alloc,
            stage,
            number,
            left,
            ..
        } = self;
        let whole = whole_part(&left);
        let (stage, rest) = read_stage(alloc, sc, book, stage, lines_from(number, whole)?)?;
        let kept = kept_of(alloc, rest.text, &left[whole.len()..])?;
        let lines = line_ends(&kept);
        let number = rest.number;
        let wanted = lines_wanted(sc, &stage, rest, lines);
        Ok(TranscriptReader {
            alloc,
            stage,
            number,
            left: kept,
            lines,
            wanted,
        })
    }

    /// Reads the next piece of the text: a transcript of an auction of this scenario and this book, or its beginning.
    /// `finish` and `finish_prefix` report an invalid line.
    ///
    /// # Errors
    ///
    /// `NoMemory` if memory runs out. The reader is dropped then.
    pub fn feed(
        self,
        sc: &Scenario,
        book: &Book,
        piece: &[u8],
    ) -> Result<TranscriptReader, NoMemory>
        requires { StationsAscend sc.now }
        ensures { IfOk result (λ fed. (bytes : List ℕ) → HasRead sc.now book.now bytes self → HasRead sc.now book.now (bytes ++ piece.now) fed) }
    {
        let fed = self.with_piece(piece)?;
        if fed.lines < fed.wanted {
            return Ok(fed);
        }
        let alloc = fed.alloc;
        let read = fed.read_on(sc, book)?;
        match read.fault() {
            Some(why) => return Ok(TranscriptReader::refused(alloc, why)),
            None => return Ok(read),
        }
    }

    /// Returns the transcript of the complete text, which ends here.
    ///
    /// # Errors
    ///
    /// Those of [`read_transcript`](crate::read::read_transcript).
    pub fn finish(self, sc: &Scenario, book: &Book) -> Result<Transcript, TextErr>
        requires { StationsAscend sc.now }
        ensures { (bytes : List ℕ) → HasRead sc.now book.now bytes self → Gives (λ t. t) (transcript_of sc.now book.now bytes) result }
    {
        let TranscriptReader {
            alloc,
            stage,
            number,
            left,
            ..
        } = self;
        match stage {
            Stage::Opening => return read_transcript(alloc, &left, sc, book),
            Stage::Steps(begun) => {
                let lines = lines_from(number, &left)?;
                return continue_reading(alloc, sc, book, begun, is_whole(&left), lines);
            }
            Stage::Whole(begun) => {
                let rest = lines_from(number, &left)?;
                let read = StepsRead {
                    begun,
                    rest,
                    ended: true,
                };
                return ended_on_error(is_whole(&left), read);
            }
            Stage::Refused(why) => return Err(why),
        }
    }

    /// Returns the complete part of the transcript that begins with the text, which ends here.
    ///
    /// # Errors
    ///
    /// Those of [`read_prefix`](crate::beginning::read_prefix).
    pub fn finish_prefix(self, sc: &Scenario, book: &Book) -> Result<Prefix, TextErr>
        requires { StationsAscend sc.now }
        ensures { (bytes : List ℕ) → HasRead sc.now book.now bytes self → Gives (λ p. p) (prefix_of sc.now book.now bytes) result }
    {
        let TranscriptReader {
            alloc,
            stage,
            number,
            left,
            ..
        } = self;
        match stage {
            Stage::Opening => return read_prefix(alloc, &left, sc, book),
            Stage::Steps(begun) => {
                return prefix_steps(alloc, sc, book, begun, lines_from(number, &left)?);
            }
            Stage::Whole(begun) => {
                let rest = lines_from(number, &left)?;
                return prefix_on_error(StepsRead {
                    begun,
                    rest,
                    ended: true,
                });
            }
            Stage::Refused(why) => return Err(why),
        }
    }
}
