//! The text of a transcript. A transcript is the record of a finished auction, written so that any program can check
//! it. This crate writes the text and reads it back; `transcript_check` checks what was read.
//!
//! The crate uses `auction_core`, `lrat_text` and the crates below them. It opens no file and checks no step.
//!
//! Modules, in reading order:
//!
//! - `write`: writes the transcript of a record.
//! - `line_writers`: writes the first line, the start, one step, and the last line.
//! - `test_set`: the stations that a test asks about.
//! - `on_air`: the stations on air, as a set.
//! - `read`: reads a complete transcript.
//! - `steps`: reads the steps.
//! - `heads` and `head`: read the first line of a step.
//! - `reading`: reads the receipts of an undecided test.
//! - `log_lines` and `log_field`: read lines of logs, entries and moves.
//! - `fields`: splits lines and fields.
//! - `reader`: reads a transcript that comes in pieces.
//! - `pieces`: the whole lines of a piece.
//! - `prefix_reading`: reads a transcript that is cut short.
//! - `round_trip`: the preconditions of the round-trip law.
//! - `laws`: the round-trip laws, and worked examples.
//! - `error`: why a text is rejected.
#![tactic(auto)]

mod error;
mod fields;
mod head;
mod heads;
pub mod laws;
mod line_writers;
mod log_field;
mod log_lines;
mod on_air;
mod pieces;
pub mod prefix_reading;
pub mod read;
pub mod reader;
mod reading;
pub mod round_trip;
mod steps;
pub mod test_set;
pub mod write;

pub use error::TextErr;
