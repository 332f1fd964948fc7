//! The texts of a finished auction, written from its record: the result, the channels and the summary.
//!
//! The crate uses `auction_core` and the crates below it, and opens no file.
//!
//! Modules, in reading order:
//!
//! - `rows`: the result, a row for each station.
//! - `channels`: the channels, a row for each station on air.
//! - `counts`: the summary, a line for each count.
//! - `replay`: finds each station's outcome.
#![tactic(auto)]

pub mod channels;
pub mod counts;
mod replay;
pub mod rows;
