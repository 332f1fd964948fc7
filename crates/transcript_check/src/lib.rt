//! The check of a transcript: whether it is sound, and the record that it shows.
//!
//! The crate uses `auction_core`, the checkers below it and the readers of texts, and never a solver.
//!
//! Modules, in reading order:
//!
//! - `verify`: the check, and its contract.
//! - `laws`: what soundness means for transcripts, their beginnings and their records.
#![tactic(auto)]

pub mod laws;
pub mod verify;

pub use auction_core::prefix::ShownWhy;

/// Why a transcript was not verified. The same errors end the resuming of an auction.
pub type VerifyErr = auction_core::prefix::ResumeErr;
