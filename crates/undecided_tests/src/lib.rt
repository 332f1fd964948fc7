//! The undecided tests of a record. Finds the query of a step, writes its packing formula, and settles such a test by
//! a proof from outside.
//!
//! The crate uses the records of `auction_core` and the proof check of `cert_types`. It knows no solver and opens no
//! file.
//!
//! Modules, in reading order:
//!
//! - `task`: finds the query of a step again.
//! - `step_replay`: replays the steps before it on a clock and a channel map.
//! - `queries`: counts the queries of those steps.
//! - `last_map`: restricts the map to the query's set.
//! - `formula`: writes the packing formula of a step.
//! - `cut`: ends a log at its first empty line.
//! - `replace`: puts a proof into a record.
//! - `settle`: settles a step by the text of a log.
//! - `laws`: what a proof from outside changes.
#![tactic(auto)]

pub mod cut;
pub mod formula;
mod last_map;
pub mod laws;
mod queries;
pub mod replace;
pub mod settle;
mod step_replay;
pub mod task;
