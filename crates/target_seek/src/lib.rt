//! Finds the least top channel up to which the stations that start on air fit, by binary search.
//!
//! The crate uses `pack_defs` only, and runs no auction: `commands` drives the search and tests each top channel.
//!
//! Modules, in reading order:
//!
//! - `seek`: the search with a test given as a trait.
//! - `search`: the search that its caller drives.
//! - `search_result`: what a search found.
//! - `top_test`: the test of a top channel.
//! - `laws`: why a binary search is right.
#![tactic(auto)]

pub mod laws;
pub mod search;
pub mod seek;
pub mod sought;
pub mod top_test;
