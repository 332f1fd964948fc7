//! Whether a set of stations fits, by a plain search.
//!
//! The crate may call `pack_defs` alone. Tests and `threshold_laws` call it for comparison; no solver and no auction does. Its
//! only module:
//!
//! - `search`: the search.
#![tactic(auto)]

pub mod search;
