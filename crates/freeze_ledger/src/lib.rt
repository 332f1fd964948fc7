//! What the frozen stations of a clock auction are paid. The crate calls `pack_defs` only, and knows nothing of queries.
//!
//! - `ledger`: the only module.
#![tactic(auto)]

pub mod ledger;
