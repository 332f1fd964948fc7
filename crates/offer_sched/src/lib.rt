//! The clock's prices and offers.
//!
//! The crate may call `pack_defs` alone, and knows no query and no station's state. Its only module:
//!
//! - `offers`: the prices of all rounds, and a station's offer.
#![tactic(auto)]

pub mod offers;
