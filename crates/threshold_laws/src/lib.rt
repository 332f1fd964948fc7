//! What a clock auction pays. The crate decides by the plain clock rule whether a station would still be bought with another value. Its
//! law says that each bought station is paid the greatest value with which it is bought.
//!
//! The crate may call `offer_sched` and `plain_pack`. Only tests call it: no auction and no check does. In reading order:
//!
//! - `wins`: whether a station would be bought with another value.
//! - `rule`, `round_order`, `clock`: the plain clock rule, its order of tests, and its state.
//! - `paid`, `plain`: laws, which no code calls.
#![tactic(auto)]

mod clock;
pub mod paid;
pub mod plain;
mod round_order;
mod rule;
pub mod wins;
