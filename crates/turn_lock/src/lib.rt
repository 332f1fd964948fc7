//! A ticket lock (Mellor-Crummey and Scott 1991): passes are served in the order in which they drew their tickets. One word of the
//! lock counts the entries in the history of its value. The crate calls `atomic_table` only.
//!
//! The modules in reading order:
//!
//! - `chronicle`: what a lock requires of its value.
//! - `rule`: what always holds of the words, the slot and the views of the passes.
//! - `lock`: the types of the lock, its passes and its turns.
//! - `make`, `turns`, `close`: what a caller does, in this order.
//! - `number_list`: the simplest use of the lock.
#![tactic(auto)]

pub mod chronicle;
pub mod close;
pub mod lock;
pub mod make;
pub mod number_list;
pub mod rule;
pub mod turns;
