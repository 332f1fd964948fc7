//! The check of channel maps: the first fault of a map on a set of stations, and assignments that may violate pairs.
//!
//! This crate may call `pack_defs` alone and calls no solver. Solvers and the check of answers call it. The modules in reading
//! order:
//!
//! - `fault`: what can be wrong with a channel map.
//! - `check`: the first fault of a map.
//! - `changes`: a cheaper check for a map that differs from a valid one in a few channels.
//! - `assignment`: a map with a count of its violated pairs, for local search.
//! - `laws`: what a map without a fault is.
#![tactic(auto)]

pub mod assignment;
pub mod changes;
pub mod check;
pub mod fault;
pub mod laws;
