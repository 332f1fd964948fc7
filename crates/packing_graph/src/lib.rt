//! The component of a station: those among others that it reaches by pairs that interfere.
//!
//! The crate may call `pack_defs` alone, and knows no query: the caller decides what a component is for. In reading order:
//!
//! - `station_set`: a set of stations, however it is stored.
//! - `component`: the component of a station.
//! - `reach`: the graph search behind it.
//! - `laws`: what components say about what fits.
#![tactic(auto)]

pub mod component;
pub mod laws;
mod reach;
pub mod station_set;
