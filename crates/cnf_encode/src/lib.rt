//! The packing formula of a set of stations: clauses that have a model exactly if the set fits.
//!
//! The encoding is that of SATFC (Newman, Fréchette, Leyton-Brown 2017): a variable for each station and channel of its domain.
//! This crate may call `pack_defs` and `clause_db`. Solvers and checks get the formula from here alone. The modules in reading
//! order:
//!
//! - `numbering`: the variables.
//! - `encode`: from a set of stations to its formula.
//! - `count`: the number of clauses, without building them.
//! - `decode`: from a model back to a channel map.
//! - `laws`: what the formula means.
#![tactic(auto)]

pub mod count;
pub mod decode;
pub mod encode;
pub mod laws;
pub mod numbering;
