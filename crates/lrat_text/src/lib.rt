//! Proof logs as texts in LRAT's format (Cruz-Filipe et al. 2017), written and read, and formulas as texts in DIMACS
//! CNF, written. A formula can so be given to any solver, and the solver's proof can be read and given to the
//! checker.
//!
//! The crate uses `rup_check` and `clause_db`. It opens no file and checks no proof.
//!
//! Modules, in reading order:
//!
//! - `error`: why a text is rejected.
//! - `lines`: splits lines, fields and words.
//! - `field`: reads numbers.
//! - `read`: reads a log.
//! - `write`: writes logs and formulas.
//! - `laws`: the round-trip laws.
#![tactic(auto)]

mod error;
pub mod field;
pub mod laws;
pub mod lines;
pub mod read;
pub mod write;

pub use error::LratErr;
