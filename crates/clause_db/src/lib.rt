//! Literals, and lists of clauses over numbered variables, as in DIMACS CNF.
//!
//! This crate calls the standard library alone, and knows no book. Formulas, proofs and searches are built on it. The modules in
//! reading order:
//!
//! - `lit`: a literal.
//! - `list`: a list of clauses.
#![tactic(auto)]

pub mod list;
pub mod lit;
