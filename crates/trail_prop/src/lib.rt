//! The trail of a conflict-driven solver: decisions and forced literals in order, with propagation over watched clauses.
//!
//! Propagation is that of MiniSat (Eén and Sörensson 2003). Each clause watches two of its literals, and is visited only if one of
//! them becomes false. As in later versions of MiniSat, a watch also names another literal of the clause. While this literal is
//! true, the clause is not visited.
//!
//! This crate may call `clause_db` alone, and knows no book and no query. `cdcl_prove` searches on the trail; no check uses it. The
//! modules in reading order:
//!
//! - `entry`: an entry of the trail, and a conflict.
//! - `trail`: the trail as solvers see it.
//! - `assignment`: the true literals, with constant-time lookup.
//! - `clause_status`: the state of one clause under the true literals.
//! - `plain`: a trail without watches, whose propagation visits all clauses.
//! - `watches`: the watches of each literal.
//! - `watch_update`: what a clause does when a watched literal becomes false.
//! - `watchable`: which two literals a clause can watch.
//! - `watching`: a trail with watches.
//! - `propagate`: propagation over watched clauses.
//! - `within`: a test that callers need for the trail's precondition.
#![tactic(auto)]

mod assignment;
mod clause_status;
pub mod entry;
pub mod plain;
mod propagate;
pub mod trail;
mod watch_update;
mod watchable;
mod watches;
mod watching;
pub mod within;
