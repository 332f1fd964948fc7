//! An incremental conflict-driven search, kept from query to query of an auction with all the lines that it learnt.
//!
//! The search claims nothing. It suggests a channel map or a log, and the caller has either checked. No contract mentions its policy.
//!
//! The technique is that of MiniSat (Eén and Sörensson 2003): two watched literals, first unique implication points, and activities
//! that decay. Restarts follow the sequence of Luby, Sinclair and Zuckerman (1993). A selector variable for each station makes it
//! incremental. The local search of `local_search` looks for fits beside it.
//!
//! The crate may call `search_base`, `local_search`, and for the types of its suggestions `pack_defs`, `clause_db` and `rup_check`.
//! Only `cdcl_prove` calls it, and no check does. In reading order:
//!
//! - `suggestion`, `searcher`: the interface, what the search suggests and how a caller drives it.
//! - `policy`: the parameters of the search, none of which a proof depends on.
//! - `engine`: the state of the search and its basic steps.
//! - `query`, `place`: a query from beginning to end, and how stations come on air.
//! - `search_step`: one step of the search.
//! - `propagate`, `analysis`, `minimising`: unit propagation, and learning a short line from a conflict.
//! - `shortening`: the search for a shorter log.
//! - `cone`, `numbering`: the lines that a refutation needs, and their log over the packing formula.
//! - `receipt`, `subclause_index`, `hint_repair`: the receipt of a search that has spent its effort.
//! - `reduce_db`: the deletion of little used lines.
//! - `literal`, `hint`, `trail`, `clauses`, `lines`, `marks`, `search_scope`: the data structures.
#![tactic(auto)]

mod analysis;
mod clauses;
mod cone;
mod engine;
mod hint;
mod hint_repair;
mod lines;
mod literal;
mod marks;
mod minimising;
mod numbering;
mod place;
mod policy;
mod propagate;
mod query;
mod receipt;
mod reduce_db;
mod search_scope;
mod search_step;
pub mod searcher;
mod shortening;
mod subclause_index;
pub mod suggestion;
mod trail;
