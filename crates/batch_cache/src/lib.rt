//! A cache of answers for many auctions over the same constraint files. Auctions of one region put tens of thousands
//! of queries. Most are about stations that an earlier auction asked about too, some more or some fewer. A channel
//! map of more stations contains one of fewer, and what refutes fewer stations refutes more. SATFC keeps such maps in
//! a containment cache (Newman, Fréchette, Leyton-Brown 2017).
//!
//! The cache keeps channel maps that fit and refutations, as many of each as there is room for. An entry's key is the
//! top channel and the station set for which it was found. The cache is asked before a solver runs. No entry is
//! trusted: the books of two auctions may differ in their domains and pairs, and their workers in kind and budget.
//! `certify` checks what `answer` returns against the book, task and worker at hand; what `suggest` returns is for
//! the caller to check.
//!
//! The crate uses `cert_types` and the crates below it, and no solver. Only `race_wave` calls it; no check knows of
//! it.
//!
//! Modules, in reading order:
//!
//! - `cache`: the cache and its calls.
//! - `key`: the key of an entry.
//! - `search`: the search for an entry that answers.
//! - `judge`: the check of an entry.
//! - `restriction`: restricts a map to a set.
//! - `kept_refutation`, `copies`: a refutation in the cache.
//! - `signed_set`, `station_bits`, `numbers`, `witness`: fast tests whether a set contains another.
//! - `laws`: what a look-up without a result means.
#![tactic(auto)]

pub mod cache;
mod copies;
mod judge;
mod kept_refutation;
mod key;
pub mod laws;
mod numbers;
mod restriction;
mod search;
mod signed_set;
mod station_bits;
mod witness;
