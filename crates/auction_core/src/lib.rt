//! The core of the auction: what each answer that a worker posts does, and what a finished record proves.
//!
//! The crate calls `cert_types` with its dependencies, `offer_sched` and `freeze_ledger`. It calls no solver, opens no file and
//! starts no thread. The crates for boards, races and transcript checks are built on it.
//!
//! The modules in reading order:
//!
//! - `auction`: an auction between two postings, and what a posting does to it.
//! - `posting`: what a worker posts, and the replies.
//! - `record`: what is left of an auction that has ended.
//! - `query_session`: an auction between two queries, whoever answers them (a query session).
//! - `setup`, `round_order`, `station_list`: what is fixed while an auction runs, the test order of a round, and the place of a station.
//! - `clock_run`: the clock between two tests, and how a settled test moves it (a clock run).
//! - `clock`: the standing of each station, and what the frozen stations are paid.
//! - `air_map`, `component_labels`: the channel map of the stations on air, and their components.
//! - `test_history`, `step_list`: the test history, and a compact list of the steps.
//! - `start`: the start test, and how it is settled without a query.
//! - `taking`, `pending_receipts`: what a posting does to the auction, and the pending receipts of the current query.
//! - `transcript`, `prefix`: a transcript and the beginning of one, as values.
//! - `check_sequence`, `step_check`: check a transcript by carrying out the auction again.
//! - `certificates`, `receipts`, `log_numbers`, `step_err`: check the certificate of one step.
//! - `laws`, `label_laws`, `prefix_laws`: laws of the definitions, and worked examples.
#![tactic(auto)]

pub mod air_map;
pub mod auction;
mod certificates;
pub mod check_sequence;
pub mod clock;
pub mod clock_run;
mod component_labels;
pub mod label_laws;
pub mod laws;
mod log_numbers;
pub mod pending_receipts;
pub mod posting;
pub mod prefix;
pub mod prefix_laws;
pub mod query_session;
mod receipts;
pub mod record;
mod round_order;
pub mod setup;
mod start;
pub mod station_list;
mod step_check;
mod step_err;
pub mod step_list;
mod taking;
pub mod test_history;
pub mod transcript;
