//! Runs auctions: the solvers of the workers race for each query.
//!
//! The crate uses `answer_board`, the solvers behind `solver_gate`, `batch_cache`, and a book's numbers of
//! `search_base`. `commands` calls it; no check knows of it.
//!
//! Modules, in reading order:
//!
//! - `run`: runs a complete auction.
//! - `wave`: the workers race on a board.
//! - `zip_runners`, `runner`, `unzip_runners`: pair passes with racers, and separate them again.
//! - `serial`: the workers take one turn after another on one thread.
//! - `cached`: a solver that asks a cache before it searches.
//! - `board_poll`, `watching`: the poll of a worker on a board.
//! - `serial_poll`: the poll without a race.
#![tactic(auto)]

mod board_poll;
pub mod cached;
pub mod run;
pub mod runner;
pub mod serial;
pub mod serial_poll;
pub mod unzip_runners;
mod watching;
pub mod wave;
pub mod zip_runners;
