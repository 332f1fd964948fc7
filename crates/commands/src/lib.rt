//! The program's commands: each runs from its input files to its exit status, over any folder, any sink and any gate.
//!
//! This crate may call every crate below it. `auction_cmd` alone calls the commands, once it knows which one the words name.
//! `auction_cli` uses a constant of `status`. In reading order:
//!
//! - `run`: runs an auction, stores its files and prints its summary. Every other command has the same shape.
//! - `inputs`: reads the input files, with `input_file`, `sources`, `constraints` and `batch_inputs` in its folder.
//! - `delivery`: stores the files of a command and prints its summary.
//! - `finish`, `status`: how a command ends, and the exit statuses.
//! - `messages`: prints messages, with `explain`, `refusal` and `fault` in its folder.
//! - `check`: checks the inputs and runs nothing.
//! - `shown`: reads a transcript and checks each of its steps. `verify`, the views and `import` begin with it.
//! - `verify`: prints the result that a transcript certifies, or its first invalid step.
//! - `view`: the commands that verify a transcript and answer by texts about it.
//! - `show`: the view that stores the result and the channels that a transcript certifies.
//! - `export`: the view that stores the formula of a step's test.
//! - `resume`: continues an auction from the beginning of its transcript.
//! - `settling`: checks whether a step of a record can be exported or settled. `export` and `import` share it.
//! - `import`: settles an undecided test by a proof from outside.
//! - `seek`, `top_channel_runs`: find the least top channel at which the stations that start on air fit, by a run for each top.
//! - `batch`, `batch_run`: run the auctions of many scenarios over the same constraint files.
//! - `make`: generates an auction.
#![tactic(auto)]

pub mod batch;
mod batch_run;
pub mod check;
mod delivery;
mod export;
pub mod finish;
pub mod import;
pub mod inputs;
pub mod make;
pub mod messages;
pub mod resume;
pub mod run;
pub mod seek;
mod settling;
mod show;
mod shown;
pub mod status;
mod top_channel_runs;
pub mod verify;
pub mod view;
