//! The command line, as `clap` parses it: which command it is, and the names and numbers of its arguments.
//!
//! `auction_cmd` calls this crate, and has `commands` carry the commands out. The modules in reading order:
//!
//! - `words`: the program with all its commands, and the parser.
//! - `run_words`: the arguments of `run`, `live`, `check`, `verify` and `verify-live`, which other commands share.
//! - `file_args`: arguments that name files.
//! - `make_words`, `batch_words`, `seek_words`, `resume_words`, `show_words`: the arguments of one command each.
//! - `proof_words`: the arguments of `export` and `import`.
//! - `repeated`: which name of a file to store is given again.
#![tactic(auto)]

pub mod batch_words;
mod file_args;
pub mod make_words;
pub mod proof_words;
mod repeated;
pub mod resume_words;
pub mod run_words;
pub mod seek_words;
pub mod show_words;
pub mod words;
