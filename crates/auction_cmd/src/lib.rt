//! The program, over any folder, sink and gate: it parses the words of the command line and carries out the command.
//!
//! The contract of `auction_main` is what the project proves. This crate may call `commands`, `command_words` and the crates below
//! them. `auction_cli`, which is the program, and the tests call it; no other crate knows it. Its only module:
//!
//! - `auction`: `auction_main`, which carries out the command of the words.
#![tactic(auto)]

pub mod auction;
