//! The reader of an owners' file: the owners' lines of a live auction.
//!
//! The crate may call `pack_defs` and the lines and fields of `constraint_files`, and opens no file. In reading order:
//!
//! - `error`: why a file is rejected.
//! - `line`: the line of a record.
//! - `read`: the reader of the file.
//! - `laws`: what a line means for its station.
#![tactic(auto)]

pub mod error;
pub mod laws;
mod line;
pub mod read;
