//! The reader of a batch list: the names of scenario files, each with the name of the file for its result.
//!
//! The crate may call `split_line` and `fields` of `constraint_files`, whose definitions of lines, records and fields it uses, and
//! otherwise the standard library alone. It opens no file and prints nothing. In reading order:
//!
//! - `error`: why a list is rejected.
//! - `line`: the names of a record.
//! - `read`: the reader of the list.
//! - `repeated`: whether a result's name occurs twice.
#![tactic(auto)]

pub mod error;
pub mod line;
pub mod read;
pub mod repeated;
