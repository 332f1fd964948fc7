//! The readers of the two constraint files of an auction: which channels each station may use, and which pairs interfere. The files
//! have the layout of the FCC's `Domain.csv` and `Interference_Paired.csv`.
//!
//! The crate may call `pack_defs`, and opens no file: the caller passes the bytes. In reading order:
//!
//! - `error`: why a file is rejected.
//! - `domains`, `pairs`: the readers of the two files.
//! - `records`, `field`: lines, records and numbers, which readers of other lists use too.
//! - `line_reader`, `plain_lines`: from pieces to lines, and many plain lines at once.
//! - `table`: what the records of a file add up to.
//! - `record`: one record, trimmed.
//! - `domain_row`, `domain_table`: from records to domains.
//! - `interference_row`, `pair_table`, `in_order`: from records to pairs.
#![tactic(auto)]

mod domain_row;
mod domain_table;
pub mod domains;
pub mod error;
pub mod field;
mod in_order;
mod interference_row;
mod line_reader;
mod pair_table;
pub mod pairs;
mod plain_lines;
mod record;
pub mod records;
mod table;
