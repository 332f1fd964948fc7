//! The reader of a list: from its bytes to its records, one after another. Its lines, records and fields are those of the
//! constraint files.

ghost use Rattle.std.specs.Prelude.{◌≤◌, [], IfOk, length, map};
ghost use Rattle.constraint_files.specs.Records.{line_records, lines_of};
ghost use Rattle.batch_list.specs.ListOf.{list_limit, list_of, with_list_lines, with_listed, with_all_listed};
ghost use Rattle.batch_list.specs.Read.{ListChanges, ListReads};

use crate::error::{ListAddErr, ListErr};
use crate::line::{BatchLine, names_of};
use constraint_files::records::{fields, split_line};
use std::alloc::Global;

/// The most records of a list.
pub const LIST_LIMIT: usize = 256;

/// Adds a record. After an error the list is unusable.
fn add_record(alloc: Global, list: &mut Vec<BatchLine>, row: &[Vec<u8>]) -> Result<(), ListAddErr>
    ensures { ListChanges (with_listed list.old.items (map (λ f. f.items) row.now)) list.new.items result }
{
    if list.len() >= LIST_LIMIT {
        return Err(ListAddErr::Refused);
    }
    let Some((scenario, output)) = names_of(row) else {
        return Err(ListAddErr::Refused);
    };
    list.push(BatchLine::new(alloc, scenario, output)?)?;
    Ok(())
}

/// Adds the records of one line of the file. After an error the list is unusable.
fn add_line(alloc: Global, list: &mut Vec<BatchLine>, line: &[u8]) -> Result<(), ListAddErr>
    ensures { ListChanges (with_all_listed list.old.items (line_records line.now)) list.new.items result }
{
    let records = fields(alloc, line)?;
    for record in &records {
        add_record(alloc, list, record)?;
    }
    Ok(())
}

/// Reads the records of a list, which may be empty.
fn read_records(alloc: Global, bytes: &[u8]) -> Result<Vec<BatchLine>, ListErr>
    ensures { ListReads (with_list_lines [] 1 (lines_of bytes.now)) result }
{
    let mut list = Vec::new(alloc);
    let mut rest = bytes;
    let mut number: u64 = 1;
    while !rest.is_empty() {
        let (line, after) = split_line(rest);
        match add_line(alloc, &mut list, line) {
            Ok(()) => {}
            Err(ListAddErr::Refused) => return Err(ListErr::BadLine { line: number }),
            Err(ListAddErr::NoMemory) => return Err(ListErr::NoMemory),
        }
        rest = after;
        number += 1;
    }
    Ok(list)
}

/// Reads the list of a batch. Each record is `SCENARIO,RESULT`: the name of a scenario file, and the name of the file for its result,
/// both UTF-8. A list has 1 to 256 records, which are returned in the order of the list.
///
/// Lines, records and fields are those of the constraint files. Blanks around a name are dropped, a name with a comma must be quoted,
/// and a line without a field is skipped.
///
/// # Errors
///
/// `BadLine` at the first record that does not have two fields, has a field that isn't UTF-8, or is the 257th, with its line number,
/// counted from 1. `Empty` if the list has no record. `NoMemory` if memory runs out.
pub fn read_list(alloc: Global, bytes: &[u8]) -> Result<Vec<BatchLine>, ListErr>
    ensures reads { ListReads (list_of bytes.now) result }
    ensures some { IfOk result (λ v. 1 ≤ length v.items) }
    ensures few { IfOk result (λ v. length v.items ≤ list_limit) }
{
    let list = read_records(alloc, bytes)?;
    if list.is_empty() {
        return Err(ListErr::Empty);
    }
    Ok(list)
}
