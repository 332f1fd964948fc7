//! Lines without quotes: one reader of `csv` reads them at once, since their records are those of each line by itself. This avoids a
//! new reader for each line, whose construction takes more time than reading the line.

ghost use Rattle.std.specs.Prelude.{◌≡◌, ◌+◌, IfOk, length};
ghost use Rattle.csv.specs.Records.{fields_of};
ghost use Rattle.constraint_files.specs.Reads.{Changes};
ghost use Rattle.constraint_files.specs.Records.{lines_of};
ghost use Rattle.constraint_files.specs.PlainLines.{Runs, RunsNext, after_raw, is_plain, is_special, line_number_at, raw_records};
ghost use Rattle.constraint_files.specs.declared.plain_lines.RecordsErr.TheVariants.{NoMemory as NoRoom};

use crate::error::{RowErr, RowWhy};
use crate::record::CsvRecord;
use crate::records::{rows_of_line, split_line};
use crate::table::Table;
use csv::{ByteRecord, ReaderBuilder};
use std::alloc::{AllocError as NoMemory, Global};

/// Why records were not added.
#[derive(Clone, Copy)]
pub(crate) enum RecordsErr {
    /// A record is invalid: the first one, which has this many records before it.
    Refused { before: u64, why: RowWhy },
    /// Memory ran out.
    NoMemory,
}

impl From<NoMemory> for RecordsErr {
    ghost from_gives = { λ _ e. e ≡ NoRoom };

    fn from(_e: NoMemory) -> RecordsErr {
        RecordsErr::NoMemory
    }
}

/// Adds one to a counter. No counter ever overflows in practice; an overflow counts as out of memory.
pub(crate) fn one_more(count: u64) -> Result<u64, NoMemory>
    ensures { IfOk result (λ n. n ≡ count + 1) }
{
    count.checked_add(1).ok_or(NoMemory)
}

/// Checks whether a byte is a quote or the first byte of a byte order mark.
fn is_special(byte: u8) -> bool
    ensures { result ≡ is_special byte }
{
    byte == 34 || byte == 239
}

/// Checks whether no byte is a quote or the first byte of a byte order mark. With either, a line might be read differently behind
/// another line.
pub(crate) fn is_plain(bytes: &[u8]) -> bool
    ensures { result ≡ is_plain bytes.now }
{
    for byte in bytes {
        if is_special(*byte) {
            return false;
        }
    }
    true
}

/// Adds a record to the table, if the record has a field left. After an error the table is unusable.
fn add_row<T: Table>(alloc: Global, table: &mut T, row: ByteRecord) -> Result<(), RowErr>
    ensures { Changes (after_raw T.add table.old (fields_of row)) table.new result }
{
    let record = CsvRecord::new(row);
    if record.len() == 0 {
        return Ok(());
    }
    table.add_record(alloc, &record)
}

/// Adds a record that has `before` records before it, and returns the number of records before the next one. After an error the table is
/// unusable.
fn add_next<T: Table>(
    alloc: Global,
    table: &mut T,
    row: ByteRecord,
    before: u64,
) -> Result<u64, RecordsErr>
    ensures { RunsNext T.add table.old (fields_of row) before table.new result }
{
    match add_row(alloc, table, row) {
        Ok(()) => Ok(one_more(before)?),
        Err(RowErr::Refused(why)) => Err(RecordsErr::Refused { before, why }),
        Err(RowErr::NoMemory) => Err(RecordsErr::NoMemory),
    }
}

/// Adds the records that the reader of `csv` returns for these bytes, and returns the table.
pub(crate) fn add_records<T: Table + Drop>(
    alloc: Global,
    table: T,
    bytes: &[u8],
) -> Result<T, RecordsErr>
    ensures { Runs T.add table (raw_records bytes.now) result }
{
    let reader = ReaderBuilder::new()
        .has_headers(false)
        .flexible(true)
        .from_reader(alloc, bytes);
    let mut table = table;
    let mut before: u64 = 0;
    for row in reader.into_byte_records() {
        let Ok(row) = row else {
            return Err(RecordsErr::NoMemory);
        };
        before = add_next(alloc, &mut table, row, before)?;
    }
    Ok(table)
}

/// Returns the line number after the last of these lines, the first of which has this number.
pub(crate) fn next_line_number(number: u64, bytes: &[u8]) -> Result<u64, NoMemory>
    ensures { IfOk result (λ n. n ≡ number + length (lines_of bytes.now)) }
{
    let mut number = number;
    let mut rest = bytes;
    while !rest.is_empty() {
        rest = split_line(rest).1;
        number = one_more(number)?;
    }
    Ok(number)
}

/// Returns the number of the line of a record that has `before` records before it; the first line has this number.
pub(crate) fn line_at(
    alloc: Global,
    number: u64,
    before: u64,
    bytes: &[u8],
) -> Result<u64, NoMemory>
    ensures { IfOk result (λ n. n ≡ line_number_at number before (lines_of bytes.now)) }
{
    let mut number = number;
    let mut before = before;
    let mut rest = bytes;
    while !rest.is_empty() {
        let (line, after) = split_line(rest);
        let count = rows_of_line(alloc, line)?.len() as u64;
        if before < count {
            return Ok(number);
        }
        before -= count;
        number = one_more(number)?;
        rest = after;
    }
    Ok(number)
}
