//! The reader of a file that comes in pieces. It cuts the pieces into lines, stores the unfinished line, counts the lines, and adds the
//! records of each line to a table. Both constraint files are read with it.

ghost use Rattle.std.specs.Prelude.{◌≡◌, ◌<◌, ◌+◌, ◌∷◌, ◌++◌, [], IfOk, Ok, false, length, true};
ghost use Rattle.constraint_files.specs.LineReader.{begun_line, fed_unless_rejected, fed_on, finished, has_end};
ghost use Rattle.constraint_files.specs.Reads.{Changes, Reads};
ghost use Rattle.constraint_files.specs.PlainLines.{is_plain};
ghost use Rattle.constraint_files.specs.Records.{after_lines, after_records, line_records, lines_of};

use crate::error::{ReadErr, RowErr};
use crate::plain_lines::{RecordsErr, add_records, is_plain, line_at, next_line_number, one_more};
use crate::records::{records_of_line, split_line, split_whole};
use crate::table::Table;
use std::alloc::{AllocError as NoMemory, Global};
use std::marker::Model;

/// A reader of lines: the table of the complete lines, the bytes of the unfinished line, and the number of that line.
#[derive(Drop)]
pub(crate) struct LineReader<T> {
    table: T,
    begun: Vec<u8>,
    number: u64,
}

impl<T> Model for LineReader<T> {
    ghost use Rattle.std.specs.Prelude.{◌≡◌, false};
    ghost use Rattle.constraint_files.specs.LineReader.{FeedState, has_end};

    ghost Value = { FeedState T };

    ghost view = { λ r. record { made = r.table; begun = r.begun.items; line = r.number } };

    ghost invariant = { λ r. has_end r.begun.items ≡ false };
}

/// Adds the records of one line. After an error the table is unusable.
fn add_line<T: Table>(alloc: Global, table: &mut T, line: &[u8]) -> Result<(), RowErr>
    ensures { Changes (after_records T.add table.old (line_records line.now)) table.new result }
{
    let records = records_of_line(alloc, line)?;
    for record in &records {
        table.add_record(alloc, record)?;
    }
    Ok(())
}

impl<T: Table + Drop> LineReader<T> {
    /// Returns a reader before the first line.
    pub(crate) fn new(alloc: Global, table: T) -> LineReader<T>
        ensures { result ≡ record { made = table; begun = []; line = 1 } }
    {
        LineReader {
            table,
            begun: Vec::new(alloc),
            number: 1,
        }
    }

    /// Adds the records of these lines. The first line has the number of the unfinished line.
    fn add_lines(self, alloc: Global, bytes: &[u8]) -> Result<LineReader<T>, ReadErr>
        ensures { Reads (fed_unless_rejected (after_lines T.add self.made self.line (lines_of bytes.now)) self.begun (self.line + length (lines_of bytes.now))) result }
    {
        if is_plain(bytes) {
            return self.add_plain_lines(alloc, bytes);
        }
        self.add_each_line(alloc, bytes)
    }

    /// Adds the records of these lines, which have no quotes, at once.
    fn add_plain_lines(self, alloc: Global, bytes: &[u8]) -> Result<LineReader<T>, ReadErr>
        requires { is_plain bytes.now ≡ true }
        ensures { Reads (fed_unless_rejected (after_lines T.add self.made self.line (lines_of bytes.now)) self.begun (self.line + length (lines_of bytes.now))) result }
    {
        let LineReader {
            table,
            begun,
            number,
        } = self;
        match add_records(alloc, table, bytes) {
            Ok(table) => {
                let number = next_line_number(number, bytes)?;
                return Ok(LineReader {
                    table,
                    begun,
                    number,
                });
            }
            Err(RecordsErr::Refused { before, why }) => {
                let line = line_at(alloc, number, before, bytes)?;
                return Err(ReadErr::Row { line, why });
            }
            Err(RecordsErr::NoMemory) => return Err(ReadErr::NoMemory),
        }
    }

    /// Adds the records of these lines, line by line.
    fn add_each_line(self, alloc: Global, bytes: &[u8]) -> Result<LineReader<T>, ReadErr>
        ensures { Reads (fed_unless_rejected (after_lines T.add self.made self.line (lines_of bytes.now)) self.begun (self.line + length (lines_of bytes.now))) result }
    {
        let LineReader {
            table,
            begun,
            number,
        } = self;
        let mut table = table;
        let mut number = number;
        let mut rest = bytes;
        while !rest.is_empty() {
            let (line, after) = split_line(rest);
            match add_line(alloc, &mut table, line) {
                Ok(()) => {}
                Err(RowErr::Refused(why)) => return Err(ReadErr::Row { line: number, why }),
                Err(RowErr::NoMemory) => return Err(ReadErr::NoMemory),
            }
            rest = after;
            number = one_more(number)?;
        }
        Ok(LineReader {
            table,
            begun,
            number,
        })
    }

    /// Appends these bytes to the unfinished line.
    fn begin(self, bytes: &[u8]) -> Result<LineReader<T>, NoMemory>
        requires { has_end bytes.now ≡ false }
        ensures begun { IfOk result (λ r. r ≡ record { made = self.made; begun = self.begun ++ bytes.now; line = self.line }) }
        ensures fed { IfOk result (λ r. fed_on T.add self bytes.now ≡ Ok r) }
    {
        let mut reader = self;
        reader.begun.extend_from_slice(bytes)?;
        Ok(reader)
    }

    /// Completes the unfinished line with these bytes, and adds its records.
    fn end_line(self, alloc: Global, bytes: &[u8]) -> Result<LineReader<T>, ReadErr>
        requires begun { 0 < length self.begun }
        requires one { has_end bytes.now ≡ false }
        ensures { Reads (fed_unless_rejected (after_lines T.add self.made self.line ((self.begun ++ bytes.now) ∷ [])) [] (self.line + 1)) result }
    {
        let LineReader {
            table,
            begun,
            number,
        } = self.begin(bytes)?;
        let ended = LineReader {
            table,
            begun: Vec::new(alloc),
            number,
        };
        ended.add_lines(alloc, &begun)
    }

    /// Adds the records of these lines, the first of which completes the unfinished line.
    fn add_whole(self, alloc: Global, bytes: &[u8]) -> Result<LineReader<T>, ReadErr>
        requires some { 0 < length bytes.now }
        requires whole { begun_line bytes.now ≡ [] }
        ensures { Reads (fed_on T.add self bytes.now) result }
    {
        if self.begun.is_empty() {
            return self.add_lines(alloc, bytes);
        }
        let (line, after) = split_line(bytes);
        self.end_line(alloc, line)?.add_lines(alloc, after)
    }

    /// Reads the next piece of the file: adds the records of the lines that it completes, and stores the line that it begins.
    pub(crate) fn feed(self, alloc: Global, piece: &[u8]) -> Result<LineReader<T>, ReadErr>
        ensures { Reads (fed_on T.add self piece.now) result }
    {
        let (whole, rest) = split_whole(piece);
        if whole.is_empty() {
            return Ok(self.begin(rest)?);
        }
        Ok(self.add_whole(alloc, whole)?.begin(rest)?)
    }

    /// Returns the table with the records of the unfinished line: the file ends here.
    pub(crate) fn finish(self, alloc: Global) -> Result<T, ReadErr>
        ensures { Reads (finished T.add self) result }
    {
        let LineReader {
            table,
            begun,
            number,
        } = self;
        let ended = LineReader {
            table,
            begun: Vec::new(alloc),
            number,
        };
        let LineReader { table, .. } = ended.add_lines(alloc, &begun)?;
        Ok(table)
    }
}
