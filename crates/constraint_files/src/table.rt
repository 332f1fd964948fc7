//! What the records of a file add up to, one after the other. The reader of lines is generic over this trait.

ghost use Rattle.constraint_files.specs.Reads.{Changes};

use crate::error::RowErr;
use crate::record::CsvRecord;
use std::alloc::Global;

/// The result of the records of a file.
pub(crate) trait Table {
    ghost use Rattle.std.specs.Prelude.{List, Result, ℕ};
    ghost use Rattle.constraint_files.specs.declared.error.RowWhy.{RowWhy};

    /// The table with a record, or why the record is invalid.
    ghost add: { Self → List (List ℕ) → Result Self RowWhy };

    /// Adds a record. After an error the table is unusable.
    fn add_record(&mut self, alloc: Global, fields: &CsvRecord) -> Result<(), RowErr>
        ensures { Changes (add self.old fields.now) self.new result };
}
