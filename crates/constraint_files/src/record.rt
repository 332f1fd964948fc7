//! One record of a constraint file: its fields, cut and trimmed.

ghost use Rattle.std.specs.Prelude.{◌≡◌, ◌≤◌, length, map, take, true};
ghost use Rattle.std.specs.Option.{option_map, option_map_or};
ghost use Rattle.pack_defs.specs.Lists.{is_empty};
ghost use Rattle.csv.specs.Records.{field_at, fields_of};
ghost use Rattle.constraint_files.specs.Records.{is_blank, kept_fields, trimmed, without_leading, without_trailing};

use csv::ByteRecord;
use std::marker::Model;

/// A record without the spaces and tabs around its fields, and without the empty fields at its end.
#[derive(Drop)]
pub(crate) struct CsvRecord {
    row: ByteRecord,
    kept: usize,
}

impl Model for CsvRecord {
    ghost use Rattle.std.specs.Prelude.{◌≡◌, ◌≤◌, List, ℕ, length, map, take};
    ghost use Rattle.csv.specs.Records.{fields_of};
    ghost use Rattle.constraint_files.specs.Records.{kept_fields, trimmed};

    ghost Value = { List (List ℕ) };

    ghost view = { λ r. kept_fields (fields_of r.row) };

    ghost invariant = { λ r. (r.kept ≤ length (fields_of r.row)) × (kept_fields (fields_of r.row) ≡ take r.kept (map trimmed (fields_of r.row))) };
}

/// Checks whether a byte is a space or a tab.
fn is_blank(byte: u8) -> bool
    ensures { result ≡ is_blank byte }
{
    byte == b' ' || byte == b'\t'
}

/// Returns a field without the blanks at its start.
fn without_leading(field: &[u8]) -> &[u8]
    ensures { result.now ≡ without_leading is_blank field.now }
{
    for (i, byte) in field.iter().enumerate() {
        if !is_blank(*byte) {
            return &field[i..];
        }
    }
    &[]
}

/// Returns a field without the blanks at its end.
fn without_trailing(field: &[u8]) -> &[u8]
    ensures { result.now ≡ without_trailing is_blank field.now }
{
    let mut end = field.len();
    while end > 0 && is_blank(field[end - 1]) {
        end -= 1;
    }
    &field[..end]
}

/// Returns a field without the blanks around it.
fn trimmed(field: &[u8]) -> &[u8]
    ensures { result.now ≡ trimmed field.now }
{
    without_trailing(without_leading(field))
}

/// Returns a row's field at this place without the blanks around it, if the row has the field.
fn trimmed_at(row: &ByteRecord, i: usize) -> Option<&[u8]>
    ensures { option_map (λ f. f.now) result ≡ option_map trimmed (field_at (fields_of row.now) i) }
{
    Some(trimmed(row.get(i)?))
}

/// Checks whether a row's field at this place is blank or missing.
fn is_blank_at(row: &ByteRecord, i: usize) -> bool
    ensures { result ≡ option_map_or is_empty (option_map trimmed (field_at (fields_of row.now) i)) true }
{
    match trimmed_at(row, i) {
        Some(field) => field.is_empty(),
        None => true,
    }
}

/// Counts the fields of a row up to the last one that isn't blank.
fn count_kept(row: &ByteRecord) -> usize
    ensures fits { result ≤ length (fields_of row.now) }
    ensures kept { kept_fields (fields_of row.now) ≡ take result (map trimmed (fields_of row.now)) }
{
    let mut kept = row.len();
    while kept > 0 && is_blank_at(row, kept - 1) {
        kept -= 1;
    }
    kept
}

impl CsvRecord {
    pub(crate) fn new(row: ByteRecord) -> CsvRecord
        ensures { result ≡ kept_fields (fields_of row) }
    {
        let kept = count_kept(&row);
        CsvRecord { row, kept }
    }

    /// Returns the number of fields.
    pub(crate) fn len(&self) -> usize
        ensures { result ≡ length self.now }
    {
        self.kept
    }

    /// Returns the field at this place, if the record has the field.
    pub(crate) fn get(&self, i: usize) -> Option<&[u8]>
        ensures { option_map (λ f. f.now) result ≡ field_at self.now i }
    {
        if i < self.kept {
            trimmed_at(&self.row, i)
        } else {
            None
        }
    }
}
