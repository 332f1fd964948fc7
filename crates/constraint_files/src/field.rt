//! The numbers in fields.
ghost use Rattle.std.specs.Prelude.{◌≡◌, drop, if◌then◌else◌};
ghost use Rattle.std.specs.Option.{ok_or, option_and_then};
ghost use Rattle.csv.specs.Records.{field_at};
ghost use Rattle.constraint_files.specs.Field.{is_channel, number, numbers};
ghost use Rattle.constraint_files.specs.Reads.{Takes};
ghost use Rattle.constraint_files.specs.declared.error.RowWhy.TheVariants.{BadNumber};

use crate::error::{RowErr, RowWhy};
use crate::record::CsvRecord;
use pack_defs::items::Items;
use std::alloc::Global;

/// The greatest number of a field.
const GREATEST: u64 = 4_294_967_295;

/// Returns the number of a field: one or more ASCII digits, leading zeros allowed, at most 4,294,967,295. Returns `None` for any
/// other field.
pub fn number(field: &[u8]) -> Option<u32>
    ensures { result ≡ number field.now }
{
    if field.is_empty() {
        return None;
    }
    let mut value: u64 = 0;
    for byte in field {
        if !byte.is_ascii_digit() {
            return None;
        }
        value = 10 * value + u64::from(*byte - b'0');
        if value > GREATEST {
            return None;
        }
    }
    Some(value as u32)
}

/// Returns the number of a record's field at this place, if the field exists and is a number.
pub(crate) fn number_at(fields: &CsvRecord, i: usize) -> Option<u32>
    ensures { result ≡ option_and_then number (field_at fields.now i) }
{
    number(fields.get(i)?)
}

/// Returns the numbers of a record's fields from this place on.
///
/// # Errors
/// Fails if some field is no number, or memory runs out.
pub(crate) fn numbers_from(
    alloc: Global,
    fields: &CsvRecord,
    from: usize,
) -> Result<Items<u32>, RowErr>
    ensures { Takes (ok_or (numbers (drop from fields.now)) BadNumber) result }
{
    let mut list = Vec::with_capacity(alloc, fields.len())?;
    for i in from..fields.len() {
        match number_at(fields, i) {
            Some(n) => list.push(n)?,
            None => return Err(RowErr::Refused(RowWhy::BadNumber)),
        }
    }
    Ok(Items::from_vec(list))
}

/// Returns the number as a channel, if it is from 2 to 51.
pub(crate) fn channel(number: u32) -> Option<u8>
    ensures { result ≡ (if is_channel number then Some number else None) }
{
    match number {
        2..=51 => Some(number as u8),
        _ => None,
    }
}
