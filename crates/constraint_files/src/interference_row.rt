//! From a record of a rows file to the pairs that it forbids.

ghost use Rattle.std.specs.Prelude.{◌≡◌};
ghost use Rattle.constraint_files.specs.Reads.{Takes};
ghost use Rattle.constraint_files.specs.PairTable.{interference_row, offset_of, row_on};

use crate::error::{RowErr, RowWhy};
use crate::field::{channel, number_at, numbers_from};
use crate::record::CsvRecord;
use pack_defs::items::Items;
use std::alloc::Global;

/// How far the second channel of a row is above the first, or below it.
#[derive(Clone, Copy)]
pub struct Offset {
    pub above: u8,
    pub below: u8,
}

/// A row: the station on `channel` interferes with each of the others on `other_channel`.
#[derive(Drop)]
pub struct Row {
    pub channel: u8,
    pub other_channel: u8,
    pub station: u32,
    pub others: Items<u32>,
}

/// Returns the offset of the second channel from the first, by a row's key.
fn offset_of(key: &[u8]) -> Option<Offset>
    ensures { result ≡ offset_of key.now }
{
    match key {
        b"CO" => Some(Offset { above: 0, below: 0 }),
        b"ADJ+1" => Some(Offset { above: 1, below: 0 }),
        b"ADJ-1" => Some(Offset { above: 0, below: 1 }),
        b"ADJ+2" => Some(Offset { above: 2, below: 0 }),
        b"ADJ-2" => Some(Offset { above: 0, below: 2 }),
        _ => None,
    }
}

/// Returns the row of these numbers.
///
/// # Errors
/// Fails if a or b is no channel, or b is not as far from a as the key says.
fn row_on(offset: Offset, a: u32, b: u32, station: u32, others: Items<u32>) -> Result<Row, RowWhy>
    ensures { result ≡ row_on offset a b station others }
{
    let (Some(channel), Some(other_channel)) = (channel(a), channel(b)) else {
        return Err(RowWhy::ChannelRange);
    };
    if u32::from(other_channel) + u32::from(offset.below)
        != u32::from(channel) + u32::from(offset.above)
    {
        return Err(RowWhy::BadOffset);
    }
    Ok(Row {
        channel,
        other_channel,
        station,
        others,
    })
}

/// Returns the row of a record: `KEY,a,b,s,t,...`.
///
/// # Errors
/// Fails with the record's first error, or if memory runs out.
pub(crate) fn interference_row(alloc: Global, fields: &CsvRecord) -> Result<Row, RowErr>
    ensures { Takes (interference_row fields.now) result }
{
    let (Some(key), Some(_)) = (fields.get(0), fields.get(3)) else {
        return Err(RowErr::Refused(RowWhy::ShortRow));
    };
    let Some(offset) = offset_of(key) else {
        return Err(RowErr::Refused(RowWhy::BadKey));
    };
    let (Some(a), Some(b), Some(station)) = (
        number_at(fields, 1),
        number_at(fields, 2),
        number_at(fields, 3),
    ) else {
        return Err(RowErr::Refused(RowWhy::BadNumber));
    };
    let others = numbers_from(alloc, fields, 4)?;
    Ok(row_on(offset, a, b, station, others)?)
}
