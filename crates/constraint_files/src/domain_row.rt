//! From a record of a domains file to one station's domain.

ghost use Rattle.std.specs.Prelude.{◌≡◌, ◌<◌, ℕ, IfOk, MatchOption, filter, length, slice_index_or, true, false};
ghost use Rattle.std.specs.List.{list_all};
ghost use Rattle.pack_defs.specs.Lists.{is_in};
ghost use Rattle.constraint_files.specs.Domains.{channels_to_keep, domain_with_channels, domain_row};
ghost use Rattle.constraint_files.specs.Field.{is_channel};
ghost use Rattle.constraint_files.specs.Reads.{Takes};

use crate::error::{RowErr, RowWhy};
use crate::field::{channel, number_at, numbers_from};
use crate::record::CsvRecord;
use pack_defs::domain::Domain;
use pack_defs::items::Items;
use std::alloc::{AllocError as NoMemory, Global};

/// The first field of each record of a domains file.
const KEY: &[u8] = b"DOMAIN";

/// Returns flags for the channels that the numbers name, or `None` if some number is no channel.
fn named_channels(numbers: &[u32]) -> Option<[bool; 52]>
    ensures { MatchOption result (list_all is_channel numbers.now ≡ false)
        (λ flags. (list_all is_channel numbers.now ≡ true) × ((c : ℕ) → c < 52 → slice_index_or flags c false ≡ is_in numbers.now c)) }
{
    let mut is_named = [false; 52];
    for number in numbers {
        is_named[channel(*number)? as usize] = true;
    }
    Some(is_named)
}

/// Returns the named channels from 14 up, ascending.
fn kept_channels(alloc: Global, is_named: &[bool]) -> Result<Items<u8>, NoMemory>
    requires { length is_named.now ≡ 52 }
    ensures { IfOk result (λ kept. kept ≡ filter (λ c. slice_index_or is_named.now c false) channels_to_keep) }
{
    let mut kept = Vec::new(alloc);
    for channel in 14..52u8 {
        if is_named[channel as usize] {
            kept.push(channel)?;
        }
    }
    Ok(Items::from_vec(kept))
}

/// Returns the domain of a station whose row names these channels.
///
/// # Errors
/// Fails if some number is no channel, or memory runs out.
fn domain_with_channels(alloc: Global, station: u32, named: &[u32]) -> Result<Domain, RowErr>
    ensures { Takes (domain_with_channels station named.now) result }
{
    let Some(is_named) = named_channels(named) else {
        return Err(RowErr::Refused(RowWhy::ChannelRange));
    };
    Ok(Domain {
        station,
        channels: kept_channels(alloc, &is_named)?,
    })
}

/// Returns the domain of a record: `DOMAIN,facility,channel,...`.
///
/// # Errors
/// Fails with the record's first error, or if memory runs out.
pub(crate) fn domain_row(alloc: Global, fields: &CsvRecord) -> Result<Domain, RowErr>
    ensures { Takes (domain_row fields.now) result }
{
    let (Some(key), Some(_)) = (fields.get(0), fields.get(1)) else {
        return Err(RowErr::Refused(RowWhy::ShortRow));
    };
    if key != KEY {
        return Err(RowErr::Refused(RowWhy::BadKey));
    }
    let Some(station) = number_at(fields, 1) else {
        return Err(RowErr::Refused(RowWhy::BadNumber));
    };
    let named = numbers_from(alloc, fields, 2)?;
    domain_with_channels(alloc, station, named.as_slice())
}
