//! The reader of an owners' file: from its bytes to the owners' lines, record after record. Its lines, records and numbers are those of
//! the constraint files.

ghost use Rattle.std.specs.Prelude.{◌≡◌, map, true};
ghost use Rattle.constraint_files.specs.Records.{line_records};
ghost use Rattle.pack_defs.specs.Lists.{is_ascending};
ghost use Rattle.owner_line.specs.OwnersOf.{owners_of, with_record, with_records};
ghost use Rattle.owner_line.specs.Read.{OwnerChanges, OwnerReads};

use crate::error::{OwnerAddErr, OwnerErr, OwnerWhy};
use crate::line::owner_line;
use constraint_files::records::{fields, split_line};
use pack_defs::owners::Owners;
use std::alloc::Global;

/// Adds the line of a record. After an error the owners are unusable.
fn add_record(
    owners: &mut Owners,
    rounds: u32,
    ids: &[u32],
    row: &[Vec<u8>],
) -> Result<(), OwnerAddErr>
    requires { is_ascending ids.now ≡ true }
    ensures { OwnerChanges (with_record rounds ids.now owners.old (map (λ f. f.items) row.now)) owners.new result }
{
    let line = owner_line(rounds, ids, row)?;
    if !owners.add(line)? {
        return Err(OwnerAddErr::Refused(OwnerWhy::Repeated));
    }
    Ok(())
}

/// Adds the lines of the records of one line of the file. After an error the owners are unusable.
fn add_line(
    alloc: Global,
    owners: &mut Owners,
    rounds: u32,
    ids: &[u32],
    line: &[u8],
) -> Result<(), OwnerAddErr>
    requires { is_ascending ids.now ≡ true }
    ensures { OwnerChanges (with_records rounds ids.now owners.old (line_records line.now)) owners.new result }
{
    let records = fields(alloc, line)?;
    for record in &records {
        add_record(owners, rounds, ids, record)?;
    }
    Ok(())
}

/// Reads an owners' file, for an auction with these stations, ascending, whose price falls in `rounds` rounds.
///
/// Each record is `round,facility,word`. Rounds count from 0, the round of the opening price, to the round of the last fall. The
/// station stays in the clock in this round (`stay`) or leaves (`leave`). Without a record it leaves. The owners have a line for each
/// record, in file order. Lines, records and numbers are those of the constraint files.
///
/// A record costs a binary search among the stations, and lookups in a tree of the earlier lines.
///
/// # Errors
///
/// `Row` at the first invalid record, with its line number, counted from 1, and its first error:
///
/// - fewer or more than three fields;
/// - a round or a facility that is no number;
/// - a round after the last fall;
/// - an unknown station;
/// - an unknown word;
/// - an earlier record of the same round and station.
///
/// `NoMemory` if memory runs out.
pub fn read_owners(
    alloc: Global,
    bytes: &[u8],
    rounds: u32,
    ids: &[u32],
) -> Result<Owners, OwnerErr>
    requires { is_ascending ids.now ≡ true }
    ensures { OwnerReads (owners_of bytes.now rounds ids.now) result }
{
    let mut owners = Owners::new(alloc);
    let mut rest = bytes;
    let mut number: u64 = 1;
    while !rest.is_empty() {
        let (line, after) = split_line(rest);
        match add_line(alloc, &mut owners, rounds, ids, line) {
            Ok(()) => {}
            Err(OwnerAddErr::Refused(why)) => return Err(OwnerErr::Row { line: number, why }),
            Err(OwnerAddErr::NoMemory) => return Err(OwnerErr::NoMemory),
        }
        rest = after;
        number += 1;
    }
    Ok(owners)
}
