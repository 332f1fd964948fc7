//! The variables of the packing formula: one for each station of the set and each channel of its domain.

ghost use Rattle.std.specs.Prelude.{◌≡◌, ◌+◌, ◌<◌, ◌≤◌, IfOk, IsTrue, length, slice_index, take};
ghost use Rattle.pack_defs.specs.Lists.{is_ascending, is_in};
ghost use Rattle.pack_defs.specs.Book.{domain_of};
ghost use Rattle.cnf_encode.specs.Formula.{variable_of};
ghost use Rattle.cnf_encode.specs.ByStation.{AreOffsets, IsCount};

use pack_defs::book::Book;
use std::alloc::{AllocError as NoMemory, Global};

/// Returns the variable, numbered from 1, that is true if `station` of an ascending set is on channel `c` of its domain. Costs a
/// lookup of the domain of each station before it.
pub fn var(book: &Book, set: &[u32], station: u32, c: u8) -> u32
    requires ascending { IsTrue (is_ascending set.now) }
    requires of_set { IsTrue (is_in set.now station) }
    requires on_domain { IsTrue (is_in (domain_of book.now station) c) }
    ensures { result ≡ variable_of book.now set.now (station, c) }
{
    let place = set.partition_point(|t| *t < station);
    let mut before = 0;
    for i in 0..place {
        before = with_station(book, set, i, before);
    }
    before + place_of(channels_of(book, station), c) as u32 + 1
}

// Returns for each station of an ascending set how many variables the stations before it have, and at the end how many all have.
pub(crate) fn offsets(alloc: Global, book: &Book, set: &[u32]) -> Result<Vec<u32>, NoMemory>
    requires { IsTrue (is_ascending set.now) }
    ensures { IfOk result (λ offsets. AreOffsets book.now set.now offsets.items) }
{
    let mut offsets = Vec::new(alloc);
    let mut before = 0;
    offsets.push(before)?;
    for i in 0..set.len() {
        before = with_station(book, set, i, before);
        offsets.push(before)?;
    }
    Ok(offsets)
}

// Returns how many variables the stations up to and with place `i` have, if those before it have `before`.
fn with_station(book: &Book, set: &[u32], i: usize, before: u32) -> u32
    requires ascending { IsTrue (is_ascending set.now) }
    requires in_set { i < length set.now }
    requires counted { IsCount book.now (take i set.now) before }
    ensures { IsCount book.now (take (i + 1) set.now) result }
{
    // The sum does not overflow.
    book.keeps_limit();
    before + count_of(channels_of(book, set[i]))
}

// Returns the number of these channels, which is at most 256 since they ascend.
pub(crate) fn count_of(channels: &[u8]) -> u32
    requires { IsTrue (is_ascending channels.now) }
    ensures count { result ≡ length channels.now }
    ensures few { result ≤ 256 }
{
    channels.len() as u32
}

// Lends the channels of a station, which ascend.
pub(crate) fn channels_of(book: &Book, station: u32) -> &[u8]
    ensures channels { result.now ≡ domain_of book.now station }
    ensures ascending { IsTrue (is_ascending result.now) }
{
    book.keeps_order();
    book.domain(station)
}

// Returns the place of one of these ascending channels, by binary search.
pub(crate) fn place_of(channels: &[u8], c: u8) -> usize
    requires ascending { IsTrue (is_ascending channels.now) }
    requires has { IsTrue (is_in channels.now c) }
    ensures within { result < length channels.now }
    ensures few { result < 256 }
    ensures at { slice_index channels.now result ≡ c }
{
    channels.partition_point(|d| *d < c)
}
