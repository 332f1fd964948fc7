//! The number of clauses of a packing formula. A proof text numbers its lines after them.

ghost use Rattle.std.specs.Prelude.{◌≡◌, ◌*◌, ◌+◌, ◌<◌, ◌≤◌, ◌^◌, ℕ, IsTrue, length, map, slice_index};
ghost use Rattle.std.specs.List.{filter, flat_map};
ghost use Rattle.pack_defs.specs.Lists.{is_ascending};
ghost use Rattle.pack_defs.specs.Limits.{MOST_STATIONS};
ghost use Rattle.cnf_encode.specs.ByStation.{pairs_inside_from};
ghost use Rattle.cnf_encode.specs.Formula.{at_most_one, is_inside, packing_formula, station_variables};

use crate::numbering::{channels_of, count_of};
use pack_defs::book::Book;

/// Returns the number of clauses of the packing formula of an ascending set, without making them. Only the number of channels and
/// the pairs from each station of the set are read. Takes no memory. The numbers of 2^32 lines of a log after these clauses fit
/// too.
pub fn clause_count(book: &Book, set: &[u32]) -> u64
    requires { IsTrue (is_ascending set.now) }
    ensures count { result ≡ length (packing_formula book.now set.now) }
    ensures few { result + 2 ^ 32 ≤ 2 ^ 63 }
{
    set.len() as u64 + at_most_one_count(book, set) + pair_count(book, set)
}

// Returns how many clauses say that no station of the set is on two channels.
fn at_most_one_count(book: &Book, set: &[u32]) -> u64
    requires { IsTrue (is_ascending set.now) }
    ensures count { result ≡ length (flat_map (λ s. at_most_one (station_variables book.now set.now s)) set.now) }
    ensures few { result ≤ 32768 * MOST_STATIONS }
{
    // The sum does not overflow.
    book.keeps_limit();
    let mut count = 0;
    for i in 0..set.len() {
        count += station_at_most_one_count(channels_of(book, set[i]));
    }
    count
}

// Returns how many clauses say that no two of a station's variables are true: one for each two of its channels.
fn station_at_most_one_count(channels: &[u8]) -> u64
    requires { IsTrue (is_ascending channels.now) }
    ensures count { (variable : ℕ → ℕ) → result ≡ length (at_most_one (map variable channels.now)) }
    ensures few { (result ≤ 128 * length channels.now) × (length channels.now ≤ 256) }
{
    let n = u64::from(count_of(channels));
    if n == 0 {
        return 0;
    }
    n * (n - 1) / 2
}

// Returns how many pairs of the book are between two stations of the set.
fn pair_count(book: &Book, set: &[u32]) -> u64
    requires { IsTrue (is_ascending set.now) }
    ensures count { result ≡ length (filter (is_inside set.now) book.now.pairs) }
    ensures few { result < 2 ^ 62 }
{
    // The sum does not overflow.
    book.keeps_order();
    book.keeps_to_memory();
    let mut count = 0;
    for i in 0..set.len() {
        count += pairs_inside(book, set, i);
    }
    count
}

// Returns how many pairs of the book are from the station at place `i` of the set to a station of the set.
fn pairs_inside(book: &Book, set: &[u32], i: usize) -> u64
    requires ascending { IsTrue (is_ascending set.now) }
    requires in_set { i < length set.now }
    ensures { result ≡ length (pairs_inside_from book.now set.now (slice_index set.now i)) }
{
    let mut count = 0;
    for p in book.pairs_from(set[i]) {
        let Ok(_) = set.binary_search(&p.g) else {
            continue;
        };
        count += 1;
    }
    count
}
