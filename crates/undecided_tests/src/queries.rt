//! Counts the queries that the first steps of a record took, which numbers the query after them.

ghost use Rattle.std.specs.Prelude.{◌≡◌, ◌≤◌, ◌+◌, count_by, length, take};
ghost use Rattle.auction_core.specs.Prefix.{queries_taken, took_query};

use auction_core::record::{Shown, Step};

// Whether a test settled so took a query.
fn took_query(shown: &Shown) -> bool
    ensures { result ≡ took_query shown.now }
{
    match shown {
        Shown::Empty | Shown::Same | Shown::NoChannel(_) => false,
        Shown::Fits(_) | Shown::Refuted { .. } | Shown::Outside(_) => true,
        Shown::Undecided(_) => true,
    }
}

// Returns how many of the first `count` steps took a query.
fn queries_among(steps: &[Step], count: usize) -> usize
    requires { count ≤ length steps.now }
    ensures queries { result ≡ count_by (λ x. took_query x.shown) (take count steps.now) }
    ensures few { result ≤ count }
{
    let mut queries = 0;
    for k in 0..count {
        if took_query(&steps[k].shown) {
            queries += 1;
        }
    }
    queries
}

/// Returns how many queries the start and the first `count` steps took. Makes one pass over these steps.
pub(crate) fn queries_taken(start: &Shown, steps: &[Step], count: usize) -> u64
    requires { count ≤ length steps.now }
    ensures queries { result ≡ queries_taken start.now (take count steps.now) }
    ensures few { result ≤ count + 1 }
{
    let queries = queries_among(steps, count) as u64;
    if took_query(start) {
        return 1 + queries;
    }
    queries
}
