//! The pairs of one station, by binary search in a list of pairs whose first or second station never falls.

ghost use Rattle.std.specs.Prelude.{◌≡◌, ◌==◌, IfOk, filter};
ghost use Rattle.std.specs.List.Sorted.{IsNonDecreasingBy};
ghost use Rattle.pack_defs.specs.PairOrders.{IsBySecond};

use crate::pair::Pair;
use std::alloc::{AllocError as NoMemory, Global};

/// Returns the pairs by second station; the pairs of one second station stay in their order.
pub fn sorted_by_second(alloc: Global, pairs: &[Pair]) -> Result<Vec<Pair>, NoMemory>
    ensures { IfOk result (λ sorted. IsBySecond pairs.now sorted.items) }
{
    let mut sorted = Vec::from_slice(alloc, pairs)?;
    sorted.sort_by_key(|p| p.g)?;
    Ok(sorted)
}

/// Returns the pairs whose first station is `f`, by two binary searches. The first station of `pairs` never falls.
pub fn pairs_with_first(pairs: &[Pair], f: u32) -> &[Pair]
    requires { IsNonDecreasingBy (λ p. p.f) pairs.now }
    ensures { result.now ≡ filter (λ p. p.f == f) pairs.now }
{
    let begin = pairs.partition_point(|p| p.f < f);
    let rest = &pairs[begin..];
    let count = rest.partition_point(|p| p.f <= f);
    &rest[..count]
}

/// Returns the pairs whose second station is `g`, by two binary searches. The second station of `pairs` never falls.
pub fn pairs_with_second(pairs: &[Pair], g: u32) -> &[Pair]
    requires { IsNonDecreasingBy (λ p. p.g) pairs.now }
    ensures { result.now ≡ filter (λ p. p.g == g) pairs.now }
{
    let begin = pairs.partition_point(|p| p.g < g);
    let rest = &pairs[begin..];
    let count = rest.partition_point(|p| p.g <= g);
    &rest[..count]
}
