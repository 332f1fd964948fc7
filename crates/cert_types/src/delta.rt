//! The entries that a fit names: how a worker turns the map that it has found into an answer.

ghost use Rattle.std.specs.Prelude.{ℕ, ◌≡◌, IfOk, filter, not, true};
ghost use Rattle.pack_defs.specs.ChannelMap.{IsAscending, overlaid};
ghost use Rattle.pack_defs.specs.Lists.{has_entry, has_station};

use pack_defs::channel_map::ChannelMap;
use std::alloc::{AllocError as NoMemory, Global};

/// Returns the entries of `map` that `last` lacks. Written over `last`, they give `map` if `map` has every station of `last`. Costs
/// one binary search for each entry of `map`. Fails only if memory runs out.
pub fn delta(alloc: Global, last: &ChannelMap, map: &ChannelMap) -> Result<ChannelMap, NoMemory>
    ensures lacking { IfOk result (λ d. d ≡ filter (λ x. not (has_entry last.now x)) map.now) }
    ensures whole { ((s : ℕ) → has_station last.now s ≡ true → has_station map.now s ≡ true) → IfOk result (λ d. overlaid last.now d ≡ map.now) }
{
    last.keeps_order();
    map.keeps_order();
    let mut entries = Vec::new(alloc);
    for x in map.entries() {
        if !is_on_channel(last, *x) {
            entries.push(*x)?;
        }
    }
    ChannelMap::of(alloc, &entries)
}

// Whether the map has the entry.
fn is_on_channel(map: &ChannelMap, x: (u32, u8)) -> bool
    requires { IsAscending map.now }
    ensures { result ≡ has_entry map.now x }
{
    map.get(x.0) == Some(x.1)
}
