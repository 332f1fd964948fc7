//! The ledger of an auction: each frozen station with its price, and the sum of the prices. Amounts are kept nowhere else.
//! `auction_core::clock` reserves room before a station is frozen, so that `freeze` allocates nothing.

ghost use Rattle.std.specs.Prelude.{◌≡◌, ◌<◌, ◌≤◌, ◌+◌, ◌^◌, ℕ, None, OnOk, [], length};
ghost use Rattle.std.specs.List.{insert};
ghost use Rattle.pack_defs.specs.ChannelMap.{IsAscending};
ghost use Rattle.freeze_ledger.specs.Ledger.{price_of, sum_paid, with_price};

use std::alloc::{AllocError as NoMemory, Global};
use std::marker::Model;

/// What the frozen stations are paid, in cents.
#[derive(Debug, Drop)]
pub struct Ledger {
    // Each frozen station and its price, ascending by station.
    entries: Vec<(u32, u64)>,
    total: u64,
}

impl Model for Ledger {
    ghost use Rattle.std.specs.Prelude.{◌≡◌, ◌-◌, vec_capacity, vec_len};
    ghost use Rattle.pack_defs.specs.ChannelMap.{IsAscending};
    ghost use Rattle.freeze_ledger.specs.Ledger.{LedgerView, sum_paid};

    ghost Value = { LedgerView };

    ghost view = { λ l. record {
      paid = l.entries.items;
      spare = vec_capacity l.entries - vec_len l.entries;
    } };

    ghost invariant = { λ l. IsAscending l.entries.items × (l.total ≡ sum_paid l.entries.items) };
}

impl Ledger {
    /// Returns a ledger with no frozen station. Allocates nothing; keeps the allocator for later.
    pub fn new(alloc: Global) -> Ledger
        ensures { result.paid ≡ [] }
    {
        Ledger {
            entries: Vec::new(alloc),
            total: 0,
        }
    }

    /// Reserves room for `more` further stations. Success or failure, no price changes and no room is lost.
    ///
    /// # Errors
    ///
    /// Fails only if memory runs out.
    pub fn reserve(&mut self, more: u32) -> Result<(), NoMemory>
        ensures room { OnOk result (more ≤ self.new.spare) }
        ensures spare { self.old.spare ≤ self.new.spare }
        ensures paid { self.new.paid ≡ self.old.paid }
    {
        self.entries.reserve(more as usize)
    }

    /// Freezes a station, by its facility number, at this price, in cents. Allocates nothing.
    ///
    /// The station must not be frozen yet, there must be room for it, and the total must stay below 2^64. Cost: a binary search,
    /// and moving the entries behind the new one.
    pub fn freeze(&mut self, station: u32, price: u64)
        requires room { 1 ≤ self.old.spare }
        requires absent { price_of station self.old.paid ≡ None }
        requires total { sum_paid self.old.paid + price < 2 ^ 64 }
        ensures paid { self.new.paid ≡ with_price station price self.old.paid }
        ensures spare { self.new.spare + 1 ≡ self.old.spare }
    {
        let place = place_of(&self.entries, station);
        let Ok(()) = self.entries.insert(place, (station, price)) else {
            unreachable!();
        };
        self.total += price;
    }

    /// Returns what a station, by its facility number, is paid, in cents; `None` if it is not frozen. Binary search.
    pub fn paid(&self, station: u32) -> Option<u64>
        ensures { result ≡ price_of station self.now.paid }
    {
        match self.entries.binary_search_by_key(&station, |x| x.0) {
            Ok(i) => Some(self.entries[i].1),
            Err(_) => None,
        }
    }

    /// Returns what the frozen stations are paid together, in cents. Constant time.
    pub fn total(&self) -> u64
        ensures { result ≡ sum_paid self.now.paid }
    {
        self.total
    }
}

// Returns how many of these entries, which ascend by station, are below this station.
fn place_of(entries: &[(u32, u64)], station: u32) -> usize
    requires { IsAscending entries.now }
    ensures within { result ≤ length entries.now }
    ensures place { (price : ℕ) → insert entries.now result (station, price) ≡ with_price station price entries.now }
{
    entries.partition_point(|x| x.0 < station)
}
