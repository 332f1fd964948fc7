//! The pending receipts of the current query: a slot for each worker. `taking` calls `note`, `clear` and `take_all_with`; `auction`
//! reserves the room beforehand, so that a posting allocates nothing.

ghost use Rattle.std.specs.Prelude.{◌≡◌, ◌<◌, ◌≤◌, ◌+◌, ◌++◌, [], IfOk, OnOk, false, length, map, true, vec_len, vec_capacity};
ghost use Rattle.auction_core.specs.Take.{is_noted, noted_with};

use cert_types::answer::Receipt;
use pack_defs::items::Items;
use std::alloc::{AllocError as NoMemory, Global};
use std::marker::Model;
use std::mem;

/// A slot for each worker's receipt for the current query, and reserved room for a list of all receipts.
#[derive(Debug, Drop)]
pub struct PendingReceipts {
    places: Vec<Option<Receipt>>,
    // Always empty. Its capacity is meant for a receipt of every worker.
    all: Vec<Receipt>,
}

impl Model for PendingReceipts {
    ghost use Rattle.std.specs.Prelude.{◌≡◌, [], length, nat_le, vec_capacity};
    ghost use Rattle.auction_core.specs.PendingReceipts.{PendingReceiptsView, receipts_of};

    ghost Value = { PendingReceiptsView };

    ghost view = { λ n. record {
      workers = length n.places.items;
      noted = receipts_of n.places.items;
      ready = nat_le (length n.places.items) (vec_capacity n.all);
    } };

    ghost invariant = { λ n. n.all.items ≡ [] };
}

impl PendingReceipts {
    /// Returns a slot for each of this many workers, all empty.
    ///
    /// # Errors
    ///
    /// Fails only if memory runs out.
    pub(crate) fn none_pending(alloc: Global, workers: usize) -> Result<PendingReceipts, NoMemory>
        ensures places { IfOk result (λ pending_receipts. pending_receipts.workers ≡ workers) }
        ensures none { IfOk result (λ pending_receipts. pending_receipts.noted ≡ []) }
    {
        let mut places = Vec::with_capacity(alloc, workers)?;
        for _ in 0..workers {
            places.push(None)?;
        }
        Ok(PendingReceipts {
            places,
            all: Vec::new(alloc),
        })
    }

    /// Returns how many receipts are pending. Cost: a pass over the workers.
    pub fn count(&self) -> usize
        ensures { result ≡ length self.now.noted }
    {
        let mut count = 0;
        for place in &self.places {
            if place.is_some() {
                count += 1;
            }
        }
        count
    }

    /// Returns whether this worker's receipt is pending; `false` for a worker without a slot.
    pub fn has(&self, worker: u32) -> bool
        ensures { result ≡ is_noted self.now.noted worker }
    {
        (worker as usize) < self.places.len() && self.places[worker as usize].is_some()
    }

    /// Reserves room for a receipt of every worker. Success or failure, no room is lost and nothing else changes.
    ///
    /// # Errors
    ///
    /// Fails only if memory runs out.
    pub fn reserve(&mut self) -> Result<(), NoMemory>
        ensures ready { OnOk result (self.new.ready ≡ true) }
        ensures kept { self.old.ready ≡ true → self.new.ready ≡ true }
        ensures places { self.new.workers ≡ self.old.workers }
        ensures noted { self.new.noted ≡ self.old.noted }
    {
        self.all.reserve(self.places.len())
    }

    /// Stores the receipt of a worker that has none pending. Allocates nothing.
    pub fn note(&mut self, worker: u32, receipt: Receipt)
        requires place { worker < self.old.workers }
        requires new { is_noted self.old.noted worker ≡ false }
        ensures noted { self.new.noted ≡ noted_with (record { worker = worker; receipt = receipt }) self.old.noted }
        ensures places { self.new.workers ≡ self.old.workers }
        ensures ready { self.new.ready ≡ self.old.ready }
    {
        self.places[worker as usize] = Some(receipt);
    }

    /// Drops every pending receipt. Allocates nothing.
    pub fn clear(&mut self)
        ensures none { self.new.noted ≡ [] }
        ensures places { self.new.workers ≡ self.old.workers }
    {
        let workers = self.places.len();
        for i in 0..workers {
            self.places[i] = None;
        }
    }

    /// Returns the pending receipts and this one, in order of worker, and leaves every slot empty. Allocates nothing.
    pub(crate) fn take_all_with(&mut self, worker: u32, receipt: Receipt) -> Items<Receipt>
        requires ready { self.old.ready ≡ true }
        requires place { worker < self.old.workers }
        requires new { is_noted self.old.noted worker ≡ false }
        ensures all { result ≡ map (λ n. n.receipt) (noted_with (record { worker = worker; receipt = receipt }) self.old.noted) }
        ensures none { self.new.noted ≡ [] }
        ensures places { self.new.workers ≡ self.old.workers }
    {
        let none = Vec::new(*self.all.allocator());
        let mut all = mem::replace(&mut self.all, none);
        self.note(worker, receipt);
        self.move_into(&mut all);
        Items::from_vec(all)
    }

    // Moves every pending receipt to the end of the list, in order of worker, and leaves every slot empty.
    fn move_into(&mut self, receipts: &mut Vec<Receipt>)
        requires { vec_len receipts.old + self.old.workers ≤ vec_capacity receipts.old }
        ensures moved { receipts.new.items ≡ receipts.old.items ++ map (λ n. n.receipt) self.old.noted }
        ensures none { self.new.noted ≡ [] }
        ensures places { self.new.workers ≡ self.old.workers }
    {
        for i in 0..self.places.len() {
            let Some(receipt) = self.places[i].take() else {
                continue;
            };
            receipts.push_reserved(receipt);
        }
    }
}
