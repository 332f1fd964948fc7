//! How the program ended: its exit status, and the record of its auction or the records of a batch, if any are returned.
//!
//! Every command returns a `Finish`, and `auction_cmd` returns it to its caller.

ghost use Rattle.std.specs.Prelude.{◌≡◌, [], None, Some};

use auction_core::record::Record;
use std::marker::Model;

/// The records of a batch, in the order of its list; empty if no batch was run.
#[derive(Debug, Drop)]
pub struct Records {
    kept: Option<Vec<Record>>,
}

impl Model for Records {
    ghost use Rattle.std.specs.Prelude.{List, []};
    ghost use Rattle.std.specs.Option.{option_map_or};
    ghost use Rattle.auction_core.specs.declared.record.Record.{Record};

    ghost Value = { List Record };

    ghost view = { λ r. option_map_or (λ v. v.items) r.kept [] };
}

impl Records {
    /// Returns no records. Allocates no memory.
    pub fn none() -> Records
        ensures { result ≡ [] }
    {
        Records { kept: None }
    }

    /// Returns these records as those of a batch.
    pub fn of(records: Vec<Record>) -> Records
        ensures { result ≡ records.items }
    {
        Records {
            kept: Some(records),
        }
    }

    /// Returns the records, in order.
    pub fn as_slice(&self) -> &[Record]
        ensures { result.now ≡ self.now }
    {
        match &self.kept {
            Some(records) => records,
            None => &[],
        }
    }
}

/// How the program ended.
#[derive(Debug, Drop)]
pub struct Finish {
    /// The exit status, one of the constants of `status`.
    pub status: u8,
    /// The record of the auction, if it is returned. Each command returns it at these statuses:
    ///
    /// - `run` and `resume`: `DONE`, `LEFT_OPEN`, `UNWRITTEN`, `START_UNFIT`, `START_OPEN`, and `NO_MEMORY` if memory ran out in
    ///   a store.
    /// - `verify`: `DONE`, `LEFT_OPEN` and `UNWRITTEN`.
    /// - `make`: `DONE`, `LEFT_OPEN`, and `UNWRITTEN` if the files are stored.
    /// - `import`: `DONE`, `LEFT_OPEN`, `UNWRITTEN`, and `NO_MEMORY` if memory ran out in a store.
    /// - `seek`: `DONE`, `LEFT_OPEN`, `UNWRITTEN`, and `NO_MEMORY` if memory ran out in the store. The record is of the start set
    ///   alone, up to the top channel that was found.
    /// - `seek` also at `START_UNFIT` and `START_OPEN`. The record is of the start set alone, up to the scenario's own top
    ///   channel.
    pub result: Option<Record>,
    /// The record of the start set alone up to one channel less. `seek` returns it if `result` is the record up to the top
    /// channel that was found, and that channel is above 14.
    pub below: Option<Record>,
    /// The records of the auctions of `batch`, one for each line of its list, in order. They are returned at `DONE`, `LEFT_OPEN`,
    /// `UNWRITTEN`, `SOME_UNSTARTED`, and at `NO_MEMORY` if memory ran out in a store.
    pub batch: Records,
}

impl Finish {
    /// Returns an end without a record.
    pub fn without_record(status: u8) -> Finish
        ensures status { result.status ≡ status }
        ensures none { result.result ≡ None }
        ensures no_other { result.below ≡ None }
        ensures no_batch { result.batch ≡ [] }
    {
        Finish {
            status,
            result: None,
            below: None,
            batch: Records::none(),
        }
    }

    /// Returns an end with this record.
    pub fn with_record(status: u8, kept: Record) -> Finish
        ensures status { result.status ≡ status }
        ensures kept { result.result ≡ Some kept }
        ensures no_other { result.below ≡ None }
        ensures no_batch { result.batch ≡ [] }
    {
        Finish {
            status,
            result: Some(kept),
            below: None,
            batch: Records::none(),
        }
    }

    /// Returns an end with this record and, if there is one, the record of one channel less.
    pub fn with_both(status: u8, kept: Record, below: Option<Record>) -> Finish
        ensures status { result.status ≡ status }
        ensures kept { result.result ≡ Some kept }
        ensures other { result.below ≡ below }
        ensures no_batch { result.batch ≡ [] }
    {
        Finish {
            status,
            result: Some(kept),
            below,
            batch: Records::none(),
        }
    }

    /// Returns the end of a batch with these records.
    pub fn with_batch(status: u8, records: Vec<Record>) -> Finish
        ensures status { result.status ≡ status }
        ensures none { result.result ≡ None }
        ensures no_other { result.below ≡ None }
        ensures kept { result.batch ≡ records.items }
    {
        Finish {
            status,
            result: None,
            below: None,
            batch: Records::of(records),
        }
    }
}
