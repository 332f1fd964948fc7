//! Runs the auctions of a batch, as many at a time as there are processors.
//!
//! Their solvers share a cache of answers. The cache returns only what is valid for the query and the worker that ask. The cache
//! changes how long an auction takes, and which of its tests are undecided: it may answer a test on which a worker would spend
//! its budget. If no test is undecided, the cache changes no result.
//!
//! Auctions that run side by side come to the same hard query at the same time, and each answers it for itself. Auctions that
//! begin later find it answered. Running more of them at a time would cost more, and end no sooner.
//!
//! Only `batch` calls it.

ghost use Rattle.std.specs.Prelude.{◌≡◌, All, IfOk, map, option_map};
ghost use Rattle.std.specs.List.{AllZip};
ghost use Rattle.std.specs.Thread.{IsSync};
ghost use Rattle.auction_core.specs.Setup.{IsOfAuction};
ghost use Rattle.commands.specs.Batch.{own_text};
ghost use Rattle.commands.specs.BatchRun.{IsRun};
ghost use Rattle.commands.specs.Records.{IsRecordBy};

use crate::inputs::Inputs;
use auction_core::record::{Ending, Record};
use batch_cache::cache::Cache;
use race_wave::cached::{Shared, run_cached};
use result_text::rows::result_csv;
use solver_gate::gate::Gate;
use std::alloc::{AllocError as NoMemory, Global};
use std::sync::{Condvar, Mutex, Wait};
use std::thread;
use std::thread::Threads;

/// How many channel maps the cache keeps, and how many refutations. A query that none of them answers goes through all of one
/// kind and then through all of the other (`benchmarks/cache`).
const CACHE_ROOM: u32 = 1024;

// Limits how many auctions run at a time. An auction waits for a permit before it begins, and holds it until it has ended.
#[derive(Drop)]
struct Permits {
    left: Mutex<usize>,
    one_more: Condvar,
}

impl Permits {
    // Makes as many permits as the machine has processors, or one if that number is unknown.
    fn make(rt: &impl Threads) -> Permits {
        let processors = match thread::available_parallelism(rt) {
            Ok(processors) => processors.get(),
            Err(_) => 1,
        };
        Permits {
            left: Mutex::new(processors),
            one_more: Condvar::new(),
        }
    }

    fn take(&self, rt: &impl Wait) {
        let left = self.left.lock(rt);
        let mut left = self.one_more.wait_while(rt, left, |left| *left == 0);
        *left = left.saturating_sub(1);
    }

    fn give_back(&self, rt: &impl Wait) {
        let mut left = self.left.lock(rt);
        *left = left.saturating_add(1);
        drop(left);
        self.one_more.notify_one();
    }
}

/// An auction that was run: its record, and the text of its result, unless it ended at its start.
#[derive(Drop)]
pub struct BatchRunResult {
    pub record: Record,
    pub result: Option<Vec<u8>>,
}

// Returns the record of the auction of these inputs. Uses the gate, and neither folder nor sink.
fn cached_auction_of<G: Gate + Sync, W: Threads + Wait + Sync>(
    rt: &W,
    alloc: Global,
    inputs: &Inputs,
    shared: &Shared,
    gate: &G,
) -> Result<Record, NoMemory>
    requires { IsOfAuction inputs.now.scenario inputs.now.book }
    ensures { IfOk result (λ rec. IsRecordBy inputs.now rec rec.ending) }
{
    inputs.book.keeps_order();
    let record = run_cached(rt, alloc, &inputs.scenario, &inputs.book, shared, gate)?;
    Ok(record)
}

// Returns the text of this auction's result, unless the auction ended at its start.
fn result_of(alloc: Global, inputs: &Inputs, rec: &Record) -> Result<Option<Vec<u8>>, NoMemory>
    requires auction { IsOfAuction inputs.now.scenario inputs.now.book }
    requires of { IsRecordBy inputs.now rec.now rec.now.ending }
    ensures { IfOk result (λ text. option_map (λ v. v.items) text ≡ own_text inputs.now rec.now) }
{
    match rec.ending {
        Ending::Done => {
            let text = result_csv(alloc, rec, &inputs.book)?;
            Ok(Some(text))
        }
        Ending::StartRefuted | Ending::StartUndecided => Ok(None),
    }
}

// Runs one auction.
fn carry_out<G: Gate + Sync, W: Threads + Wait + Sync>(
    rt: &W,
    alloc: Global,
    inputs: Inputs,
    shared: &Shared,
    gate: &G,
) -> Result<BatchRunResult, NoMemory>
    requires { IsOfAuction inputs.scenario inputs.book }
    ensures { IfOk result (IsRun inputs) }
{
    let record = cached_auction_of(rt, alloc, &inputs, shared, gate)?;
    let result = result_of(alloc, &inputs, &record)?;
    Ok(BatchRunResult { record, result })
}

// Runs one auction once it has a permit. The permit is given back also if memory runs out.
fn carry_out_in_turn<G: Gate + Sync, W: Threads + Wait + Sync>(
    rt: &W,
    alloc: Global,
    inputs: Inputs,
    shared: &Shared,
    permits: &Permits,
    gate: &G,
) -> Result<BatchRunResult, NoMemory>
    requires { IsOfAuction inputs.scenario inputs.book }
    ensures { IfOk result (IsRun inputs) }
{
    permits.take(rt);
    let ran = carry_out(rt, alloc, inputs, shared, gate);
    permits.give_back(rt);
    ran
}

/// Runs these auctions, as many at a time as the machine has processors, and returns them in the order of their inputs. Each runs
/// in a thread of its own if one can be made, beside the threads of its workers.
///
/// # Errors
///
/// Memory ran out, in one of the auctions or outside them. Then no auction is returned.
pub fn run_all<G: Gate + Sync, W: Threads + Wait + Sync>(
    rt: &W,
    alloc: Global,
    auctions: Vec<Inputs>,
    gate: &G,
) -> Result<Vec<BatchRunResult>, NoMemory>
    requires { All (λ i. IsOfAuction i.scenario i.book) auctions.items }
    ensures { IfOk result (λ rans. AllZip IsRun auctions.items rans.items) }
{
    let shared = Shared::new(Cache::make(alloc, CACHE_ROOM)?);
    let permits = Permits::make(rt);
    let rans = run_each(rt, alloc, auctions, &shared, &permits, gate)?;
    all_or_error(alloc, rans)
}

// Runs these auctions with what they share and these permits. Returns for each of them what was run, or that it ran out of memory.
fn run_each<G: Gate + Sync, W: Threads + Wait + Sync>(
    rt: &W,
    alloc: Global,
    auctions: Vec<Inputs>,
    shared: &Shared,
    permits: &Permits,
    gate: &G,
) -> Result<Vec<Result<BatchRunResult, NoMemory>>, NoMemory>
    requires { All (λ i. IsOfAuction i.scenario i.book) auctions.items }
    ensures { IfOk result (λ rans. AllZip (λ i ran. IfOk ran (IsRun i)) auctions.items rans.items) }
{
    let part = |inputs: Inputs| -> Result<BatchRunResult, NoMemory>
        requires { IsSync W.row × IsSync G.row × IsOfAuction inputs.scenario inputs.book }
        ensures { IfOk result (IsRun inputs) }
    { carry_out_in_turn(rt, alloc, inputs, shared, permits, gate) };
    thread::map_vec(rt, auctions, &part)
}

// Returns all these auctions. Fails if one of them ran out of memory, or if memory runs out here.
fn all_or_error(
    alloc: Global,
    rans: Vec<Result<BatchRunResult, NoMemory>>,
) -> Result<Vec<BatchRunResult>, NoMemory>
    ensures { IfOk result (λ all. map (λ ran. Ok ran) all.items ≡ rans.items) }
{
    let mut all = Vec::new(alloc);
    for ran in rans {
        all.push(ran?)?;
    }
    Ok(all)
}
