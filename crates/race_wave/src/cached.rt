//! Racers that share a cache of answers among many auctions. A racer asks the cache after its quick fits, which answer
//! most queries faster than the cache. Then it searches, and puts what it found into the cache. The cache's lock is
//! held while an entry is looked up, but not while it is checked. So a check does not block other racers.

ghost use Rattle.std.specs.Prelude.{◌≡◌, IfOk, IfSome, map};
ghost use Rattle.cert_types.specs.Query.{IsQuery};
ghost use Rattle.cert_types.specs.Valid.{IsValid};
ghost use Rattle.solver_gate.specs.Racer.{worker_of};
ghost use Rattle.auction_core.specs.Backed.{IsBacked};
ghost use Rattle.auction_core.specs.Postings.{ContinuesIn};
ghost use Rattle.auction_core.specs.Setup.{IsOfAuction};
ghost use Rattle.auction_core.specs.State.{opening};

use crate::run::run_with;
use auction_core::record::Record;
use batch_cache::cache::Cache;
use cdcl_prove::earlier_answers::EarlierAnswers;
use cert_types::answer::{Answer, CertifyWhy};
use cert_types::certify::certify_query;
use cert_types::poll::{Attempt, Poll};
use cert_types::task::Task;
use pack_defs::book::Book;
use pack_defs::order::Order;
use pack_defs::scenario::Scenario;
use pack_defs::worker::Worker;
use search_base::grid::{Grid, SharedGrid};
use solver_gate::gate::Gate;
use solver_gate::racer::{Racer, RacerKind};
use std::alloc::{AllocError as NoMemory, Global};
use std::sync::{Arc, Mutex, Wait};
use std::thread::Threads;

/// What the auctions of a batch share: a cache of answers, and the numbers of the last book.
#[derive(Drop)]
pub struct Shared {
    cache: Mutex<Cache>,
    grid: Mutex<Option<SharedGrid>>,
}

impl Shared {
    /// Shares this cache.
    pub fn new(cache: Cache) -> Shared {
        Shared {
            cache: Mutex::new(cache),
            grid: Mutex::new(None),
        }
    }

    // Returns the numbers of a book. They are made only if the last book was another one.
    fn grid_of<W: Wait>(&self, rt: &W, alloc: Global, book: &Book) -> Result<SharedGrid, NoMemory> {
        let mut kept = self.grid.lock(rt);
        if let Some(grid) = &*kept {
            if grid.is_of(book) {
                return Ok(Arc::try_clone(grid)?);
            }
        }
        let grid = Arc::new(alloc, Grid::of(alloc, book)?)?;
        *kept = Some(Arc::try_clone(&grid)?);
        Ok(grid)
    }
}

/// The answers of a cache that many auctions share, for one worker. A quick fit is not put into the cache. Finding it again costs less
/// than a look-up, and it would replace the result of a search.
///
/// The cache suggests an entry, which is then checked outside the lock. Only if it is rejected, the cache is asked for an answer: it is
/// locked while it looks through all entries and checks each.
#[derive(Drop)]
struct SharedAnswers<'a, W: Wait> {
    rt: &'a W,
    // The top channel of the cache's entries.
    top: u8,
    cache: &'a Mutex<Cache>,
    worker: Worker,
}

impl<W: Wait> EarlierAnswers for SharedAnswers<'_, W> {
    ghost worker = { λ answers. answers.worker };

    fn find(&mut self, alloc: Global, book: &Book, task: &Task) -> Option<Answer> {
        self.checked_suggestion_of(alloc, book, task)
    }

    fn add(&mut self, alloc: Global, task: &Task, attempt: &Attempt) {
        if let Attempt::Said(answer) = attempt {
            let mut cache = self.cache.lock(self.rt);
            let _ = cache.put(alloc, self.top, task, answer);
        }
    }
}

impl<W: Wait> SharedAnswers<'_, W> {
    // Returns what the cache suggests, if the check accepts it. If memory runs out, returns `None`, and the racer
    // searches.
    fn checked_suggestion_of(&self, alloc: Global, book: &Book, task: &Task) -> Option<Answer>
        requires { IsQuery book.now task.now }
        ensures { IfSome result (IsValid book.now task.now self.now.worker) }
    {
        let Some(suggestion) = self.suggestion(alloc, task) else {
            return None;
        };
        match certify_query(alloc, book, task, &self.worker, suggestion) {
            Ok(certified) => Some(certified.into_answer()),
            Err(fault) => self.answer_if_refused(alloc, book, task, &fault.why),
        }
    }

    // Returns what the cache suggests, if anything, and if memory suffices. Holds the lock for the look-up only.
    fn suggestion(&self, alloc: Global, task: &Task) -> Option<Answer> {
        let mut cache = self.cache.lock(self.rt);
        match cache.suggest(alloc, self.top, task, &self.worker) {
            Ok(suggestion) => suggestion,
            Err(_) => None,
        }
    }

    // Returns the cache's answer if its suggestion was rejected, since another entry may be valid. Returns `None` if
    // memory ran out.
    fn answer_if_refused(
        &self,
        alloc: Global,
        book: &Book,
        task: &Task,
        why: &CertifyWhy,
    ) -> Option<Answer>
        requires { IsQuery book.now task.now }
        ensures { IfSome result (IsValid book.now task.now self.now.worker) }
    {
        match why {
            CertifyWhy::Rejected(_) => self.answer(alloc, book, task),
            CertifyWhy::NoMemory => None,
        }
    }

    // Returns the cache's answer, if there is one and memory suffices.
    fn answer(&self, alloc: Global, book: &Book, task: &Task) -> Option<Answer>
        requires { IsQuery book.now task.now }
        ensures { IfSome result (IsValid book.now task.now self.now.worker) }
    {
        let mut cache = self.cache.lock(self.rt);
        answer_in(alloc, &mut cache, self.top, book, task, &self.worker)
    }
}

// Returns the cache's answer, or `None` if there is none or memory runs out.
fn answer_in(
    alloc: Global,
    cache: &mut Cache,
    top: u8,
    book: &Book,
    task: &Task,
    worker: &Worker,
) -> Option<Answer>
    requires { IsQuery book.now task.now }
    ensures { IfSome result (IsValid book.now task.now worker.now) }
{
    match cache.answer(alloc, top, book, task, worker) {
        Ok(answer) => answer,
        Err(_) => None,
    }
}

/// A worker's solver that asks a shared cache after its quick fits.
#[derive(Drop)]
pub struct Cached<'a, W: Wait> {
    /// The solver, by the kind of the worker.
    pub solver: RacerKind,
    answers: SharedAnswers<'a, W>,
    ghost same: { answers.worker ≡ worker_of solver },
}

impl<'a, W: Wait> Cached<'a, W> {
    /// Returns the solver of a worker for queries about a book, which asks the cache's entries under the book's top channel.
    ///
    /// # Errors
    /// Fails only if memory runs out.
    pub fn make(
        rt: &'a W,
        alloc: Global,
        book: &Book,
        shared: &'a Shared,
        worker: &Worker,
    ) -> Result<Cached<'a, W>, NoMemory>
        ensures { IfOk result (λ cached. worker_of cached.solver ≡ worker.now) }
    {
        let grid = shared.grid_of(rt, alloc, book)?;
        Cached::of_grid(rt, alloc, book.top(), grid, shared, worker)
    }

    // Returns the solver of a worker, which has a book's numbers already.
    fn of_grid(
        rt: &'a W,
        alloc: Global,
        top: u8,
        grid: SharedGrid,
        shared: &'a Shared,
        worker: &Worker,
    ) -> Result<Cached<'a, W>, NoMemory>
        ensures { IfOk result (λ cached. worker_of cached.solver ≡ worker.now) }
    {
        let solver = RacerKind::of_grid(alloc, worker, Some(grid))?;
        let answers = SharedAnswers {
            rt,
            top,
            cache: &shared.cache,
            worker: *worker,
        };
        Ok(Cached { solver, answers })
    }
}

impl<W: Wait> Racer for Cached<'_, W> {
    ghost worker = { λ cached. worker_of cached.solver };

    fn attempt<P: Poll>(
        &mut self,
        alloc: Global,
        book: &Book,
        task: &Task,
        poll: &mut P,
    ) -> Result<Attempt, NoMemory> {
        self.solver
            .attempt_after(alloc, book, task, &mut self.answers, poll)
    }
}

// Returns the solvers of the workers, in order, which ask the cache.
fn cached_racers<'a, W: Wait>(
    rt: &'a W,
    alloc: Global,
    book: &Book,
    workers: &[Worker],
    shared: &'a Shared,
) -> Result<Vec<Cached<'a, W>>, NoMemory>
    ensures { IfOk result (λ racers. map (λ cached. worker_of cached.solver) racers.items ≡ workers.now) }
{
    let top = book.top();
    let grid = shared.grid_of(rt, alloc, book)?;
    let mut racers = Vec::new(alloc);
    for worker in workers {
        let own = Arc::try_clone(&grid)?;
        racers.push(Cached::of_grid(rt, alloc, top, own, shared, worker)?)?;
    }
    Ok(racers)
}

/// Runs the auction of this scenario and book, in which a round tests the stations by volume, and returns its record.
/// Does what `run_auction` does, with racers that ask the shared cache before they search, and put what they find
/// into it. The entries are under the scenario's top channel. Proofs may be long, since only the cache reads them.
///
/// If memory runs out in the cache, the auction continues without the cache's answer. Fails only if memory runs out
/// elsewhere.
pub fn run_cached<G: Gate + Sync, W: Threads + Wait + Sync>(
    rt: &W,
    alloc: Global,
    sc: &Scenario,
    book: &Book,
    shared: &Shared,
    gate: &G,
) -> Result<Record, NoMemory>
    requires { IsOfAuction sc.now book.now }
    ensures backed { IfOk result (IsBacked sc.now book.now Order.ByVolume) }
    ensures continues { IfOk result (ContinuesIn (opening sc.now book.now Order.ByVolume)) }
{
    let racers = cached_racers(rt, alloc, book, sc.workers.as_slice(), shared)?;
    run_with(rt, alloc, sc, book, racers, gate)
}
