//! The interface of the search: a caller begins a query, and lets the searcher continue for some conflicts at a time.

use crate::engine::Engine;
use crate::policy::Purpose;
use crate::query::QueryProgress;
use crate::shortening::Shortening;
use crate::suggestion::{Disproof, Suggestion};
use pack_defs::book::Book;
use pack_defs::channel_map::ChannelMap;
use search_base::grid::{Grid, SharedGrid};
use std::alloc::{AllocError as NoMemory, Global};
use std::sync::Arc;

/// How far the searcher came with a query.
#[derive(Debug, Drop)]
pub enum Progress {
    /// The query can continue.
    Open,
    /// The query has ended with this suggestion.
    Ended(Suggestion),
    /// The effort is spent, and too few of the lines are fresh for a receipt.
    Spent,
    /// No query was begun, or the knowledge was about other stations than the query is. All of it is forgotten.
    Lost,
}

/// A searcher for the queries of an auction, one after the other. It keeps what it learnt, provided that each query is about the
/// stations on air, whose number only grows, and tested stations. For any other query, suggestions may be worthless.
#[derive(Drop)]
pub struct Searcher {
    // The numbers of the last book.
    grid: Option<SharedGrid>,
    engine: Option<Engine>,
    // The current search for a shorter log, and between two of these searches the engine of the last one.
    shortening: Option<Shortening>,
    group: Option<Engine>,
    seed: u64,
    // The effort for each tested station, in conflicts, and what is left of it for this one.
    effort: u32,
    left: u32,
}

impl Searcher {
    /// Returns a searcher that knows nothing. The seed breaks ties in the order of decisions, so searchers with different seeds search
    /// differently; seed 0 breaks ties by the variables' order.
    pub fn new(seed: u64) -> Searcher {
        Searcher::of_grid(None, seed)
    }

    /// Returns what `new` returns, with the numbers of a book if they are known. They aren't made again for queries about that book.
    pub fn of_grid(grid: Option<SharedGrid>, seed: u64) -> Searcher {
        Searcher {
            grid,
            engine: None,
            shortening: None,
            group: None,
            seed,
            effort: 0,
            left: 0,
        }
    }

    /// Forgets everything.
    pub fn forget(&mut self) {
        self.engine = None;
        self.shortening = None;
        self.group = None;
    }

    /// Begins a query: is there a map of exactly the stations of this ascending set that violates no pair of the book?
    ///
    /// The stations of the set that have no channel in the last map are tested. `from`, if given, is the change of a known fit of the
    /// tested station, from which the search begins. For each tested station the search has `effort` conflicts, and a local search
    /// helps. If it finds a log of more than `effort` lines, it looks for a shorter one. If the effort is spent, or no log is short
    /// enough, it suggests a receipt of `effort` lines.
    ///
    /// # Errors
    /// Fails only if memory runs out. Then no query is begun, and the searcher can be used again.
    pub fn begin(
        &mut self,
        alloc: Global,
        book: &Book,
        set: &[u32],
        last: &ChannelMap,
        from: Option<&ChannelMap>,
        effort: u32,
    ) -> Result<(), NoMemory> {
        self.stop_shortening();
        let mut engine = self.take_engine(alloc, book)?;
        engine.begin_query(alloc, set, last, from)?;
        self.engine = Some(engine);
        self.effort = effort;
        self.left = effort;
        Ok(())
    }

    /// Continues the query, with the same set and last map, for at most this many conflicts.
    ///
    /// # Errors
    /// Fails only if memory runs out. Then no query is begun any more, and the searcher can be used again.
    pub fn continue_search(
        &mut self,
        alloc: Global,
        set: &[u32],
        last: &ChannelMap,
        conflicts: u32,
    ) -> Result<Progress, NoMemory> {
        let Some(engine) = self.engine.take() else {
            return Ok(Progress::Lost);
        };
        match self.shortening.take() {
            Some(shortening) => self.shorten(alloc, engine, shortening, conflicts),
            None => self.search(alloc, engine, set, last, conflicts),
        }
    }

    // Continues the search for a fit or a disproof, for at most this many conflicts.
    fn search(
        &mut self,
        alloc: Global,
        mut engine: Engine,
        set: &[u32],
        last: &ChannelMap,
        conflicts: u32,
    ) -> Result<Progress, NoMemory> {
        let conflicts = conflicts.min(self.left);
        match engine.search(alloc, conflicts)? {
            QueryProgress::Open => self.continue_open(alloc, engine, conflicts),
            QueryProgress::Next => Ok(self.begin_next(engine)),
            QueryProgress::Fits => self.suggest_fit(alloc, engine, set, last),
            QueryProgress::Refuted { line } => self.suggest_unfit(alloc, engine, line),
            QueryProgress::Lost => Ok(Progress::Lost),
        }
    }

    // Keeps the search after this many conflicts, which may have spent the effort.
    fn continue_open(
        &mut self,
        alloc: Global,
        engine: Engine,
        conflicts: u32,
    ) -> Result<Progress, NoMemory> {
        self.left = self.left.saturating_sub(conflicts);
        if self.left == 0 {
            return self.suggest_receipt(alloc, engine);
        }
        self.engine = Some(engine);
        Ok(Progress::Open)
    }

    // Suggests a receipt of the spent effort, if enough lines of the tested station's test are fresh.
    fn suggest_receipt(&mut self, alloc: Global, mut engine: Engine) -> Result<Progress, NoMemory> {
        let receipt = engine.receipt(alloc, self.effort)?;
        self.engine = Some(engine);
        match receipt {
            Some(log) => Ok(Progress::Ended(Suggestion::Spent(log))),
            None => Ok(Progress::Spent),
        }
    }

    // Gives the next tested station the complete effort.
    fn begin_next(&mut self, engine: Engine) -> Progress {
        self.left = self.effort;
        self.engine = Some(engine);
        Progress::Open
    }

    // Suggests the fit that was found.
    fn suggest_fit(
        &mut self,
        alloc: Global,
        engine: Engine,
        set: &[u32],
        last: &ChannelMap,
    ) -> Result<Progress, NoMemory> {
        let Some(fit) = engine.fit(alloc, set, last)? else {
            return Ok(Progress::Lost);
        };
        self.engine = Some(engine);
        Ok(Progress::Ended(Suggestion::Fit(fit)))
    }

    // Suggests the disproof that ends with this line. If it has more lines than the effort, a search for a shorter one begins.
    fn suggest_unfit(
        &mut self,
        alloc: Global,
        mut engine: Engine,
        line: u32,
    ) -> Result<Progress, NoMemory> {
        engine.gather(alloc, line)?;
        if engine.cone.lines.len() > self.effort as usize {
            self.begin_shortening(alloc, engine)
        } else {
            self.suggest_gathered(alloc, engine)
        }
    }

    // Suggests the gathered disproof.
    fn suggest_gathered(&mut self, alloc: Global, engine: Engine) -> Result<Progress, NoMemory> {
        let disproof = Disproof::of_cone(alloc, &engine)?;
        self.engine = Some(engine);
        Ok(Progress::Ended(Suggestion::Unfit(disproof)))
    }

    // Begins the search for a shorter disproof than the gathered one.
    fn begin_shortening(&mut self, alloc: Global, engine: Engine) -> Result<Progress, NoMemory> {
        let group = self.group.take();
        let shortening = Shortening::begin(alloc, &engine, group, self.effort)?;
        Ok(self.keep_shortening(engine, shortening))
    }

    // Keeps the search for a shorter disproof.
    fn keep_shortening(&mut self, engine: Engine, shortening: Shortening) -> Progress {
        self.engine = Some(engine);
        self.shortening = Some(shortening);
        Progress::Open
    }

    // Continues the search for a shorter disproof than the gathered one. If memory runs out, all knowledge is forgotten too.
    fn shorten(
        &mut self,
        alloc: Global,
        engine: Engine,
        mut shortening: Shortening,
        conflicts: u32,
    ) -> Result<Progress, NoMemory> {
        if shortening.continue_search(alloc, conflicts)? {
            return self.suggest_shortest(alloc, engine, shortening);
        }
        Ok(self.keep_shortening(engine, shortening))
    }

    // Ends the search for a shorter disproof. Suggests the shortest one if it is short enough, and otherwise a receipt.
    fn suggest_shortest(
        &mut self,
        alloc: Global,
        engine: Engine,
        shortening: Shortening,
    ) -> Result<Progress, NoMemory> {
        let (shorter, group) = shortening.into_ended();
        self.group = Some(group);
        if let Some(disproof) = shorter {
            if disproof.log.lines.len() <= self.effort as usize {
                return Ok(self.suggest_shorter(engine, disproof));
            }
        }
        self.suggest_receipt(alloc, engine)
    }

    // Suggests a disproof that is shorter than the gathered one.
    fn suggest_shorter(&mut self, engine: Engine, disproof: Disproof) -> Progress {
        self.engine = Some(engine);
        Progress::Ended(Suggestion::Unfit(disproof))
    }

    // Abandons an unfinished search for a shorter log, and keeps what it learnt.
    fn stop_shortening(&mut self) {
        if let Some(shortening) = self.shortening.take() {
            let (_, group) = shortening.into_ended();
            self.group = Some(group);
        }
    }

    // Returns the kept engine if it may be of the book; otherwise a new one.
    fn take_engine(&mut self, alloc: Global, book: &Book) -> Result<Engine, NoMemory> {
        if let Some(engine) = self.engine.take() {
            if engine.grid.may_be_of(book) {
                return Ok(engine);
            }
        }
        self.group = None;
        let grid = self.take_grid(alloc, book)?;
        self.grid = Some(Arc::try_clone(&grid)?);
        Engine::new(alloc, grid, Purpose::Answers, self.seed)
    }

    // Returns the known numbers if they may be the book's; otherwise makes them.
    fn take_grid(&mut self, alloc: Global, book: &Book) -> Result<SharedGrid, NoMemory> {
        if let Some(grid) = self.grid.take() {
            if grid.may_be_of(book) {
                return Ok(grid);
            }
        }
        let grid = Arc::new(alloc, Grid::of(alloc, book)?)?;
        Ok(grid)
    }
}
