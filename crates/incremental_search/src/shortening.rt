//! The search for a shorter log, for a refutation whose log is longer than a worker may write.
//!
//! What a kept engine learnt passes through other queries, so over the stations of a disproof alone a shorter log often exists. The next
//! disproof concerns mostly the same stations and needs mostly the same lines. So what is learnt here is kept too, as long as the
//! disproofs are about the same crowd of stations.

use crate::engine::Engine;
use crate::policy::{
    BUDGETS_OF_SHORTER_LOG, GROUP_STATIONS_TO_ONE_NEW, Purpose, SEARCHES_FROM_NOTHING,
};
use crate::query::QueryProgress;
use crate::suggestion::Disproof;
use search_base::grid::SharedGrid;
use std::alloc::{AllocError as NoMemory, Global};
use std::sync::Arc;

/// A search for a disproof of a tested station with fewer lines than the known one.
#[derive(Drop)]
pub(crate) struct Shortening {
    // The stations of the shortest disproof so far, its number of lines, and the disproof itself, unless it is the known one.
    stations: Vec<u32>,
    lines: usize,
    found: Option<Disproof>,
    tested: u32,
    // An engine that knows only a crowd of stations, which includes these.
    engine: Engine,
    // The number of lines that a worker may write.
    budget: u32,
    // The conflicts left to this search, and the searches from nothing left after it.
    left: u32,
    searches: u32,
}

impl Shortening {
    /// Begins the search for a shorter disproof than the one that `known` gathered. The crowd's engine is used if it knows most of the
    /// disproof's stations. `budget` is the number of lines that a worker may write.
    pub(crate) fn begin(
        alloc: Global,
        known: &Engine,
        group: Option<Engine>,
        budget: u32,
    ) -> Result<Shortening, NoMemory> {
        let stations = known.named(alloc)?;
        let lines = known.cone.lines.len();
        let tested = known.grid.station_at(known.tested);
        let mut engine = engine_for(alloc, &known.grid, group, &stations, tested)?;
        engine.begin_one_test(alloc, &stations, tested)?;
        Ok(Shortening {
            stations,
            lines,
            found: None,
            tested,
            engine,
            budget,
            left: budget.saturating_mul(BUDGETS_OF_SHORTER_LOG),
            searches: SEARCHES_FROM_NOTHING,
        })
    }

    /// Continues for at most this many conflicts, and returns whether the search has ended.
    pub(crate) fn continue_search(
        &mut self,
        alloc: Global,
        conflicts: u32,
    ) -> Result<bool, NoMemory> {
        match self.engine.search(alloc, conflicts)? {
            QueryProgress::Open => {
                self.left = self.left.saturating_sub(conflicts);
                if self.left > 0 {
                    return Ok(false);
                }
                self.is_over(alloc)
            }
            QueryProgress::Refuted { line } => {
                self.take(alloc, line)?;
                self.is_over(alloc)
            }
            QueryProgress::Next | QueryProgress::Fits | QueryProgress::Lost => Ok(true),
        }
    }

    /// Returns the shortest disproof, if a shorter one than the known one was found, and the engine that knows its crowd.
    pub(crate) fn into_ended(self) -> (Option<Disproof>, Engine) {
        (self.found, self.engine)
    }

    // Takes a refutation of the tested station as the shortest disproof, if it needs fewer lines.
    fn take(&mut self, alloc: Global, line: u32) -> Result<(), NoMemory> {
        self.engine.gather(alloc, line)?;
        let lines = self.engine.cone.lines.len();
        if lines < self.lines {
            self.lines = lines;
            self.stations = self.engine.named(alloc)?;
            self.found = Some(Disproof::of_cone(alloc, &self.engine)?);
        }
        Ok(())
    }

    // Returns true if the shortest disproof is short enough or no search from nothing is left. Otherwise begins one, with a seed of its
    // own, so that it is another search than those before.
    fn is_over(&mut self, alloc: Global) -> Result<bool, NoMemory> {
        if self.searches == 0 || self.lines <= self.budget as usize {
            return Ok(true);
        }
        self.searches = self.searches.saturating_sub(1);
        self.left = self.budget.saturating_mul(BUDGETS_OF_SHORTER_LOG);
        let seed = self.searches as u64 + 1;
        self.engine = crowd_engine(alloc, &self.engine.grid, seed)?;
        self.engine
            .begin_one_test(alloc, &self.stations, self.tested)?;
        Ok(false)
    }
}

// Returns the crowd's engine if it knows most of these stations; otherwise a new engine over the same book.
fn engine_for(
    alloc: Global,
    grid: &SharedGrid,
    group: Option<Engine>,
    stations: &[u32],
    tested: u32,
) -> Result<Engine, NoMemory> {
    let Some(engine) = group else {
        return crowd_engine(alloc, grid, 0);
    };
    if engine.is_mostly_on_air(stations, tested, GROUP_STATIONS_TO_ONE_NEW) {
        return Ok(engine);
    }
    crowd_engine(alloc, grid, 0)
}

fn crowd_engine(alloc: Global, grid: &SharedGrid, seed: u64) -> Result<Engine, NoMemory> {
    Engine::new(alloc, Arc::try_clone(grid)?, Purpose::ShorterLog, seed)
}
