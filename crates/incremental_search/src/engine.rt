//! The engine of the search: its knowledge of the stations, and the basic steps of its parts.

use crate::clauses::KeptClauses;
use crate::cone::Cone;
use crate::hint::{Hint, Reason};
use crate::lines::KeptLines;
use crate::literal::Literal;
use crate::marks::AnalysisMarks;
use crate::policy::{LINES_BETWEEN_REDUCTIONS, Purpose, RESTART_UNIT};
use crate::search_scope::{NOBODY, SearchScope};
use crate::trail::KeptTrail;
use local_search::local_search::{LocalSearch, Placement};
use search_base::grid::SharedGrid;
use search_base::restarts::Restarts;
use search_base::tie_breaking::TieBreaking;
use std::alloc::{AllocError as NoMemory, Global};

/// A conflict-driven search over the stations of a book. The variables are the channels of each station, and then a selector for each
/// station, which says that the station is in the set. That no station has two channels, and that no pair interferes, is not stored in
/// clauses: a channel that becomes true makes the others false.
#[derive(Drop)]
pub(crate) struct Engine {
    pub(crate) grid: SharedGrid,
    pub(crate) trail: KeptTrail,
    pub(crate) clauses: KeptClauses,
    pub(crate) lines: KeptLines,
    pub(crate) cone: Cone,
    pub(crate) search_scope: SearchScope,
    pub(crate) marks: AnalysisMarks,
    pub(crate) purpose: Purpose,
    pub(crate) local_search: LocalSearch,
    // The moves that the local search is to make next, and the conflicts for which it has made none yet.
    pub(crate) moves_due: u32,
    pub(crate) unmatched: u32,
    // The changes of a known fit of the tested station.
    pub(crate) from: Vec<Placement>,
    pub(crate) restarts: Restarts,
    pub(crate) is_due: bool,
    // The line being learnt.
    pub(crate) line: Vec<Literal>,
    pub(crate) hints: Vec<Hint>,
    // The variables that a channel rules out.
    pub(crate) ruled_out: Vec<u32>,
    // With more stored lines than this, some are dropped at the next restart.
    pub(crate) room: usize,
    // Whether the knowledge is contradictory.
    pub(crate) is_lost: bool,
    // The places of the query's stations, of the tested one, and of those that wait for their test, the next one last.
    pub(crate) set: Vec<u32>,
    pub(crate) tested: u32,
    pub(crate) waiting: Vec<u32>,
    // The number of the first line that was learnt since the test of that station began.
    pub(crate) first_line: u32,
}

impl Engine {
    /// Returns an engine that knows only the stations, none of which is on air. A seed other than 0 breaks ties by chance.
    pub(crate) fn new(
        alloc: Global,
        grid: SharedGrid,
        purpose: Purpose,
        seed: u64,
    ) -> Result<Engine, NoMemory> {
        let vars = grid.vars().saturating_add(grid.stations());
        let mut engine = Engine {
            trail: KeptTrail::new(alloc, vars)?,
            clauses: KeptClauses::new(alloc, vars)?,
            lines: KeptLines::new(alloc, vars)?,
            cone: Cone::new(alloc),
            search_scope: SearchScope::new(alloc, grid.stations(), vars)?,
            marks: AnalysisMarks::new(alloc, vars)?,
            restarts: Restarts::new(RESTART_UNIT),
            purpose,
            local_search: LocalSearch::new(alloc, &grid, seed)?,
            moves_due: 0,
            unmatched: 0,
            from: Vec::new(alloc),
            is_due: false,
            line: Vec::new(alloc),
            hints: Vec::new(alloc),
            ruled_out: Vec::new(alloc),
            room: LINES_BETWEEN_REDUCTIONS,
            is_lost: false,
            set: Vec::new(alloc),
            tested: NOBODY,
            waiting: Vec::new(alloc),
            first_line: 0,
            grid,
        };
        engine.break_ties_by_chance(seed);
        Ok(engine)
    }

    // Makes a seed other than 0 break ties by chance.
    fn break_ties_by_chance(&mut self, seed: u64) {
        if seed != 0 {
            let ties = TieBreaking::new(seed, 0);
            self.search_scope
                .order
                .break_ties_by_chance(self.grid.vars(), ties);
        }
    }

    /// Returns the selector of the station at a place.
    pub(crate) fn selector(&self, place: u32) -> u32 {
        self.grid.vars().saturating_add(place)
    }

    /// Checks whether a variable belongs to a channel, not to a selector.
    pub(crate) fn is_channel(&self, var: u32) -> bool {
        var < self.grid.vars()
    }

    /// Makes an open literal true. At level 0 a literal with a reason is a fact, and gets a line.
    pub(crate) fn assign(&mut self, literal: Literal, reason: Reason) -> Result<(), NoMemory> {
        self.trail.push(literal, reason)?;
        if literal.is_negated() {
            self.bring_owner_into_play(literal.var())?;
        }
        if self.trail.level() == 0 && reason != Reason::Decision {
            self.log_fact(literal, reason)?;
        }
        Ok(())
    }

    /// Brings the station at a place into play: its variables can be decided.
    pub(crate) fn bring_into_play(&mut self, place: u32) -> Result<(), NoMemory> {
        self.search_scope.bring_in(place)?;
        for var in self.grid.vars_of(place) {
            if self.trail.is_open(var) {
                self.search_scope.order.put(var)?;
            }
        }
        Ok(())
    }

    /// Undoes all levels above this one.
    pub(crate) fn backjump_to(&mut self, level: u32) -> Result<(), NoMemory> {
        for _ in 0..self.trail.len() {
            let Some(literal) = self.trail.pop_above(level) else {
                break;
            };
            let var = literal.var();
            if self.is_channel(var)
                && self
                    .search_scope
                    .station_state(self.grid.owner(var))
                    .in_play
            {
                self.search_scope.order.put(var)?;
            }
        }
        self.trail.end_levels(level);
        Ok(())
    }

    /// Returns the clause of a reason as a hint.
    pub(crate) fn name(&self, reason: Reason) -> Hint {
        match reason {
            Reason::Decision => Hint::Line(u32::MAX),
            Reason::Pair { v, w } => Hint::Pair { v, w },
            Reason::Clause { at } => self.clauses.name(at),
        }
    }

    /// Returns the number of a reason's literals.
    pub(crate) fn size(&self, reason: Reason) -> u32 {
        match reason {
            Reason::Decision => 0,
            Reason::Pair { v: _, w: _ } => 2,
            Reason::Clause { at } => self.clauses.size(at),
        }
    }

    /// Returns a literal of a reason, by place from 0.
    pub(crate) fn literal(&self, reason: Reason, place: u32) -> Literal {
        match reason {
            Reason::Decision => Literal::of(0),
            Reason::Pair { v, w } => Literal::negation_of(if place == 0 { v } else { w }),
            Reason::Clause { at } => self.clauses.literal(at, place),
        }
    }

    /// Gathers what the line of this number needs, in place of what was gathered before.
    pub(crate) fn gather(&mut self, alloc: Global, line: u32) -> Result<(), NoMemory> {
        let wanted = line..line.saturating_add(1);
        self.cone.gather(alloc, &self.lines, &self.grid, wanted)
    }

    /// Gathers the lines that were learnt since the test began, and what they need, in place of what was gathered before.
    pub(crate) fn gather_test(&mut self, alloc: Global) -> Result<(), NoMemory> {
        let wanted = self.first_line..self.lines.len();
        self.cone.gather(alloc, &self.lines, &self.grid, wanted)
    }

    /// Returns the stations that the gathered lines name, ascending.
    pub(crate) fn named(&self, alloc: Global) -> Result<Vec<u32>, NoMemory> {
        let mut stations = Vec::new(alloc);
        for place in &self.cone.places {
            stations.push(self.grid.station_at(*place))?;
        }
        Ok(stations)
    }

    // Brings the station of a variable that became false into play, if the variable was its last channel.
    fn bring_owner_into_play(&mut self, var: u32) -> Result<(), NoMemory> {
        if !self.is_channel(var) {
            return Ok(());
        }
        let place = self.grid.owner(var);
        let standing = self.search_scope.station_state(place);
        if standing.channel == var && standing.in_set {
            self.bring_into_play(place)?;
        }
        Ok(())
    }

    // Adds the line of a fact: one literal, which follows from earlier facts and its reason.
    fn log_fact(&mut self, literal: Literal, reason: Reason) -> Result<(), NoMemory> {
        self.hints.clear();
        for place in 0..self.size(reason) {
            let var = self.literal(reason, place).var();
            if var != literal.var() {
                if let Some(line) = self.lines.fact(var) {
                    self.hints.push(Hint::Line(line))?;
                }
            }
        }
        let name = self.name(reason);
        self.hints.push(name)?;
        let number = self.lines.add(&[literal], &self.hints)?;
        self.lines.set_fact(literal.var(), number);
        Ok(())
    }
}
