//! Turns the searcher's variables and lines into a log over the packing formula of some stations.
//!
//! A disproof's log has the cone of its last line. A receipt's log has only fresh lines (`receipt`).
//!
//! The formula's clauses are numbered: first a clause for each station, then for each station its channels two by two, then the pairs
//! that interfere.

use crate::cone::Cone;
use crate::engine::Engine;
use crate::hint::Hint;
use crate::lines::KeptLines;
use crate::literal::Literal;
use clause_db::lit::Lit;
use rup_check::line::Log;
use rup_check::lines::Lines;
use search_base::checked_access::{read, saturating_u32, slice_between, write};
use search_base::grid::Grid;
use std::alloc::{AllocError as NoMemory, Global};

/// The numbers of the formula's variables and clauses.
#[derive(Drop)]
pub(crate) struct Numbering {
    // For each variable its number, from 1; 0 if its station is not one of these.
    vars: Vec<u32>,
    // For each place the number of its station's own clause, and the number of clauses before those of its channels two by two.
    owns: Vec<u32>,
    at_most_one_offsets: Vec<u64>,
    // For each variable the number of clauses before its pairs, and where its pairs begin and end among the second variables of
    // all pairs.
    channels_before: Vec<u64>,
    begins: Vec<u32>,
    ends: Vec<u32>,
    seconds: Vec<u32>,
    // The number of the formula's clauses.
    clauses: u64,
}

/// Buffers for one line, reused from line to line.
#[derive(Drop)]
pub(crate) struct LineParts {
    /// The literals without those of selector variables, and the hints.
    pub(crate) literals: Vec<Literal>,
    pub(crate) hints: Vec<Hint>,
    // The same as numbers of the formula.
    lits: Vec<Lit>,
    numbers: Vec<u64>,
}

impl LineParts {
    /// Returns empty buffers.
    pub(crate) fn none(alloc: Global) -> LineParts {
        LineParts {
            literals: Vec::new(alloc),
            hints: Vec::new(alloc),
            lits: Vec::new(alloc),
            numbers: Vec::new(alloc),
        }
    }

    /// Reads the literals and hints of a line.
    pub(crate) fn read(
        &mut self,
        lines: &KeptLines,
        grid: &Grid,
        line: u32,
    ) -> Result<(), NoMemory> {
        self.literals.clear();
        for code in lines.codes(line) {
            let literal = Literal { code: *code };
            if literal.var() < grid.vars() {
                self.literals.push(literal)?;
            }
        }
        lines.hints(line, &mut self.hints)
    }

    /// Adds the line to a log. Its hints that are lines have their ranks in the cone behind the formula's clauses.
    pub(crate) fn add_to(
        &mut self,
        numbering: &Numbering,
        grid: &Grid,
        cone: &Cone,
        log: &mut Lines,
    ) -> Result<(), NoMemory> {
        self.lits.clear();
        for literal in &self.literals {
            self.lits.push(Lit {
                var: read(&numbering.vars, literal.var(), 0) as u64,
                positive: !literal.is_negated(),
            })?;
        }
        self.numbers.clear();
        for hint in &self.hints {
            self.numbers.push(numbering.number(grid, cone, *hint))?;
        }
        log.push(&self.lits, &self.numbers)
    }
}

impl Engine {
    /// Returns the log of the cone, without the literals of selector variables.
    pub(crate) fn log(&self, alloc: Global) -> Result<Log, NoMemory> {
        let numbering = Numbering::of(alloc, &self.grid, &self.cone.places)?;
        let mut parts = LineParts::none(alloc);
        let mut lines = Lines::new(alloc);
        for line in &self.cone.lines {
            parts.read(&self.lines, &self.grid, *line)?;
            parts.add_to(&numbering, &self.grid, &self.cone, &mut lines)?;
        }
        Ok(Log { lines })
    }
}

impl Numbering {
    /// Numbers the packing formula of the stations at these places, which ascend.
    pub(crate) fn of(alloc: Global, grid: &Grid, places: &[u32]) -> Result<Numbering, NoMemory> {
        let mut numbering = Numbering::none(alloc);
        numbering.make_room(grid)?;
        numbering.number_clauses(grid, places)?;
        Ok(numbering)
    }

    // Returns the numbering of no variable and no clause.
    fn none(alloc: Global) -> Numbering {
        Numbering {
            vars: Vec::new(alloc),
            owns: Vec::new(alloc),
            at_most_one_offsets: Vec::new(alloc),
            channels_before: Vec::new(alloc),
            begins: Vec::new(alloc),
            ends: Vec::new(alloc),
            seconds: Vec::new(alloc),
            clauses: 0,
        }
    }

    // Allocates the numbers of each variable and each station.
    fn make_room(&mut self, grid: &Grid) -> Result<(), NoMemory> {
        let vars = grid.vars() as usize;
        let stations = grid.stations() as usize;
        self.vars.resize(vars, 0)?;
        self.owns.resize(stations, 0)?;
        self.at_most_one_offsets.resize(stations, 0)?;
        self.channels_before.resize(vars, 0)?;
        self.begins.resize(vars, 0)?;
        self.ends.resize(vars, 0)?;
        Ok(())
    }

    // Numbers the clauses of the stations at these places, in the formula's order.
    fn number_clauses(&mut self, grid: &Grid, places: &[u32]) -> Result<(), NoMemory> {
        self.clauses = places.len() as u64;
        self.number_stations(grid, places);
        for place in places {
            for var in grid.vars_of(*place) {
                self.number_pairs(grid, var)?;
            }
        }
        Ok(())
    }

    fn number_stations(&mut self, grid: &Grid, places: &[u32]) {
        let mut last: u32 = 0;
        for (i, place) in places.iter().enumerate() {
            write(&mut self.owns, *place, saturating_u32(i).saturating_add(1));
            write(&mut self.at_most_one_offsets, *place, self.clauses);
            let mut count: u64 = 0;
            for var in grid.vars_of(*place) {
                last = last.saturating_add(1);
                write(&mut self.vars, var, last);
                count = count.saturating_add(1);
            }
            let at_most_one_offsets = count.saturating_mul(count.saturating_sub(1)) / 2;
            self.clauses = self.clauses.saturating_add(at_most_one_offsets);
        }
    }

    // Numbers the pairs whose first variable this is.
    fn number_pairs(&mut self, grid: &Grid, var: u32) -> Result<(), NoMemory> {
        write(&mut self.channels_before, var, self.clauses);
        write(&mut self.begins, var, saturating_u32(self.seconds.len()));
        for second in grid.rival_list(var) {
            if *second > var && read(&self.vars, *second, 0) > 0 {
                self.seconds.push(*second)?;
                self.clauses = self.clauses.saturating_add(1);
            }
        }
        write(&mut self.ends, var, saturating_u32(self.seconds.len()));
        Ok(())
    }

    // Returns the number of a clause of the formula, or of a line behind the formula.
    fn number(&self, grid: &Grid, cone: &Cone, hint: Hint) -> u64 {
        match hint {
            Hint::Own(place) => read(&self.owns, place, 0) as u64,
            Hint::Line(line) => self.clauses.saturating_add(cone.rank(line) as u64),
            Hint::Pair { v, w } => {
                let (first, second) = (v.min(w), v.max(w));
                if grid.owner(first) == grid.owner(second) {
                    self.number_of_at_most_one(grid, first, second)
                } else {
                    self.number_of_pair(first, second)
                }
            }
        }
    }

    // Returns the number of the clause of two channels of a station. The first channel comes first, with each later one, and so on.
    fn number_of_at_most_one(&self, grid: &Grid, first: u32, second: u32) -> u64 {
        let place = grid.owner(first);
        let vars = grid.vars_of(place);
        let count = vars.end.saturating_sub(vars.start) as u64;
        let row = first.saturating_sub(vars.start) as u64;
        let later = (2 * count).saturating_sub(row).saturating_sub(1);
        let earlier = row.saturating_mul(later) / 2;
        read(&self.at_most_one_offsets, place, 0)
            .saturating_add(earlier)
            .saturating_add(second.saturating_sub(first) as u64)
    }

    fn number_of_pair(&self, first: u32, second: u32) -> u64 {
        let begin = read(&self.begins, first, 0);
        let end = read(&self.ends, first, 0);
        match slice_between(&self.seconds, begin, end).binary_search(&second) {
            Ok(place) => read(&self.channels_before, first, 0)
                .saturating_add(place as u64)
                .saturating_add(1),
            Err(_) => 0,
        }
    }
}
