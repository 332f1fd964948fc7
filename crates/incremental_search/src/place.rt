//! How stations come on air, and how a query begins and ends.

use crate::engine::Engine;
use crate::hint::{Hint, Reason};
use crate::literal::Literal;
use crate::policy::{MOVES_BEFORE_SEARCH, Purpose, RESTART_UNIT};
use crate::search_scope::NOBODY;
use crate::trail::Value;
use local_search::local_search::{NOWHERE, Placement};
use search_base::checked_access::{read, saturating_u32};
use search_base::restarts::Restarts;
use std::alloc::{AllocError as NoMemory, Global};
use std::mem::replace;

// What no change is.
const NO_CHANGE: Placement = Placement {
    place: NOBODY,
    var: NOWHERE,
};

impl Engine {
    /// Puts the station at a place on air, on the channel of this variable.
    pub(crate) fn put_on_channel(&mut self, place: u32, var: u32) -> Result<(), NoMemory> {
        let standing = self.search_scope.station_state(place);
        if !standing.on_air {
            self.put_on_air_for_good(place)?;
        }
        self.set_channel(place, var);
        self.local_search.set_channel(&self.grid, place, var);
        Ok(())
    }

    /// Checks whether at most one in `one_in` of these stations is not on air yet, not counting the tested station.
    pub(crate) fn is_mostly_on_air(&self, stations: &[u32], tested: u32, one_in: u32) -> bool {
        let mut others: u32 = 0;
        for station in stations {
            if *station != tested && !self.is_on_air(*station) {
                others = others.saturating_add(1);
            }
        }
        others.saturating_mul(one_in) <= saturating_u32(stations.len())
    }

    /// Begins the test of the station at a place together with the stations on air. Lines are dropped first, if there are many.
    pub(crate) fn begin(&mut self, alloc: Global, place: u32) -> Result<(), NoMemory> {
        self.backjump_to(0)?;
        self.search_scope.clear();
        self.first_line = self.lines.len();
        self.reduce_lines(alloc)?;
        self.tested = place;
        self.from.clear();
        self.set_channel(place, NOWHERE);
        self.activate(place)?;
        self.restarts = Restarts::new(RESTART_UNIT);
        self.is_due = false;
        self.unmatched = 0;
        self.bring_into_play(place)?;
        match self.purpose {
            Purpose::Answers => self.moves_due = MOVES_BEFORE_SEARCH,
            Purpose::ShorterLog => self.bring_set_into_play()?,
        }
        Ok(())
    }

    /// Makes a channel of the station at a place part of the known fit from which the search begins.
    pub(crate) fn begin_from(&mut self, place: u32, var: u32) -> Result<(), NoMemory> {
        self.bring_into_play(place)?;
        self.from.push(Placement { place, var })?;
        Ok(())
    }

    /// Lets the local search make the moves that are due. Returns whether it found a fit, which is then adopted.
    pub(crate) fn find_by_moves(&mut self) -> Result<bool, NoMemory> {
        let moves = replace(&mut self.moves_due, 0);
        let found = self
            .local_search
            .find(&self.grid, self.tested, &self.from, moves)?;
        if found {
            for i in 0..saturating_u32(self.local_search.changes().len()) {
                let change = read(self.local_search.changes(), i, NO_CHANGE);
                self.adopt(change.place, change.var);
            }
        }
        Ok(found)
    }

    /// Adopts the fit on the trail: each station of the set, the tested one included, gets its new channel.
    pub(crate) fn apply_fit(&mut self) {
        for at in 0..self.trail.len() {
            let literal = self.trail.at(at);
            let var = literal.var();
            if literal.is_negated() || !self.is_channel(var) {
                continue;
            }
            let place = self.grid.owner(var);
            if self.search_scope.is_in_set(place) {
                self.adopt(place, var);
            }
        }
    }

    /// Ends a query: the tested station leaves the set unless it is on air.
    pub(crate) fn end(&mut self) -> Result<(), NoMemory> {
        self.backjump_to(0)?;
        self.search_scope.clear();
        let mut standing = self.search_scope.station_state(self.tested);
        standing.in_set = standing.on_air;
        self.search_scope.set(self.tested, standing);
        Ok(())
    }

    // Gives a station a channel of a fit. The tested station is not on air, so the map of the local search stays without it.
    fn adopt(&mut self, place: u32, var: u32) {
        self.set_channel(place, var);
        if place != self.tested {
            self.local_search.set_channel(&self.grid, place, var);
        }
    }

    fn set_channel(&mut self, place: u32, var: u32) {
        let mut standing = self.search_scope.station_state(place);
        standing.channel = var;
        self.search_scope.set(place, standing);
    }

    fn is_on_air(&self, station: u32) -> bool {
        match self.grid.place_of(station) {
            Some(place) => self.search_scope.station_state(place).on_air,
            None => false,
        }
    }

    // Brings each station of the set into play.
    fn bring_set_into_play(&mut self) -> Result<(), NoMemory> {
        for i in 0..saturating_u32(self.set.len()) {
            let place = read(&self.set, i, NOBODY);
            if self.search_scope.is_in_set(place) {
                self.bring_into_play(place)?;
            }
        }
        Ok(())
    }

    // Puts the station at a place on air for good.
    fn put_on_air_for_good(&mut self, place: u32) -> Result<(), NoMemory> {
        self.backjump_to(0)?;
        self.activate(place)?;
        let mut standing = self.search_scope.station_state(place);
        standing.on_air = true;
        self.search_scope.set(place, standing);
        let selector = Literal::of(self.selector(place));
        match self.trail.value(selector) {
            Value::Open => self.assign(selector, Reason::Decision)?,
            Value::True => {}
            Value::False => self.is_lost = true,
        }
        Ok(())
    }

    // Adds the station at a place to the set: stores its clause, and rules out its channels that interfere with facts.
    fn activate(&mut self, place: u32) -> Result<(), NoMemory> {
        let mut standing = self.search_scope.station_state(place);
        let is_new = !standing.has_clause;
        standing.in_set = true;
        standing.has_clause = true;
        self.search_scope.set(place, standing);
        for v in self.grid.vars_of(place) {
            self.rule_out_by_facts(v)?;
        }
        if is_new {
            self.add_own_clause(place)?;
        }
        Ok(())
    }

    // Makes an open variable false if a variable that interferes with it is true.
    fn rule_out_by_facts(&mut self, v: u32) -> Result<(), NoMemory> {
        if !self.trail.is_open(v) {
            return Ok(());
        }
        for place in self.grid.rivals_of(v) {
            let w = self.grid.rival(place);
            if self.trail.value(Literal::of(w)) == Value::True {
                return self.assign(Literal::negation_of(v), Reason::Pair { v, w });
            }
        }
        Ok(())
    }

    // Adds the station's own clause: the station at a place, if in the set, is on one of its channels.
    fn add_own_clause(&mut self, place: u32) -> Result<(), NoMemory> {
        self.line.clear();
        for var in self.grid.vars_of(place) {
            self.line.push(Literal::of(var))?;
        }
        let selector = self.selector(place);
        self.line.push(Literal::negation_of(selector))?;
        let found = self.move_open_first();
        let first = read(&self.line, 0, Literal::of(0));
        let at = self.clauses.add(&self.line, Hint::Own(place), 0, 0.0)?;
        if found == 1 && self.trail.value(first) == Value::Open {
            self.assign(first, Reason::Clause { at })?;
        }
        Ok(())
    }
}
