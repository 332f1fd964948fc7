//! A book as numbers: a place for each station, a variable for each of its channels, and for each variable its rivals. A variable's
//! rivals are the variables that interfere with it. Here and in the callers, `station` is a facility number, and `place` its index in
//! the book.

use crate::checked_access::{filled, read, saturating_u32, slice_between, write};
use pack_defs::book::Book;
use std::alloc::{AllocError as NoMemory, Global};
use std::ops::Range;
use std::sync::Arc;

/// The numbers of a book, made once for several searchers.
pub type SharedGrid = Arc<Grid, Global>;

/// The places of stations and the variables, both from 0 and in the order of the book. The rivals are listed once, in one flat list.
#[derive(Drop)]
pub struct Grid {
    // For each place the facility number of its station.
    stations: Vec<u32>,
    // For each place the first variable of its station; then the number of variables.
    firsts: Vec<u32>,
    // For each variable the place of its station, and its channel.
    owners: Vec<u32>,
    channels: Vec<u8>,
    // For each variable where its rivals begin; then the number of rivals.
    begins: Vec<u32>,
    rivals: Vec<u32>,
    top: u8,
    pairs: usize,
    // The book's digest.
    digest: u64,
}

// The constants of FNV-1a for 64 bits (Fowler, Noll and Vo).
const FNV_START: u64 = 0xcbf2_9ce4_8422_2325;

const FNV_FACTOR: u64 = 0x0000_0100_0000_01b3;

// Two variables that interfere.
#[derive(Clone, Copy)]
struct VariablePair {
    v: u32,
    w: u32,
}

impl Grid {
    /// Numbers the stations, channels and pairs of a book.
    pub fn of(alloc: Global, book: &Book) -> Result<Grid, NoMemory> {
        let mut grid = Grid::empty(alloc, book.top(), book.pairs().len());
        grid.digest = digest_of(book);
        for place in 0..book.len() {
            grid.add_station(place, book)?;
        }
        let vars = grid.vars();
        grid.firsts.push(vars)?;
        let couples = grid.variable_pairs(alloc, book)?;
        grid.add_rivals(alloc, &couples)?;
        Ok(grid)
    }

    fn empty(alloc: Global, top: u8, pairs: usize) -> Grid {
        Grid {
            stations: Vec::new(alloc),
            firsts: Vec::new(alloc),
            owners: Vec::new(alloc),
            channels: Vec::new(alloc),
            begins: Vec::new(alloc),
            rivals: Vec::new(alloc),
            top,
            pairs,
            digest: 0,
        }
    }

    /// Checks whether these may be the numbers of the book, that is, whether the numbers of stations, top channels and numbers of pairs
    /// agree. For another book of the same size, suggestions are worthless.
    pub fn may_be_of(&self, book: &Book) -> bool {
        self.stations.len() == book.len() as usize
            && self.top == book.top()
            && self.pairs == book.pairs().len()
    }

    /// Checks whether these are the numbers of the book, by its digest. Another book has the same digest by chance alone.
    pub fn is_of(&self, book: &Book) -> bool {
        self.may_be_of(book) && self.digest == digest_of(book)
    }

    /// Returns the number of stations.
    pub fn stations(&self) -> u32 {
        saturating_u32(self.stations.len())
    }

    /// Returns the number of variables.
    pub fn vars(&self) -> u32 {
        saturating_u32(self.owners.len())
    }

    /// Returns the facility number of the station at a place.
    pub fn station_at(&self, place: u32) -> u32 {
        read(&self.stations, place, 0)
    }

    /// Returns the place of a station, if the book has the station.
    pub fn place_of(&self, station: u32) -> Option<u32> {
        match self.stations.binary_search(&station) {
            Ok(place) => Some(saturating_u32(place)),
            Err(_) => None,
        }
    }

    /// Returns the variables of the station at a place.
    pub fn vars_of(&self, place: u32) -> Range<u32> {
        let end = read(&self.firsts, place.saturating_add(1), 0);
        read(&self.firsts, place, end)..end
    }

    /// Returns the place of a variable's station.
    pub fn owner(&self, var: u32) -> u32 {
        read(&self.owners, var, u32::MAX)
    }

    /// Returns the channel of a variable.
    pub fn channel(&self, var: u32) -> u8 {
        read(&self.channels, var, 0)
    }

    /// Returns the variable of a channel of the station at a place, if the station may use the channel.
    pub fn var_of(&self, place: u32, channel: u8) -> Option<u32> {
        let vars = self.vars_of(place);
        match slice_between(&self.channels, vars.start, vars.end).binary_search(&channel) {
            Ok(place) => Some(vars.start.saturating_add(saturating_u32(place))),
            Err(_) => None,
        }
    }

    /// Returns the places, for `rival`, of the variables that interfere with this one, ascending.
    pub fn rivals_of(&self, var: u32) -> Range<u32> {
        let end = read(&self.begins, var.saturating_add(1), 0);
        read(&self.begins, var, end)..end
    }

    /// Returns the variable at a place of the rivals.
    pub fn rival(&self, place: u32) -> u32 {
        read(&self.rivals, place, 0)
    }

    /// Returns the variables that interfere with this one, ascending.
    pub fn rival_list(&self, var: u32) -> &[u32] {
        let places = self.rivals_of(var);
        slice_between(&self.rivals, places.start, places.end)
    }

    fn add_station(&mut self, place: u32, book: &Book) -> Result<(), NoMemory> {
        if place >= book.len() {
            return Ok(());
        }
        let station = book.facility(place);
        let first = self.vars();
        self.stations.push(station)?;
        self.firsts.push(first)?;
        for channel in book.domain(station) {
            self.owners.push(place)?;
            self.channels.push(*channel)?;
        }
        Ok(())
    }

    // Lists the two variables of each pair of the book, in its order.
    fn variable_pairs(&self, alloc: Global, book: &Book) -> Result<Vec<VariablePair>, NoMemory> {
        let mut couples = Vec::with_capacity(alloc, self.pairs)?;
        for pair in book.pairs() {
            let v = self.entry(pair.f, pair.a);
            let w = self.entry(pair.g, pair.b);
            if let (Some(v), Some(w)) = (v, w) {
                couples.push(VariablePair { v, w })?;
            }
        }
        Ok(couples)
    }

    fn entry(&self, station: u32, channel: u8) -> Option<u32> {
        self.var_of(self.place_of(station)?, channel)
    }

    // Counts the rivals of each variable, then stores them. The rivals of a variable come in the order of the pairs, those of the
    // stations before its own first, so they ascend.
    fn add_rivals(&mut self, alloc: Global, couples: &[VariablePair]) -> Result<(), NoMemory> {
        let vars = self.vars();
        let mut nexts = filled(alloc, vars, 0)?;
        for couple in couples {
            count_one(&mut nexts, couple.v);
            count_one(&mut nexts, couple.w);
        }
        let mut total: u32 = 0;
        for var in 0..vars {
            self.begins.push(total)?;
            let count = read(&nexts, var, 0);
            write(&mut nexts, var, total);
            total = total.saturating_add(count);
        }
        self.begins.push(total)?;
        self.rivals.resize(total as usize, 0)?;
        for couple in couples {
            write(&mut self.rivals, count_one(&mut nexts, couple.v), couple.w);
            write(&mut self.rivals, count_one(&mut nexts, couple.w), couple.v);
        }
        Ok(())
    }
}

// Adds one to a count and returns the old count.
fn count_one(counts: &mut [u32], at: u32) -> u32 {
    let count = read(counts, at, 0);
    write(counts, at, count.saturating_add(1));
    count
}

// Returns a digest of a book's stations, channels and pairs, by the function FNV-1a over whole numbers in place of bytes.
fn digest_of(book: &Book) -> u64 {
    let mut digest = FNV_START;
    for place in 0..book.len() {
        let station = book.facility(place);
        let domain = book.domain(station);
        digest = mixed(digest, station as u64);
        digest = mixed(digest, domain.len() as u64);
        for channel in domain {
            digest = mixed(digest, *channel as u64);
        }
    }
    for pair in book.pairs() {
        digest = mixed(digest, (pair.f as u64) << 32 | pair.g as u64);
        digest = mixed(digest, (pair.a as u64) << 8 | pair.b as u64);
    }
    digest
}

fn mixed(digest: u64, number: u64) -> u64 {
    (digest ^ number).wrapping_mul(FNV_FACTOR)
}
