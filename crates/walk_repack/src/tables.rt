//! How many pairs each station would violate on each channel, for the walk's policy.
//!
//! `violated` scans the pairs from a station on its channel, which are adjacent. A pair is violated if its other station is on the pair's
//! other channel. The scan skips a given number of violated pairs and returns the place of the next one. If these pairs run out before,
//! `violated_to` continues through all pairs to the station.

use crate::pick::Pick;
use crate::places::Places;
use crate::violating_stations::ViolatingStations;
use pack_defs::book::Book;
use pack_defs::pair::Pair;
use std::alloc::{AllocError as NoMemory, Global};

/// How many pairs each station of a set would violate on each channel, given where the others are. No answer depends on these numbers
/// for its correctness.
#[derive(Drop)]
pub(crate) struct Tables<'a> {
    places: Places,
    // For each place, the pairs from its station, and the pairs to it.
    from: Vec<&'a [Pair]>,
    to: Vec<&'a [Pair]>,
    // For each place, the channel of its station.
    channels: Vec<u8>,
    // A cell for each place and channel, with `width` channels to a place.
    width: usize,
    counts: Vec<u32>,
    violating_stations: ViolatingStations,
}

impl<'a> Tables<'a> {
    /// Returns the tables of a map. The cost is proportional to the pairs of its stations.
    pub(crate) fn new(
        alloc: Global,
        book: &'a Book,
        entries: &[(u32, u8)],
    ) -> Result<Tables<'a>, NoMemory> {
        let width = book.top() as usize + 1;
        let mut tables = Tables::uncounted(alloc, width, entries)?;
        tables.count_all(book, entries)?;
        Ok(tables)
    }

    // Returns the tables of a map before its stations are counted.
    fn uncounted(
        alloc: Global,
        width: usize,
        entries: &[(u32, u8)],
    ) -> Result<Tables<'a>, NoMemory> {
        Ok(Tables {
            places: Places::new(alloc, entries)?,
            from: Vec::with_capacity(alloc, entries.len())?,
            to: Vec::with_capacity(alloc, entries.len())?,
            channels: channels_of(alloc, entries)?,
            width,
            counts: Vec::new(alloc),
            violating_stations: ViolatingStations::new(alloc, entries.len())?,
        })
    }

    // Counts each station of the map, and stores its pairs.
    fn count_all(&mut self, book: &'a Book, entries: &[(u32, u8)]) -> Result<(), NoMemory> {
        self.counts
            .resize(entries.len().saturating_mul(self.width), 0)?;
        for x in entries {
            let (from, to) = (book.pairs_from(x.0), book.pairs_to(x.0));
            self.count_station(from, to, x.1);
            self.from.push(from)?;
            self.to.push(to)?;
        }
        Ok(())
    }

    /// Returns the number of cells.
    pub(crate) fn cells(&self) -> usize {
        self.counts.len()
    }

    /// Returns the cell of a station and a channel, or the number of cells if the set lacks the station.
    pub(crate) fn cell(&self, station: u32, channel: u8) -> usize {
        match self.places.place(station) {
            Some(place) => self.cell_at(place, channel),
            None => self.counts.len(),
        }
    }

    /// Returns how many pairs the station of a cell would violate on its channel.
    pub(crate) fn count(&self, cell: usize) -> u32 {
        if cell < self.counts.len() {
            self.counts[cell]
        } else {
            0
        }
    }

    /// Returns the number of stations of violated pairs.
    pub(crate) fn troubled(&self) -> u32 {
        self.violating_stations.len()
    }

    /// Returns the n-th station of a violated pair, and its channel.
    pub(crate) fn violating_at(&self, n: u32) -> (u32, u8) {
        let place = self.violating_stations.get(n);
        (self.places.station(place), self.channel_at(place))
    }

    /// Returns the place in the book of a station's violated pair, after skipping this many of its violated pairs.
    pub(crate) fn violated(&self, station: u32, channel: u8, skip: u32) -> Option<Pick> {
        let mut left = skip;
        let pairs = self.pairs_from(station);
        for i in pairs.partition_point(|p| p.a < channel)..pairs.len() {
            let pair = pairs[i];
            if pair.a != channel {
                break;
            }
            if self.is_on_channel(pair.g, pair.b) {
                if left == 0 {
                    return Some(Pick {
                        station,
                        is_first: true,
                        index: i,
                    });
                }
                left -= 1;
            }
        }
        self.violated_to(station, channel, left)
    }

    fn violated_to(&self, station: u32, channel: u8, skip: u32) -> Option<Pick> {
        let mut left = skip;
        for (i, pair) in self.pairs_to(station).iter().enumerate() {
            if pair.b == channel && self.is_on_channel(pair.f, pair.a) {
                if left == 0 {
                    return Some(Pick {
                        station,
                        is_first: false,
                        index: i,
                    });
                }
                left -= 1;
            }
        }
        None
    }

    /// Moves a station from one channel to another, and updates the counts of the stations that interfere with it there.
    pub(crate) fn shift(&mut self, station: u32, from: u8, to: u8) {
        let Some(place) = self.places.place(station) else {
            return;
        };
        let pairs = self.pairs_from(station);
        for pair in on_channel(pairs, from) {
            self.lower(pair.g, pair.b);
        }
        for pair in on_channel(pairs, to) {
            self.raise(pair.g, pair.b);
        }
        for pair in self.pairs_to(station) {
            if pair.b == from {
                self.lower(pair.f, pair.a);
            } else if pair.b == to {
                self.raise(pair.f, pair.a);
            }
        }
        self.set_channel_at(place, to);
    }

    // Counts a station that is on a channel from the start.
    fn count_station(&mut self, from: &[Pair], to: &[Pair], channel: u8) {
        for pair in on_channel(from, channel) {
            self.raise(pair.g, pair.b);
        }
        for pair in to {
            if pair.b == channel {
                self.raise(pair.f, pair.a);
            }
        }
    }

    // Puts the station of a place on a channel.
    fn set_channel_at(&mut self, place: usize, channel: u8) {
        if place < self.channels.len() {
            self.channels[place] = channel;
        }
        let violating = self.count(self.cell_at(place, channel)) > 0;
        self.violating_stations.set(place, violating);
    }

    fn raise(&mut self, station: u32, channel: u8) {
        let Some(place) = self.places.place(station) else {
            return;
        };
        let cell = self.cell_at(place, channel);
        if cell < self.counts.len() {
            self.counts[cell] = self.counts[cell].saturating_add(1);
            if self.channel_at(place) == channel {
                self.violating_stations.set(place, true);
            }
        }
    }

    fn lower(&mut self, station: u32, channel: u8) {
        let Some(place) = self.places.place(station) else {
            return;
        };
        let cell = self.cell_at(place, channel);
        if cell < self.counts.len() {
            self.counts[cell] = self.counts[cell].saturating_sub(1);
            if self.counts[cell] == 0 && self.channel_at(place) == channel {
                self.violating_stations.set(place, false);
            }
        }
    }

    // Returns the pairs from a station of the set.
    fn pairs_from(&self, station: u32) -> &'a [Pair] {
        listed(&self.from, self.places.place(station))
    }

    fn pairs_to(&self, station: u32) -> &'a [Pair] {
        listed(&self.to, self.places.place(station))
    }

    fn is_on_channel(&self, station: u32, channel: u8) -> bool {
        match self.places.place(station) {
            Some(place) => self.channel_at(place) == channel,
            None => false,
        }
    }

    fn channel_at(&self, place: usize) -> u8 {
        if place < self.channels.len() {
            self.channels[place]
        } else {
            0
        }
    }

    fn cell_at(&self, place: usize, channel: u8) -> usize {
        place
            .saturating_mul(self.width)
            .saturating_add(channel as usize)
    }
}

// Returns the pairs of a place; none without a place.
fn listed<'a>(lists: &[&'a [Pair]], place: Option<usize>) -> &'a [Pair] {
    match place {
        Some(at) => { if at < lists.len() { lists[at] } else { &[] } }
        None => &[],
    }
}

// Returns the channel of each entry.
fn channels_of(alloc: Global, entries: &[(u32, u8)]) -> Result<Vec<u8>, NoMemory> {
    let mut channels = Vec::with_capacity(alloc, entries.len())?;
    for x in entries {
        channels.push(x.1)?;
    }
    Ok(channels)
}

// Returns the pairs of one station whose first channel is this one. They are adjacent.
fn on_channel(pairs: &[Pair], channel: u8) -> &[Pair] {
    let rest = &pairs[pairs.partition_point(|p| p.a < channel)..];
    &rest[..rest.partition_point(|p| p.a <= channel)]
}
