//! The connected components of the stations on air, and when each last changed. `test_history` joins a component when a station goes on
//! air; `query_session` reads off which stations a query asks about.
//!
//! Components are kept as labels: each station on air has the label of its component (quick-find). Labels number the stations in
//! the order in which they went on air, so a label also dates the last change of its component. Testing only the component of a
//! station is the decomposition of SATFC (Newman, Fréchette, Leyton-Brown 2017).

ghost use Rattle.std.specs.Prelude.{◌≡◌, ◌<◌, ◌≤◌, ℕ, List, IfOk, IsTrue, false, filter, length, map, nat_le, ◌==◌, if◌then◌else◌};
ghost use Rattle.std.specs.List.{list_any};
ghost use Rattle.pack_defs.specs.ChannelMap.{IsAscending};
ghost use Rattle.pack_defs.specs.Lists.{is_ascending, is_in};
ghost use Rattle.auction_core.specs.AirMap.{placed_entries};
ghost use Rattle.auction_core.specs.State.{restricted};
ghost use Rattle.auction_core.specs.ComponentLabels.{is_asked, label_in, label_of, labelled, marked, merged_label, merged_labels, relabelled, replaced_label, touched_set, touches_since};

use crate::air_map::{AirMap, place_of};
use pack_defs::book::Book;
use pack_defs::channel_map::ChannelMap;
use std::alloc::{AllocError as NoMemory, Global};
use std::marker::Model;

/// A label for each station of an auction, ascending by station. The label is 0 off air. On air, it is the greatest number, by the
/// order of going on air, in the station's component.
#[derive(Debug, Drop)]
pub struct ComponentLabels {
    stations: Vec<u32>,
    labels: Vec<u32>,
}

impl Model for ComponentLabels {
    ghost use Rattle.std.specs.Prelude.{◌≡◌, IsTrue, length};
    ghost use Rattle.pack_defs.specs.Lists.{is_ascending};
    ghost use Rattle.auction_core.specs.ComponentLabels.{ComponentLabelsView};

    ghost Value = { ComponentLabelsView };

    ghost view = { λ p. record { stations = p.stations.items; labels = p.labels.items } };

    ghost invariant = { λ p. IsTrue (is_ascending p.stations.items) × (length p.labels.items ≡ length p.stations.items) };
}

impl ComponentLabels {
    /// Returns labels for these stations, none of them on air.
    ///
    /// # Errors
    ///
    /// Fails only if memory runs out.
    pub fn none(alloc: Global, stations: &[u32]) -> Result<ComponentLabels, NoMemory>
        requires { IsTrue (is_ascending stations.now) }
        ensures stations { IfOk result (λ p. p.stations ≡ stations.now) }
        ensures none { IfOk result (λ p. (s : ℕ) → label_of p s ≡ 0) }
    {
        Ok(ComponentLabels {
            stations: Vec::from_slice(alloc, stations)?,
            labels: zeros(alloc, stations.len())?,
        })
    }

    /// Returns the label of a station, 0 if it is not on air. Binary search.
    pub fn label(&self, station: u32) -> u32
        ensures { result ≡ label_of self.now station }
    {
        label_at(&self.stations, &self.labels, station)
    }

    /// Puts the station on air under this number and merges the components that it interferes with into one with this label.
    /// Allocates nothing. Cost: a binary search for each neighbour of the station, and a pass over all stations for each merged
    /// component.
    pub fn join(&mut self, book: &Book, station: u32, number: u32)
        requires { IsTrue (is_in self.old.stations station) }
        ensures stations { self.new.stations ≡ self.old.stations }
        ensures labels { (z : ℕ) → label_of self.new z ≡ relabelled book.now (labelled self.old) (label_of self.old) station number z }
    {
        self.merge_all(book.neighbours(station), number);
        self.put(station, number);
    }

    /// Returns whether the station interferes with a station on air whose component changed at this time or later. Cost: a binary
    /// search for each neighbour of the station.
    pub fn touches_since(&self, book: &Book, station: u32, time: u32) -> bool
        requires { 0 < time }
        ensures { result ≡ touches_since book.now self.now station time }
    {
        self.any_since(book.neighbours(station), time)
    }

    /// Returns what a test of the station asks about: the station with every station on air in a component that it touches,
    /// ascending; and the channel map restricted to them. No label may be above `most`.
    ///
    /// Cost: a binary search for each neighbour of the station and one pass over the stations. Allocates `most + 1` marks and two
    /// lists as long as the stations.
    ///
    /// # Errors
    ///
    /// Fails only if memory runs out.
    pub(crate) fn touched_stations_on(
        &self,
        alloc: Global,
        book: &Book,
        station: u32,
        most: u32,
        map: &AirMap,
    ) -> Result<(Vec<u32>, ChannelMap), NoMemory>
        requires most { (z : ℕ) → label_of self.now z ≤ most }
        requires stations { map.now.stations ≡ self.now.stations }
        ensures set { IfOk result (λ x. x.0.items ≡ touched_set book.now self.now station) }
        ensures last { IfOk result (λ x. x.1 ≡ restricted map.now.entries (touched_set book.now self.now station)) }
    {
        let mut marks = vec![in alloc; false; most as usize + 1]?;
        self.mark(book.neighbours(station), &mut marks);
        let asked = self.marked_on(alloc, station, &marks, map.channels())?;
        let last = ChannelMap::of(alloc, &asked.entries)?;
        Ok((asked.set, last))
    }

    // Marks the label of each of these stations.
    fn mark(&self, near: &[u32], marks: &mut Vec<bool>)
        requires { (z : ℕ) → label_of self.now z < length marks.old.items }
        ensures { marks.new.items ≡ marked (label_of self.now) near.now marks.old.items }
    {
        for v in near {
            let label = self.label(*v) as usize;
            marks[label] = true;
        }
    }

    // Returns the station and the stations on air whose label is marked, with the channel map entries of those.
    fn marked_on(
        &self,
        alloc: Global,
        station: u32,
        marks: &[bool],
        channels: &[Option<u8>],
    ) -> Result<TestedStations, NoMemory>
        requires marks { (z : ℕ) → label_of self.now z < length marks.now }
        requires channels { length channels.now ≡ length self.now.stations }
        ensures set { IfOk result (λ x. x.set.items ≡ filter (λ z. is_asked station marks.now z (label_of self.now z)) self.now.stations) }
        ensures entries { IfOk result (λ x. x.entries.items ≡ restricted (placed_entries self.now.stations channels.now) x.set.items) }
        ensures ascending { IfOk result (λ x. IsAscending x.entries.items) }
    {
        tested_stations_on(
            alloc,
            &self.stations,
            &self.labels,
            station,
            marks,
            channels,
        )
    }

    // Gives this label to the components of these stations.
    fn merge_all(&mut self, near: &[u32], number: u32)
        ensures stations { self.new.stations ≡ self.old.stations }
        ensures labels { label_of self.new ≡ merged_labels (label_of self.old) near.now number }
    {
        for v in near {
            self.merge(*v, number);
        }
    }

    // Gives this label to the component of a station, if the station is on air.
    fn merge(&mut self, station: u32, number: u32)
        ensures stations { self.new.stations ≡ self.old.stations }
        ensures labels { label_of self.new ≡ merged_label (label_of self.old) station number }
    {
        let label = self.label(station);
        if label == 0 {
            return;
        }
        if label == number {
            return;
        }
        replace_label(&mut self.labels, label, number);
    }

    // Gives this label to the station.
    fn put(&mut self, station: u32, number: u32)
        requires { IsTrue (is_in self.old.stations station) }
        ensures stations { self.new.stations ≡ self.old.stations }
        ensures labels { (z : ℕ) → label_of self.new z ≡ (if z == station then number else label_of self.old z) }
    {
        let Some(place) = place_of(&self.stations, station) else {
            unreachable!()
        };
        self.labels[place] = number;
    }

    // Whether one of these stations has a label of at least `time`.
    fn any_since(&self, near: &[u32], time: u32) -> bool
        ensures { result ≡ list_any (λ v. nat_le time (label_of self.now v)) near.now }
    {
        for v in near {
            if time <= self.label(*v) {
                return true;
            }
        }
        false
    }
}

// Returns this many zeros.
fn zeros(alloc: Global, places: usize) -> Result<Vec<u32>, NoMemory>
    ensures length { IfOk result (λ labels. length labels.items ≡ places) }
    ensures none { IfOk result (λ labels. (fs : List ℕ) (s : ℕ) → label_in fs labels.items s ≡ 0) }
{
    let mut labels = Vec::with_capacity(alloc, places)?;
    for _ in 0..places {
        labels.push(0)?;
    }
    Ok(labels)
}

// Returns the label in a station's slot, 0 if the station has no slot.
fn label_at(stations: &[u32], labels: &[u32], station: u32) -> u32
    requires ascending { IsTrue (is_ascending stations.now) }
    requires places { length labels.now ≡ length stations.now }
    ensures { result ≡ label_in stations.now labels.now station }
{
    let Some(place) = place_of(stations, station) else {
        return 0;
    };
    labels[place]
}

// What a test asks about: its stations, ascending, and the entries of those that have a channel.
#[derive(Drop)]
struct TestedStations {
    set: Vec<u32>,
    entries: Vec<(u32, u8)>,
}

// Returns this station and the stations whose label is marked, with the entries of those that have a channel, in one pass over the
// slots.
fn tested_stations_on(
    alloc: Global,
    stations: &[u32],
    labels: &[u32],
    station: u32,
    marks: &[bool],
    channels: &[Option<u8>],
) -> Result<TestedStations, NoMemory>
    requires ascending { IsTrue (is_ascending stations.now) }
    requires places { length labels.now ≡ length stations.now }
    requires marks { (z : ℕ) → label_in stations.now labels.now z < length marks.now }
    requires channels { length channels.now ≡ length stations.now }
    ensures set { IfOk result (λ x. x.set.items ≡ filter (λ z. is_asked station marks.now z (label_in stations.now labels.now z)) stations.now) }
    ensures entries { IfOk result (λ x. x.entries.items ≡ restricted (placed_entries stations.now channels.now) x.set.items) }
    ensures ascending { IfOk result (λ x. IsAscending x.entries.items) }
{
    let mut set = Vec::with_capacity(alloc, stations.len())?;
    let mut entries = Vec::with_capacity(alloc, stations.len())?;
    for (place, z) in stations.iter().enumerate() {
        if !is_asked(station, marks, *z, labels[place]) {
            continue;
        }
        set.push(*z)?;
        let Some(channel) = channels[place] else {
            continue;
        };
        entries.push((*z, channel))?;
    }
    Ok(TestedStations { set, entries })
}

// Whether a test of `station` asks about `z`, whose label is `label`: `z` is the station itself, or is on air and its label is
// marked.
fn is_asked(station: u32, marks: &[bool], z: u32, label: u32) -> bool
    requires { label < length marks.now }
    ensures { result ≡ is_asked station marks.now z label }
{
    z == station || (label != 0 && marks[label as usize])
}

// Replaces each label `old` by `new`.
fn replace_label(labels: &mut Vec<u32>, old: u32, new: u32)
    ensures { labels.new.items ≡ map (λ x. replaced_label old new x) labels.old.items }
{
    for i in 0..labels.len() {
        labels[i] = replaced_label(labels[i], old, new);
    }
}

// Returns `new` if the label is `old`, and otherwise the label itself.
fn replaced_label(x: u32, old: u32, new: u32) -> u32
    ensures { result ≡ replaced_label old new x }
{
    if x == old { new } else { x }
}
