//! The stations on air, as a `StationSet`, for the search of the stations that a test reaches.

ghost use Rattle.std.specs.Prelude.{◌≡◌, IsTrue, length, map};
ghost use Rattle.pack_defs.specs.Lists.{is_ascending};
ghost use Rattle.auction_core.specs.Clock.{on_air_by};

use auction_core::clock::StationStatus;
use pack_defs::station::Station;
use packing_graph::station_set::StationSet;

/// The stations of a list that are on air. A look-up costs a binary search.
#[derive(Clone, Copy, Drop)]
pub struct OnAir<'a> {
    /// The stations, ascending.
    pub stations: &'a [Station],
    /// The standing of each station, in the same order.
    pub station_statuses: &'a [StationStatus],
    pub ghost ascending: { IsTrue (is_ascending (map (λ x. x.id) stations.now)) },
    pub ghost each: { length station_statuses.now ≡ length stations.now },
}

impl<'a> StationSet for OnAir<'a> {
    ghost stations = { λ set. on_air_by (map (λ x. x.id) set.stations.now) set.station_statuses.now };

    fn has(&self, station: u32) -> bool {
        match self.stations.binary_search_by_key(&station, |x| x.id) {
            Ok(i) => self.station_statuses[i].is_on_air(),
            Err(_) => false,
        }
    }
}
