//! A set of stations, however it is stored.

ghost use Rattle.std.specs.Prelude.{◌≡◌, ℕ, List, IsTrue};
ghost use Rattle.pack_defs.specs.Lists.{is_ascending, is_in};

/// A set of stations that can be asked for one station at a time.
pub trait StationSet {
    /// The stations of the set.
    ghost stations: { Self → List ℕ };

    /// Checks whether the set has the station. Allocates nothing.
    fn has(&self, station: u32) -> bool
        ensures { result ≡ is_in (stations self.now) station };
}

/// The stations of an ascending list, found by binary search.
#[derive(Clone, Copy, Drop)]
pub(crate) struct ListedStations<'a> {
    pub(crate) list: &'a [u32],
    pub(crate) ghost ascending: { IsTrue (is_ascending list.now) },
}

impl<'a> StationSet for ListedStations<'a> {
    ghost stations = { λ set. set.list.now };

    fn has(&self, station: u32) -> bool {
        self.list.binary_search(&station).is_ok()
    }
}
