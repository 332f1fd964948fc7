//! Finds the place of a station in a scenario's station list. `undecided_tests`, `result_text` and `transcript_text` call it.

ghost use Rattle.std.specs.Prelude.{◌≡◌, ◌<◌, IsFalse, MatchOption, length, map, slice_index};
ghost use Rattle.std.specs.List.Sorted.{IsStrictlyIncreasing};
ghost use Rattle.pack_defs.specs.Lists.{is_in};

use pack_defs::station::Station;

/// Returns the place of the station with this facility number, or `None` if the list has no such station. The list must ascend by
/// number. Binary search; allocates nothing.
pub fn place_of(stations: &[Station], station: u32) -> Option<usize>
    requires { IsStrictlyIncreasing (map (λ x. x.id) stations.now) }
    ensures { MatchOption result (IsFalse (is_in (map (λ x. x.id) stations.now) station))
        (λ i. (i < length stations.now) × (slice_index (map (λ x. x.id) stations.now) i ≡ station)) }
{
    stations.binary_search_by_key(&station, |x| x.id).ok()
}
