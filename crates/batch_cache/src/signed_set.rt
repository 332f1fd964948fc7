//! A list of stations with a fast test whether it contains another one. A signature of 1,024 bits rejects most sets
//! at once, and the last missing station rejects most of the others.

ghost use Rattle.std.specs.Prelude.{◌≡◌, IfOk, nat_eq};
ghost use Rattle.std.specs.List.{list_all};
ghost use Rattle.std.specs.Hash as fed;
ghost use Rattle.std.specs.Cmp.{partial_equiv_from_equiv};
ghost use Rattle.std.specs.Cmp.Lexicographic.{nat_list_eq_equiv, pointwise};
ghost use Rattle.std.specs.Cmp.Rules.{hashing};
ghost use Rattle.std.proofs.Common.{rules};
ghost use Rattle.pack_defs.specs.Lists.{is_in};
ghost use Rattle.batch_cache.specs.Numbers.{lacks_at};

use crate::numbers::{are_few, has_all_sorted, is_in_by_gap, is_in_from_cursor};
use crate::station_bits::{StationBits, are_covered, station_bits};
use crate::witness::Witness;
use cert_types::subset::ascends;
use pack_defs::numbers::is_in;
use std::alloc::{AllocError as NoMemory, Global};
use std::hash::{Hash, Hasher};
use std::marker::Model;

/// Some stations in their given order, with their bits. Two sets are equal if their lists are.
#[derive(Drop)]
pub struct SignedSet {
    stations: Vec<u32>,
    // Whether the stations ascend, as those of every task do; then a look-up is a binary search.
    ascends: bool,
    bits: StationBits,
}

impl Model for SignedSet {
    ghost use Rattle.std.specs.Prelude.{◌≡◌, List, ℕ};
    ghost use Rattle.pack_defs.specs.Lists.{is_ascending};
    ghost use Rattle.batch_cache.specs.StationBits.{station_bits};

    ghost Value = { List ℕ };

    ghost view = { λ s. s.stations.items };

    ghost invariant = { λ s. (s.ascends ≡ is_ascending s.stations.items) × (s.bits ≡ station_bits s.stations.items) };
}

impl PartialEq for SignedSet {
    ghost eq = { pointwise nat_eq };

    ghost laws = { partial_equiv_from_equiv nat_list_eq_equiv };

    fn eq(&self, other: &SignedSet) -> bool {
        self.stations == other.stations
    }
}

impl Eq for SignedSet {
    ghost laws = { nat_list_eq_equiv };
}

impl Hash for SignedSet {
    ghost hash_input = { fed.slice fed.u32 };

    ghost respects_eq = { Prim.search (hashing, rules) };

    fn hash<H: Hasher>(&self, state: &mut H) {
        self.stations.hash(state);
    }
}

impl SignedSet {
    /// Returns the set of these stations. Fails only if memory runs out.
    pub fn of(alloc: Global, stations: &[u32]) -> Result<SignedSet, NoMemory>
        ensures { IfOk result (λ set. set ≡ stations.now) }
    {
        Ok(SignedSet {
            stations: Vec::from_slice(alloc, stations)?,
            ascends: ascends(stations),
            bits: station_bits(stations),
        })
    }

    /// Returns a copy of the set. Fails only if memory runs out.
    pub fn copied(&self, alloc: Global) -> Result<SignedSet, NoMemory>
        ensures { IfOk result (λ set. set ≡ self.now) }
    {
        Ok(SignedSet {
            stations: Vec::from_slice(alloc, &self.stations)?,
            ascends: self.ascends,
            bits: self.bits,
        })
    }

    /// Returns the stations.
    pub fn stations(&self) -> &[u32]
        ensures { result.now ≡ self.now }
    {
        &self.stations
    }

    /// Whether the set has the station.
    pub fn has(&self, station: u32) -> bool
        ensures { result ≡ is_in self.now station }
    {
        if self.ascends {
            return is_in(&self.stations, station);
        }
        self.stations.contains(&station)
    }

    /// Whether the set has the station, for stations that are asked for in ascending order. `next` is the place where
    /// to continue.
    pub(crate) fn has_next(&self, station: u32, next: &mut usize) -> bool
        ensures { result ≡ is_in self.now station }
    {
        if self.ascends {
            return is_in_from_cursor(&self.stations, station, next);
        }
        self.stations.contains(&station)
    }

    /// Whether the set has each station of the other one. Mostly the bits reject the set at once, or the witness
    /// does; only then are the stations compared. A station that the set lacks becomes the witness.
    pub(crate) fn holds(&self, others: &SignedSet, witness: &mut Witness) -> bool
        ensures { result ≡ list_all (is_in self.now) others.now }
    {
        if !are_covered(&self.bits, &others.bits) {
            return false;
        }
        self.has_all_covered(others, witness)
    }

    // The rest of `holds`, if the bits do not decide. It is a function of its own so that the common case does not
    // pay for its stack frame.
    #[inline(never)]
    fn has_all_covered(&self, others: &SignedSet, witness: &mut Witness) -> bool
        ensures { result ≡ list_all (is_in self.now) others.now }
    {
        if self.lacks(others, witness) {
            return false;
        }
        self.has_all(others, witness)
    }

    // Whether the set lacks the witness, if that is a station of the other one.
    fn lacks(&self, others: &SignedSet, witness: &mut Witness) -> bool
        ensures { result ≡ lacks_at self.now others.now witness.old.place }
    {
        let Some(station) = others.stations.get(witness.place) else {
            return false;
        };
        !self.has_by_gap(*station, &mut witness.gap)
    }

    // Whether the set has the station. If the set ascends, looks at the gap first.
    fn has_by_gap(&self, station: u32, gap: &mut usize) -> bool
        ensures { result ≡ is_in self.now station }
    {
        if self.ascends {
            return is_in_by_gap(&self.stations, station, gap);
        }
        self.stations.contains(&station)
    }

    // Whether the set has each station of the other one. If both ascend, this is a walk along both, unless the other
    // one has only a few.
    fn has_all(&self, others: &SignedSet, witness: &mut Witness) -> bool
        ensures { result ≡ list_all (is_in self.now) others.now }
    {
        if !self.ascends || !others.ascends {
            return self.has_each(&others.stations, &mut witness.place);
        }
        if are_few(others.stations.len(), self.stations.len()) {
            return self.has_each(&others.stations, &mut witness.place);
        }
        has_all_sorted(&self.stations, &others.stations, &mut witness.place)
    }

    // Whether the set has each of these stations, each looked up by itself. Leaves the place of a missing one in
    // `missing`.
    fn has_each(&self, stations: &[u32], missing: &mut usize) -> bool
        ensures { result ≡ list_all (is_in self.now) stations.now }
    {
        for place in 0..stations.len() {
            if !self.has(stations[place]) {
                *missing = place;
                return false;
            }
        }
        true
    }
}
