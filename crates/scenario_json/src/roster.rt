//! The stations read so far. The reader rejects a repeated id and returns the stations ascending.

ghost use Rattle.std.specs.Prelude.{◌≡◌, [], IfOk, OnOk, IsFalse};
ghost use Rattle.scenario_json.specs.ScenarioOf.{has_id, placed};

use pack_defs::station::Station;
use std::alloc::{AllocError as NoMemory, Global};
use std::collections::BTreeMap;
use std::marker::Model;

/// The stations read so far, ascending by id.
#[derive(Drop)]
pub(crate) struct Roster {
    by_id: BTreeMap<u32, Station>,
}

impl Model for Roster {
    ghost use Rattle.std.specs.Prelude.{◌≡◌, List, map};
    ghost use Rattle.std.specs.BTreeMap.{values};
    ghost use Rattle.pack_defs.specs.declared.station.Station.{Station};

    ghost Value = { List Station };

    ghost view = { λ s. values s.by_id };

    ghost invariant = { λ s. s.by_id.entries ≡ map (λ x. (x.id, x)) (values s.by_id) };
}

impl Roster {
    /// Returns no stations.
    pub(crate) fn new(alloc: Global) -> Roster
        ensures { result ≡ [] }
    {
        Roster {
            by_id: BTreeMap::new(alloc),
        }
    }

    /// Checks whether a station has this id.
    pub(crate) fn has(&self, id: u32) -> bool
        ensures { result ≡ has_id self.now id }
    {
        self.by_id.contains_key(&id)
    }

    /// Adds a station with a new id. Fails only if memory runs out.
    pub(crate) fn place(&mut self, station: Station) -> Result<(), NoMemory>
        requires { IsFalse (has_id self.old station.id) }
        ensures { OnOk result (self.new ≡ placed station self.old) }
    {
        self.by_id.insert(station.id, station)?;
        Ok(())
    }

    /// Returns the stations. Fails only if memory runs out.
    pub(crate) fn into_stations(self, alloc: Global) -> Result<Vec<Station>, NoMemory>
        ensures { IfOk result (λ v. v.items ≡ self) }
    {
        self.by_id.into_values().collect(alloc)
    }
}
