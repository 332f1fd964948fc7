//! Why a scenario is rejected.

ghost use Rattle.std.specs.Prelude.{◌≡◌};
ghost use Rattle.scenario_json.specs.declared.error.ScenarioErr.TheVariants.{NoMemory};

use crate::name::Name;
use std::alloc::{AllocError, AllocFailed};
use thiserror::Error;

/// Why there is no scenario: the first that holds, in the order of reading.
///
/// - `Syntax`: the bytes are not a JSON text.
/// - `MissingField`: the member is missing.
/// - `WrongKind`: the member, or an item of the list of this name, has the wrong JSON type.
/// - `OutOfLimit`: the type is right, but the value is outside its limits, or the list has too few or too many items.
/// - `RepeatedStation`: an earlier station has this id.
/// - `SumOverOpening`: the sum of the decrements is above the opening price.
/// - `NoProver`: no worker is of kind "cdcl".
/// - `NoMemory`: memory ran out.
///
/// `at` is the place of the item, station or worker in its list, from 1. It is 0 for the scenario, for its members, and for a list
/// itself.
#[derive(Clone, Copy, Debug, PartialEq, Eq, Error)]
pub enum ScenarioErr {
    #[error("not JSON")]
    Syntax,
    #[error("missing {name} at {at}")]
    MissingField { name: Name, at: u64 },
    #[error("wrong kind {name} at {at}")]
    WrongKind { name: Name, at: u64 },
    #[error("out of limit {name} at {at}")]
    OutOfLimit { name: Name, at: u64 },
    #[error("repeated station {0}")]
    RepeatedStation(u32),
    #[error("decrements exceed the opening")]
    SumOverOpening,
    #[error("no cdcl worker")]
    NoProver,
    #[error("out of memory")]
    NoMemory,
}

impl From<AllocError> for ScenarioErr {
    ghost from_gives = { λ _ e. e ≡ NoMemory };

    fn from(_error: AllocError) -> ScenarioErr {
        ScenarioErr::NoMemory
    }
}

impl<T: Drop> From<AllocFailed<T>> for ScenarioErr {
    ghost from_gives = { λ _ e. e ≡ NoMemory };

    fn from(_error: AllocFailed<T>) -> ScenarioErr {
        ScenarioErr::NoMemory
    }
}
