//! What the searcher suggests. Nothing of a suggestion is proved.

use crate::engine::Engine;
use pack_defs::channel_map::ChannelMap;
use rup_check::line::Log;
use std::alloc::{AllocError as NoMemory, Global};

/// An answer to a query, which is still to be checked.
#[derive(Debug, Drop)]
pub enum Suggestion {
    /// The channels that turn the last map into a map of the query's set.
    Fit(ChannelMap),
    /// Some stations of the set do not fit.
    Unfit(Disproof),
    /// The effort is spent: as many fresh lines as the effort, over the packing formula of the set.
    Spent(Log),
}

/// Stations that do not fit, ascending, with a log over their packing formula whose last line is empty.
#[derive(Debug, Drop)]
pub struct Disproof {
    pub stations: Vec<u32>,
    pub log: Log,
}

impl Disproof {
    /// Returns the disproof that the engine gathered last.
    pub(crate) fn of_cone(alloc: Global, engine: &Engine) -> Result<Disproof, NoMemory> {
        let stations = engine.named(alloc)?;
        let log = engine.log(alloc)?;
        Ok(Disproof { stations, log })
    }
}
