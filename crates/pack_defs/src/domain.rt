//! The channels of one station.

ghost use Rattle.std.specs.Prelude.{◌≡◌, IfOk};

use crate::items::Items;
use std::alloc::{AllocError as NoMemory, Global};

/// A station and the channels that it may use, ascending.
#[derive(Debug, Drop)]
pub struct Domain {
    pub station: u32,
    pub channels: Items<u8>,
}

impl Domain {
    /// Returns a copy of the domain.
    ///
    /// # Errors
    /// Fails only if memory runs out.
    pub fn copy(&self, alloc: Global) -> Result<Domain, NoMemory>
        ensures { IfOk result (λ domain. domain ≡ self.now) }
    {
        Ok(Domain {
            station: self.station,
            channels: Items::from_vec(Vec::from_slice(alloc, self.channels.as_slice())?),
        })
    }
}
