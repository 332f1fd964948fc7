//! The state of the plain clock: who is on air, who is frozen, and who is still asked.

ghost use Rattle.std.specs.Prelude.{◌≡◌, ◌==◌, [], IfOk};
ghost use Rattle.pack_defs.specs.ClockRule.{goes_on_air, is_active, is_frozen, is_on_air};
ghost use Rattle.threshold_laws.specs.Clock.{freezes_at};

use std::alloc::{AllocError as NoMemory, Global};
use std::marker::Model;

/// A station on air, and the round in which it went on air; 0 for the start.
#[derive(Debug, Drop)]
pub(crate) struct OnAirStation {
    pub(crate) station: u32,
    pub(crate) round: usize,
}

impl Model for OnAirStation {
    ghost use Rattle.pack_defs.specs.ClockRule.{OnAirSince};

    ghost Value = { OnAirSince };

    ghost view = { λ x. record { station = x.station; round = x.round } };
}

impl OnAirStation {
    // Checks whether the entry is of this station.
    fn is_of(&self, station: u32) -> bool
        ensures { result ≡ (self.now.station == station) }
    {
        self.station == station
    }
}

/// A bought station, the round in which it was frozen, and its payment in cents.
#[derive(Debug, Drop)]
pub(crate) struct Bought {
    station: u32,
    round: usize,
    price: u64,
}

impl Model for Bought {
    ghost use Rattle.pack_defs.specs.ClockRule.{FrozenAt};

    ghost Value = { FrozenAt };

    ghost view = { λ x. record { station = x.station; round = x.round; price = x.price } };
}

impl Bought {
    // Checks whether the entry is of this station.
    fn is_of(&self, station: u32) -> bool
        ensures { result ≡ (self.now.station == station) }
    {
        self.station == station
    }
}

/// The state of the clock between two tests, in three plain lists.
#[derive(Debug, Drop)]
pub(crate) struct PlainClock {
    on_air: Vec<OnAirStation>,
    frozen: Vec<Bought>,
    active: Vec<u32>,
}

impl Model for PlainClock {
    ghost use Rattle.pack_defs.specs.ClockRule.{ClockState};

    ghost Value = { ClockState };

    ghost view = { λ c. record { on_air = c.on_air.items; frozen = c.frozen.items; active = c.active.items } };
}

impl PlainClock {
    /// Returns the clock before its first round, with these stations on air and these active.
    pub(crate) fn open(alloc: Global, on_air: Vec<OnAirStation>, active: Vec<u32>) -> PlainClock
        ensures { result ≡ record { on_air = on_air.items; frozen = []; active = active.items } }
    {
        PlainClock {
            on_air,
            frozen: Vec::new(alloc),
            active,
        }
    }

    /// Checks whether the station is still asked.
    pub(crate) fn is_active(&self, station: u32) -> bool
        ensures { result ≡ is_active self.now station }
    {
        self.active.iter().any(|x| *x == station)
    }

    /// Checks whether the station is on air.
    pub(crate) fn is_on_air(&self, station: u32) -> bool
        ensures { result ≡ is_on_air self.now station }
    {
        self.on_air.iter().any(|x| x.is_of(station))
    }

    /// Checks whether the station is frozen.
    pub(crate) fn is_frozen(&self, station: u32) -> bool
        ensures { result ≡ is_frozen self.now station }
    {
        self.frozen.iter().any(|x| x.is_of(station))
    }

    /// Puts the station on air in this round.
    ///
    /// # Errors
    /// Fails only if memory runs out.
    pub(crate) fn put_on_air(&mut self, station: u32, round: usize) -> Result<(), NoMemory>
        ensures { IfOk result (λ _. self.new ≡ goes_on_air self.old (record { round = round; station = station })) }
    {
        self.on_air.push(OnAirStation { station, round })?;
        self.active.retain(|x| *x != station);
        Ok(())
    }

    /// Freezes the station in this round, at this price in cents.
    ///
    /// # Errors
    /// Fails only if memory runs out.
    pub(crate) fn freeze(&mut self, station: u32, round: usize, price: u64) -> Result<(), NoMemory>
        ensures { IfOk result (λ _. self.new ≡ freezes_at self.old (record { station = station; round = round; price = price })) }
    {
        self.frozen.push(Bought {
            station,
            round,
            price,
        })?;
        self.active.retain(|x| *x != station);
        Ok(())
    }
}
