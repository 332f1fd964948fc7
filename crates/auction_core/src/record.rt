//! The record of an auction that has ended: its tests, and how each was settled. `query_session` makes one; `commands` prints
//! it and stores its result and transcript.

ghost use Rattle.std.specs.Prelude.{◌≡◌};
ghost use Rattle.auction_core.specs.State.{shows_room};
ghost use Rattle.auction_core.specs.Backed.{ending_of};

use cert_types::answer::{Receipt, Refutation};
use cert_types::outside::OutsideProof;
use pack_defs::channel_map::ChannelMap;
use pack_defs::items::Items;
use pack_defs::order::Order;
use pack_defs::owners::Owners;
use pack_defs::scenario::Scenario;

/// How a test was settled, with its certificate where it has one.
#[derive(Debug, Drop)]
pub enum Shown {
    /// The start set is empty.
    Empty,
    /// By channels: put over the map before, they give a clean channel map of the test's set.
    Fits(ChannelMap),
    /// By the test of the same station one round before, which fits and asked about the same stations.
    Same,
    /// By a station of the set that has no channel.
    NoChannel(u32),
    /// By a worker's refutation: a proof that the test's set does not fit, or a pair of two of its stations, with one channel each,
    /// that interfere.
    Refuted { worker: u32, how: Refutation },
    /// By a proof from outside that the test's set does not fit. No posting makes one; it replaces an undecided verdict.
    Outside(OutsideProof),
    /// By a receipt of every worker, in order of worker, that the worker spent its budget on the test.
    Undecided(Items<Receipt>),
}

impl Shown {
    /// Returns whether the test's set was shown to fit.
    pub fn shows_room(&self) -> bool
        ensures { result ≡ shows_room self.now }
    {
        match self {
            Shown::Empty | Shown::Fits(_) | Shown::Same => true,
            Shown::NoChannel(_) | Shown::Refuted { .. } | Shown::Outside(_) => false,
            Shown::Undecided(_) => false,
        }
    }

    /// Returns how an auction ends if its start test was settled this way.
    pub fn ending(&self) -> Ending
        ensures { result ≡ ending_of self.now }
    {
        match self {
            Shown::Empty | Shown::Fits(_) | Shown::Same => Ending::Done,
            Shown::NoChannel(_) | Shown::Refuted { .. } | Shown::Outside(_) => Ending::StartRefuted,
            Shown::Undecided(_) => Ending::StartUndecided,
        }
    }
}

/// A test of the clock, and how it was settled.
#[derive(Debug, Drop)]
pub struct Step {
    /// The round, from 1.
    pub round: u32,
    /// The station, by its facility number.
    pub station: u32,
    pub shown: Shown,
}

/// How an auction ended.
#[derive(Clone, Copy, Debug, PartialEq, Eq)]
pub enum Ending {
    /// Every test was settled.
    Done,
    /// The start set does not fit, so there is no auction.
    StartRefuted,
    /// Every worker spent its budget on the start set, so there is no auction.
    StartUndecided,
}

/// The record of an auction that has ended. The scenario of a live auction contains the owners' answers.
#[derive(Debug, Drop)]
pub struct Record {
    pub scenario: Scenario,
    /// The order in which the stations of a round were tested.
    pub order: Order,
    pub ending: Ending,
    /// How the start test was settled.
    pub start: Shown,
    /// The tests that the clock rule asked, in order.
    pub steps: Items<Step>,
    /// A channel for each station on air; empty if the auction ended at its start.
    pub map: ChannelMap,
    /// What the frozen stations are paid together, in cents.
    pub total: u64,
}

impl Record {
    /// Returns the owners' answers of a live auction; `None` if the stations' values decided.
    pub fn owners(&self) -> &Option<Owners>
        ensures { result.now ≡ self.now.scenario.owners }
    {
        &self.scenario.owners
    }
}
