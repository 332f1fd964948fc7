//! A query, as the auction asks it of the workers.

use pack_defs::channel_map::ChannelMap;
use pack_defs::items::Items;

/// A query: is there a channel map of exactly this set that violates no pair of the book?
#[derive(Debug, Drop)]
pub struct Task {
    /// The number of the query, from 1.
    pub number: u64,
    /// The round of the clock, or 0 for the test of the stations that start on air.
    pub round: u32,
    /// The tested station, or `None` for the test of the start.
    pub station: Option<u32>,
    /// The stations that must get channels, ascending.
    pub set: Items<u32>,
    /// The auction's channel map, restricted to the set.
    pub last: ChannelMap,
}
