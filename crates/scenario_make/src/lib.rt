//! A generator of large auctions: the three files of an auction, from a seed and a size. The same seed and size always give the
//! same files, on every machine.
//!
//! Stations 1 to the size are in blocks of 16, the last one cut off at the size. Stations of different blocks never interfere, so a
//! question about one station concerns at most 16. Random words are those of PCG32 with the seed and stream 0, one for each draw:
//!
//! 1. For each station in order its volume, from 1 to 1,000, and then its value, from 0 to 100 times its volume.
//! 2. For each station in order one draw for each later station of its block: do the two interfere on the same channel? Then,
//!    unless the station is the last of its block, one more: does it interfere with the next station on adjacent channels?
//!
//! The price opens at 100, so no station has a value above its opening offer, and none is on air at the start.
//!
//! This crate may call `scenario_json` and the crates below it. `commands` alone calls it, and no reader knows it. The modules in
//! reading order:
//!
//! - `make`: the three files.
//! - `stations`: the draws of the stations.
//! - `rows`: the draws of the interference, and the row file.
//! - `draws`: one draw.
//! - `lines`: one line of a constraint file.
//! - `limits`: the greatest size.
//! - `laws`: the generated files are accepted.
#![tactic(auto)]

mod draws;
pub mod laws;
pub mod limits;
mod lines;
pub mod make;
mod rows;
mod stations;
