//! A local search for channel maps. It suggests changes of a map that let one more station on air, and claims nothing.
//!
//! The map over part of the stations is always clean. A station without a channel takes the one where the stations in its way weigh
//! least. These lose their channels and weigh one more from then on, and for a few moves they may not return. Partial solutions whose
//! parts push each other out are those of PartialCol (Blöchliger and Zufferey 2008). Weights that grow with each loss are those of
//! the breakout method (Morris 1993).
//!
//! The crate may call `search_base`. Only `incremental_search` calls it. In reading order:
//!
//! - `local_search`: the search.
//! - `unplaced`: the stations without a channel.
//! - `policy`: the numbers of the search, none of which a proof depends on.
#![tactic(auto)]

pub mod local_search;
mod policy;
mod unplaced;
