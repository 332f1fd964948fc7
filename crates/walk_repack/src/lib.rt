//! A local search for packing tests. It walks over channel maps, and moves one station of a violated pair at a time. It ends when no
//! pair is violated or its budget of moves is spent.
//!
//! The search keeps every station on air and minimises violated pairs. A station may not return to a channel for some moves after
//! leaving it, as in TabuCol (Hertz and de Werra 1987). Local search for station repacking is also used
//! by SATFC (Newman, Fréchette, Leyton-Brown 2017).
//!
//! The crate may call `assign_check`, `cert_types`, and what that depends on; no check of answers ever calls it. In reading order:
//!
//! - `walk`: the solver as other crates see it.
//! - `steps`: the loop of the walk.
//! - `walk_state`, `map_status`, `pick`: the verified state, and which violated pair and station come next.
//! - `answers`: from the end of a walk to an answer.
//! - `policy`, `guide`, `tables`, `violating_stations`, `places`, `tabu_memory`, `chance`: policy, which no proof depends on.
#![tactic(auto)]

mod answers;
mod chance;
mod guide;
mod map_status;
mod pick;
mod places;
mod policy;
mod steps;
mod tables;
mod tabu_memory;
mod violating_stations;
pub mod walk;
mod walk_state;
