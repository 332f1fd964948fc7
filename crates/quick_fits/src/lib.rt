//! Quick fits: fits of a query that need no search.
//!
//! The crate may call `assign_check` and `cert_types`. `cdcl_prove` and `race_wave` call it, and no check does. In reading order:
//!
//! - `quick_fits`: the quick fits of a query, in order, each checked before it is returned.
//! - the module of repairs: a free channel for the tested station, or one that another station can leave.
//! - `obstacles`: what blocks a station on each channel.
#![tactic(auto)]

mod local_repair;
mod obstacles;
pub mod quick_fits;
