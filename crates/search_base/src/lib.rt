//! What the searches stand on: a book as numbers, and the choices that a conflict-driven search makes.
//!
//! Nothing here claims anything of an answer, so nothing but safety is proved. `cdcl_prove`, `incremental_search` and `local_search`
//! call it. In reading order:
//!
//! - `grid`: a book as numbers.
//! - `order`, `tie_breaking`: which variable is decided next.
//! - `restarts`: when a search restarts.
//! - `checked_access`: reads and writes at places that may be past the end.
#![tactic(auto)]

pub mod checked_access;
pub mod grid;
pub mod order;
pub mod restarts;
pub mod tie_breaking;
