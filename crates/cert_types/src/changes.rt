//! The quick check of a fit, by the stations whose channels it changes. `certify_query` tries this check first.

ghost use Rattle.std.specs.Prelude.{◌≡◌, ◌&&◌, is_none};
ghost use Rattle.cert_types.specs.Query.{IsQuery, is_named};
ghost use Rattle.cert_types.specs.Valid.{fit_fault};

use crate::query::is_on_domains;
use crate::task::Task;
use assign_check::changes::violates_at_some;
use pack_defs::book::Book;
use pack_defs::channel_map::ChannelMap;

/// Checks whether a fit of a query names the tested station and is valid. Only the stations that the fit changes are visited. Each
/// must be of the set and on its domain, and no pair of theirs may have both entries in the new map. This suffices: the last map
/// violates no pair and has every other station. Costs as much as the pairs of the changed stations, and takes no memory.
#[tactic(auto, using(crate::proofs::ChangeLemmas::by_changes))]
pub fn fits_by_changes(book: &Book, task: &Task, delta: &ChannelMap) -> bool
    requires { IsQuery book.now task.now }
    ensures { result ≡ (is_named task.now.station delta.now && is_none (fit_fault book.now task.now delta.now)) }
{
    if !is_named(task.station, delta) {
        return false;
    }
    if !is_on_domains(book, task.set.as_slice(), delta.entries()) {
        return false;
    }
    !violates_at_some(book, &task.last, delta)
}

// Whether the map has the tested station.
fn is_named(tested: Option<u32>, map: &ChannelMap) -> bool
    ensures { result ≡ is_named tested map.now }
{
    match tested {
        Some(s) => map.get(s).is_some(),
        None => false,
    }
}
