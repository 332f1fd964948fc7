//! The book of a scenario's stations, from the domains and the pairs of the constraint files.
ghost use Rattle.std.specs.Prelude.{◌≡◌, IfOk, map};
ghost use Rattle.pack_defs.specs.Scenario.{IsWithinLimits};
ghost use Rattle.scenario_json.specs.Join.{Joins, first_missing, joined};
ghost use Rattle.scenario_json.specs.declared.join.JoinErr.TheVariants.{NoMemory};

use constraint_files::domains::Domains;
use constraint_files::pairs::Pairs;
use pack_defs::book::Book;
use pack_defs::scenario::Scenario;
use pack_defs::station::Station;
use std::alloc::{AllocError, Global};
use thiserror::Error;

/// Why there is no book.
#[derive(Clone, Copy, Debug, PartialEq, Eq, Error)]
pub enum JoinErr {
    /// The least station of the scenario that has no row in the domain file.
    #[error("no domain for station {0}")]
    MissingDomain(u32),
    /// Memory ran out.
    #[error("out of memory")]
    NoMemory,
}

impl From<AllocError> for JoinErr {
    ghost from_gives = { λ _ e. e ≡ NoMemory };

    fn from(_error: AllocError) -> JoinErr {
        JoinErr::NoMemory
    }
}

/// Returns the book of the scenario's stations: their channels from 14 up to its top channel, and the pairs with both entries on
/// these. Takes time roughly proportional to the number of stations and pairs.
///
/// # Errors
///
/// `MissingDomain` with the least station of the scenario that has no domain, or `NoMemory`.
#[tactic(auto, unfolding(crate::specs::Join::joined))]
pub fn join(alloc: Global, sc: &Scenario, domains: &Domains, pairs: &Pairs) -> Result<Book, JoinErr>
    requires { IsWithinLimits sc.now }
    ensures { Joins (joined sc.now domains.now pairs.now.list) result }
{
    let ids = ids_of(alloc, sc.stations.as_slice())?;
    if let Some(station) = first_missing(&ids, domains) {
        return Err(JoinErr::MissingDomain(station));
    }
    Ok(Book::build(alloc, sc.top, &ids, domains.list(), pairs.list())?)
}

// Returns the ids of the stations.
fn ids_of(alloc: Global, stations: &[Station]) -> Result<Vec<u32>, AllocError>
    ensures { IfOk result (λ v. v.items ≡ map (λ x. x.id) stations.now) }
{
    stations.iter().map(|station| station.id).collect(alloc)
}

// Returns the first of the stations that has no domain.
fn first_missing(ids: &[u32], domains: &Domains) -> Option<u32>
    ensures { result ≡ first_missing ids.now domains.now }
{
    ids.iter().copied().find(|id| domains.domain(*id).is_none())
}
