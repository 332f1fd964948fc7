//! A refutation in the cache.

ghost use Rattle.std.specs.Prelude.{◌≡◌, IfOk};
ghost use Rattle.pack_defs.specs.Scenario.{learns};
ghost use Rattle.batch_cache.specs.KeptRefutation.{learns_within, may_answer, may_be_of, named_stations};

use crate::copies::copy_of;
use crate::signed_set::SignedSet;
use crate::witness::Witness;
use cert_types::answer::Refutation;
use pack_defs::worker::{Kind, Worker};
use rup_check::line::Log;
use std::alloc::{AllocError as NoMemory, Global};
use std::marker::Model;

/// A refutation with the stations that it names. A set that it refutes contains them.
#[derive(Drop)]
pub struct KeptRefutation {
    stations: SignedSet,
    refutation: Refutation,
}

impl Model for KeptRefutation {
    ghost use Rattle.std.specs.Prelude.{◌≡◌};
    ghost use Rattle.cert_types.specs.declared.answer.Refutation.{Refutation};
    ghost use Rattle.batch_cache.specs.KeptRefutation.{named_stations};

    ghost Value = { Refutation };

    ghost view = { λ k. k.refutation };

    ghost invariant = { λ k. k.stations ≡ named_stations k.refutation };
}

impl KeptRefutation {
    /// Returns a copy of this refutation for the cache. Fails only if memory runs out.
    pub fn of(alloc: Global, refutation: &Refutation) -> Result<KeptRefutation, NoMemory>
        ensures { IfOk result (λ kept. kept ≡ refutation.now) }
    {
        Ok(KeptRefutation {
            stations: stations_of(alloc, refutation)?,
            refutation: copy_of(alloc, refutation)?,
        })
    }

    /// Returns a copy of the refutation. Fails only if memory runs out.
    pub fn copied(&self, alloc: Global) -> Result<Refutation, NoMemory>
        ensures { IfOk result (λ refutation. refutation ≡ self.now) }
    {
        copy_of(alloc, &self.refutation)
    }

    /// Whether the refutation may be valid for a set and a worker, by its stations, its number of lines and the
    /// worker. If not, it is not valid.
    pub fn may_answer(&self, set: &SignedSet, worker: &Worker) -> bool
        ensures { result ≡ may_answer set.now worker.now self.now }
    {
        // Refutations name different stations, so the last one's missing station says nothing about the next.
        may_be_of(&self.refutation, worker) && set.holds(&self.stations, &mut Witness::none())
    }
}

// Returns the stations that a refutation names.
fn stations_of(alloc: Global, refutation: &Refutation) -> Result<SignedSet, NoMemory>
    ensures { IfOk result (λ set. set ≡ named_stations refutation.now) }
{
    match refutation {
        Refutation::Proof { subset, log: _ } => SignedSet::of(alloc, subset.as_slice()),
        Refutation::Dead(pair) => SignedSet::of(alloc, &[pair.f, pair.g]),
    }
}

// Whether a worker may answer with a refutation of this kind and number of lines.
fn may_be_of(refutation: &Refutation, worker: &Worker) -> bool
    ensures { result ≡ may_be_of worker.now refutation.now }
{
    match refutation {
        Refutation::Proof { subset: _, log } => learns_within(log, worker),
        Refutation::Dead(_) => true,
    }
}

// Whether the worker learns lines, and its budget covers these.
fn learns_within(log: &Log, worker: &Worker) -> bool
    ensures { result ≡ learns_within worker.now log.now.lines }
{
    let lines = log.lines.len();
    learns(worker) && lines > 0 && lines as u64 <= worker.budget as u64
}

// Whether the worker learns lines.
fn learns(worker: &Worker) -> bool
    ensures { result ≡ learns worker.now.kind }
{
    match worker.kind {
        Kind::Cdcl => true,
        Kind::Walk => false,
    }
}
