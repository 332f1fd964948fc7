//! Searches the cache for an entry that answers, from the most recently used on. A `task.set` is passed as `asked`
//! too, with its bits.

ghost use Rattle.std.specs.Prelude.{◌≡◌, IfOk, find, option_map};
ghost use Rattle.cert_types.specs.Certificate.{IsTaskOf};
ghost use Rattle.batch_cache.specs.Answering.{gives_fit, gives_refutation};
ghost use Rattle.batch_cache.specs.KeptRefutation.{fit_found, refutation_found};
ghost use Rattle.batch_cache.specs.Suggesting.{changes_found, holds_task, may_refute};

use crate::judge::{fit_of, refutation_of};
use crate::kept_refutation::KeptRefutation;
use crate::key::Key;
use crate::restriction::changes_on;
use crate::signed_set::SignedSet;
use crate::witness::Witness;
use cert_types::answer::Answer;
use cert_types::task::Task;
use lru::LruCache;
use pack_defs::book::Book;
use pack_defs::channel_map::ChannelMap;
use pack_defs::worker::Worker;
use std::alloc::{AllocError as NoMemory, Global};

/// The key of the entry that answers, and the answer.
#[derive(Drop)]
pub(crate) struct FoundAnswer {
    pub(crate) key: Key,
    pub(crate) answer: Answer,
}

/// Returns the fit of the most recently used map that leads to one. A station that one map's set lacked is tested
/// first against the next one. Fails only if memory runs out.
pub(crate) fn first_fit(
    alloc: Global,
    maps: &LruCache<Key, ChannelMap>,
    top: u8,
    book: &Book,
    task: &Task,
    worker: &Worker,
    asked: &SignedSet,
) -> Result<Option<FoundAnswer>, NoMemory>
    requires task { IsTaskOf book.now task.now }
    requires asked { asked.now ≡ task.now.set }
    ensures { IfOk result (λ found. found ≡ option_map (fit_found task.now) (find (gives_fit top book.now task.now worker.now) maps.now.entries)) }
{
    let mut witness = Witness::none();
    for (key, map) in maps.iter() {
        if !key.holds(top, asked, &mut witness) {
            continue;
        }
        if let Some(answer) = fit_of(alloc, book, task, worker, map)? {
            let key = key.copied(alloc)?;
            return Ok(Some(FoundAnswer { key, answer }));
        }
    }
    Ok(None)
}

/// Returns a copy of the most recently used refutation that is valid. Fails only if memory runs out.
pub(crate) fn first_refutation(
    alloc: Global,
    refutations: &LruCache<Key, KeptRefutation>,
    top: u8,
    book: &Book,
    task: &Task,
    worker: &Worker,
    asked: &SignedSet,
) -> Result<Option<FoundAnswer>, NoMemory>
    requires task { IsTaskOf book.now task.now }
    requires asked { asked.now ≡ task.now.set }
    ensures { IfOk result (λ found. found ≡ option_map refutation_found (find (gives_refutation top book.now task.now worker.now) refutations.now.entries)) }
{
    for (key, kept) in refutations.iter() {
        if key.top != top {
            continue;
        }
        if !kept.may_answer(asked, worker) {
            continue;
        }
        if let Some(answer) = refutation_of(alloc, book, task, worker, kept)? {
            let key = key.copied(alloc)?;
            return Ok(Some(FoundAnswer { key, answer }));
        }
    }
    Ok(None)
}

/// Returns the channels in which the most recently used map whose set contains the task's differs from the task's
/// last map. Fails only if memory runs out.
pub(crate) fn first_changes(
    alloc: Global,
    maps: &LruCache<Key, ChannelMap>,
    top: u8,
    task: &Task,
    asked: &SignedSet,
) -> Result<Option<FoundAnswer>, NoMemory>
    requires asked { asked.now ≡ task.now.set }
    ensures { IfOk result (λ found. found ≡ option_map (changes_found task.now) (find (holds_task top task.now) maps.now.entries)) }
{
    let mut witness = Witness::none();
    for (key, map) in maps.iter() {
        if !key.holds(top, asked, &mut witness) {
            continue;
        }
        let changes = changes_on(alloc, asked, &task.last, map)?;
        let key = key.copied(alloc)?;
        let answer = Answer::Fit(changes);
        return Ok(Some(FoundAnswer { key, answer }));
    }
    Ok(None)
}

/// Returns a copy of the most recently used refutation that may be valid. Fails only if memory runs out.
pub(crate) fn first_likely_refutation(
    alloc: Global,
    refutations: &LruCache<Key, KeptRefutation>,
    top: u8,
    task: &Task,
    worker: &Worker,
    asked: &SignedSet,
) -> Result<Option<FoundAnswer>, NoMemory>
    requires asked { asked.now ≡ task.now.set }
    ensures { IfOk result (λ found. found ≡ option_map refutation_found (find (may_refute top task.now worker.now) refutations.now.entries)) }
{
    for (key, kept) in refutations.iter() {
        if key.top != top {
            continue;
        }
        if !kept.may_answer(asked, worker) {
            continue;
        }
        let refutation = kept.copied(alloc)?;
        let key = key.copied(alloc)?;
        let answer = Answer::Refuted(refutation);
        return Ok(Some(FoundAnswer { key, answer }));
    }
    Ok(None)
}
