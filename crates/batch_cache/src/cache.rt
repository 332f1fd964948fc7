//! The cache and its calls.

ghost use Rattle.std.specs.Prelude.{◌≡◌, ◌≤◌, [], IfOk, IfSome, OnErr, OnOk, length};
ghost use Rattle.lru.specs.LruCache.{IsValid as IsOrdered, lru_cache, promoted};
ghost use Rattle.pack_defs.specs.ChannelMap.{overlaid};
ghost use Rattle.cert_types.specs.Certificate.{IsTaskOf};
ghost use Rattle.cert_types.specs.Valid.{IsValid};
ghost use Rattle.batch_cache.specs.Answering.{after_cached_answer, cached_answer};
ghost use Rattle.batch_cache.specs.Cache.{with_answer_put, first_kept, key_of, same_key};
ghost use Rattle.batch_cache.specs.Suggesting.{after_suggested, suggested_answer};

use crate::kept_refutation::KeptRefutation;
use crate::key::Key;
use crate::search::{first_changes, first_fit, first_likely_refutation, first_refutation};
use crate::signed_set::SignedSet;
use cert_types::answer::{Answer, Refutation};
use cert_types::task::Task;
use lru::LruCache;
use pack_defs::book::Book;
use pack_defs::channel_map::ChannelMap;
use pack_defs::worker::Worker;
use std::alloc::{AllocError as NoMemory, Global};
use std::marker::Model;
use std::num::NonZeroUsize;

/// Channel maps that fit, and refutations, shared by many auctions: at most `room` of each, in the order of their
/// last use.
#[derive(Drop)]
pub struct Cache {
    maps: LruCache<Key, ChannelMap>,
    refutations: LruCache<Key, KeptRefutation>,
}

impl Model for Cache {
    ghost use Rattle.std.specs.Prelude.{◌≡◌};
    ghost use Rattle.batch_cache.specs.Cache.{CacheView};

    ghost Value = { CacheView };

    ghost view = { λ c. record { room = c.maps.cap; maps = c.maps.entries; refutations = c.refutations.entries } };

    ghost invariant = { λ c. c.refutations.cap ≡ c.maps.cap };
}

impl Cache {
    /// Returns an empty cache with room for `room` maps and as many refutations. Fails only if memory runs out.
    pub fn make(alloc: Global, room: u32) -> Result<Cache, NoMemory>
        requires { 1 ≤ room }
        ensures { IfOk result (λ cache. cache ≡ record { room = room; maps = []; refutations = [] }) }
    {
        let Some(cap) = NonZeroUsize::new(room as usize) else {
            unreachable!();
        };
        Ok(Cache {
            maps: LruCache::sparse(alloc, cap)?,
            refutations: LruCache::sparse(alloc, cap)?,
        })
    }

    /// Proves that the cache keeps at most as many maps, and as many refutations, as there is room for. Does nothing.
    pub fn keeps_capacity(&self)
        ensures maps { length self.now.maps ≤ self.now.room }
        ensures refutations { length self.now.refutations ≤ self.now.room }
    {
        keeps_keys_and_room(&self.maps);
        keeps_keys_and_room(&self.refutations);
    }

    /// Stores the answer to a task under a top channel and the task's set. Of a fit, the channel map that it leads to
    /// is stored; of a refutation, a copy. The entry becomes the first of its kind and replaces the entry with the
    /// same key. If there is no room, the least recently used entry is dropped. A spent budget is not stored.
    ///
    /// # Errors
    ///
    /// Fails only if memory runs out, and then the cache is unchanged.
    pub fn put(
        &mut self,
        alloc: Global,
        top: u8,
        task: &Task,
        answer: &Answer,
    ) -> Result<(), NoMemory>
        ensures put { OnOk result (self.new ≡ with_answer_put self.old top task.now answer.now) }
        ensures kept { OnErr result (self.new ≡ self.old) }
    {
        match answer {
            Answer::Fit(delta) => self.put_map(alloc, top, task, delta),
            Answer::Refuted(refutation) => self.put_refutation(alloc, top, task, refutation),
            Answer::Spent(_) => Ok(()),
        }
    }

    // Stores the map that a fit leads to.
    fn put_map(
        &mut self,
        alloc: Global,
        top: u8,
        task: &Task,
        delta: &ChannelMap,
    ) -> Result<(), NoMemory>
        ensures put { OnOk result (self.new ≡ record self.old { maps = first_kept self.old.room (key_of top task.now, overlaid task.now.last delta.now) self.old.maps }) }
        ensures kept { OnErr result (self.new ≡ self.old) }
    {
        let key = Key::of(alloc, top, task.set.as_slice())?;
        let map = task.last.overlay(alloc, delta)?;
        keeps_keys_and_room(&self.maps);
        match self.maps.put(key, map) {
            Ok(_) => Ok(()),
            Err(_) => Err(NoMemory),
        }
    }

    // Stores a copy of a refutation.
    fn put_refutation(
        &mut self,
        alloc: Global,
        top: u8,
        task: &Task,
        refutation: &Refutation,
    ) -> Result<(), NoMemory>
        ensures put { OnOk result (self.new ≡ record self.old { refutations = first_kept self.old.room (key_of top task.now, refutation.now) self.old.refutations }) }
        ensures kept { OnErr result (self.new ≡ self.old) }
    {
        let key = Key::of(alloc, top, task.set.as_slice())?;
        let kept = KeptRefutation::of(alloc, refutation)?;
        keeps_keys_and_room(&self.refutations);
        match self.refutations.put(key, kept) {
            Ok(_) => Ok(()),
            Err(_) => Err(NoMemory),
        }
    }

    /// Returns an answer to a task under a top channel that is valid for this book, task and worker. Returns `None`
    /// exactly if no entry leads to one.
    ///
    /// Maps come first, the most recently used before the others. A map answers if it has this top, its set contains
    /// the task's, and its restriction to the task's set is a valid fit. The answer is this restriction. If no map
    /// answers, the most recently used refutation of this top that is valid does; the answer is a copy. The entry
    /// that answers becomes the first of its kind.
    ///
    /// # Errors
    ///
    /// Fails only if memory runs out, and then the cache is unchanged.
    pub fn answer(
        &mut self,
        alloc: Global,
        top: u8,
        book: &Book,
        task: &Task,
        worker: &Worker,
    ) -> Result<Option<Answer>, NoMemory>
        requires { IsTaskOf book.now task.now }
        ensures answer { IfOk result (λ answer. answer ≡ cached_answer self.old top book.now task.now worker.now) }
        ensures valid { IfOk result (λ answer. IfSome answer (IsValid book.now task.now worker.now)) }
        ensures moved { OnOk result (self.new ≡ after_cached_answer self.old top book.now task.now worker.now) }
        ensures kept { OnErr result (self.new ≡ self.old) }
    {
        keeps_keys_and_room(&self.maps);
        keeps_keys_and_room(&self.refutations);
        let asked = SignedSet::of(alloc, task.set.as_slice())?;
        if let Some(found) = first_fit(alloc, &self.maps, top, book, task, worker, &asked)? {
            bring_to_front(&mut self.maps, &found.key);
            return Ok(Some(found.answer));
        }
        if let Some(found) = first_refutation(
            alloc,
            &self.refutations,
            top,
            book,
            task,
            worker,
            &asked,
        )? {
            bring_to_front(&mut self.refutations, &found.key);
            return Ok(Some(found.answer));
        }
        Ok(None)
    }

    /// Returns a possible answer to a task under a top channel, which the caller must check. If the result is `None`,
    /// no entry is valid (`prove_none_is_suggested`).
    ///
    /// The suggestion comes from the most recently used map of this top whose set contains the task's. It has the
    /// channels in which the map differs from the task's last map on the task's set. If no map has such a set, it is
    /// a copy of the most recently used refutation of this top that may be valid. The stations, the number of lines
    /// and the worker decide this. The entry becomes the first of its kind.
    ///
    /// # Errors
    ///
    /// Fails only if memory runs out, and then the cache is unchanged.
    pub fn suggest(
        &mut self,
        alloc: Global,
        top: u8,
        task: &Task,
        worker: &Worker,
    ) -> Result<Option<Answer>, NoMemory>
        ensures suggested { IfOk result (λ answer. answer ≡ suggested_answer self.old top task.now worker.now) }
        ensures moved { OnOk result (self.new ≡ after_suggested self.old top task.now worker.now) }
        ensures kept { OnErr result (self.new ≡ self.old) }
    {
        keeps_keys_and_room(&self.maps);
        keeps_keys_and_room(&self.refutations);
        let asked = SignedSet::of(alloc, task.set.as_slice())?;
        if let Some(found) = first_changes(alloc, &self.maps, top, task, &asked)? {
            bring_to_front(&mut self.maps, &found.key);
            return Ok(Some(found.answer));
        }
        if let Some(found) = first_likely_refutation(
            alloc,
            &self.refutations,
            top,
            task,
            worker,
            &asked,
        )? {
            bring_to_front(&mut self.refutations, &found.key);
            return Ok(Some(found.answer));
        }
        Ok(None)
    }
}

// Proves that the keys of the entries differ, and that there are no more entries than room. Does nothing.
fn keeps_keys_and_room<V>(entries: &LruCache<Key, V>)
    ensures { IsOrdered same_key entries.now }
{
    // The contract of `len` says so for any cache.
    let _count = entries.len();
}

// Makes the entry with this key the first.
fn bring_to_front<V>(entries: &mut LruCache<Key, V>, key: &Key)
    ensures { entries.new ≡ lru_cache (promoted (same_key key.now) entries.old.entries) entries.old.cap }
{
    entries.promote(key);
}
