//! A trail with watches: each clause is pending or watches two of its literals. `propagate` visits them.

ghost use Rattle.std.specs.Prelude.{◌≡◌, ◌+◌, ◌-◌, ◌*◌, ◌<◌, ◌≤◌, ◌++◌, ◌∷◌, [], length, filter, IfOk, IfSome, IfNone, OnOk, OnErr, Some, None, true, slice_index_or, slice_set};
ghost use Rattle.std.specs.List.{All};
ghost use Rattle.clause_db.specs.Clause.{clause_at, opposite, has_lit};
ghost use Rattle.clause_db.specs.Clauses.{LitWithin, ClausesWithin};
ghost use Rattle.trail_prop.specs.Entries.{lits_of, level_of};
ghost use Rattle.trail_prop.specs.Open.{LitsWithin, value_known, IsComplete};
ghost use Rattle.trail_prop.specs.Trails.{forced_at, IsFalseAt, Grows, is_up_to};
ghost use Rattle.trail_prop.specs.WatchUpdate.{IsWatchMove};
ghost use Rattle.trail_prop.specs.Watching.{WatchFits, IsNumber, IsWatchOf, IsPendingAt, IsWatched, IsFixed, IsWatchInvariant, watches_at, watches_of, pending_count, clause_of, places_of, AllPending, IsHeadOpposite};
ghost use Rattle.trail_prop.specs.Steps.{with_trail, with_watch_list, Shrinks, IsWatchHeld, NextIs};

use crate::assignment::code;
use crate::entry::{Conflict, TrailEntry};
use crate::plain::PlainTrail;
use crate::watch_update::{Moved, WatchPlaces};
use crate::watches::{Watch, Watches};
use clause_db::list::ClauseList;
use clause_db::lit::Lit;
use std::alloc::{AllocError as NoMemory, Global};
use std::marker::Model;

/// A trail whose clauses are each pending, true at level 0, or watched at two literals. The entries before the head are propagated:
/// if one of them made a watched literal false, the clause has been true since.
#[derive(Drop)]
pub(crate) struct Watching {
    plain: PlainTrail,
    watches: Watches,
    places: Vec<WatchPlaces>,
    pending: Vec<u64>,
    head: usize,
}

impl Model for Watching {
    ghost use Rattle.trail_prop.specs.Watching.{WatchView, IsWatchInvariant};

    ghost Value = { WatchView };

    ghost view = { λ w. record { trail = w.plain; lists = w.watches; places = w.places.items; pending = w.pending.items; head = w.head } };

    ghost invariant = { λ w. IsWatchInvariant (record { trail = w.plain; lists = w.watches; places = w.places.items; pending = w.pending.items; head = w.head }) };
}

// Returns the numbers 1 to `count`.
fn all_numbers(alloc: Global, count: u64) -> Result<Vec<u64>, NoMemory>
    ensures { IfOk result (λ numbers. AllPending count numbers.items) }
{
    let mut numbers = Vec::new(alloc);
    for at in 0..count {
        numbers.push(at + 1)?;
    }
    Ok(numbers)
}

// Returns places for this many clauses, none of which is watched yet.
fn no_places(alloc: Global, count: u64) -> Result<Vec<WatchPlaces>, NoMemory>
    ensures { IfOk result (λ places. length places.items ≡ count) }
{
    let mut places = Vec::new(alloc);
    for _ in 0..count {
        places.push(WatchPlaces::none())?;
    }
    Ok(places)
}

impl Watching {
    /// Returns a trail without entries on which each clause is pending. Fails only if memory runs out.
    pub(crate) fn new(alloc: Global, clauses: ClauseList) -> Result<Watching, NoMemory>
        requires { ClausesWithin clauses.vars clauses.list }
        ensures { IfOk result (λ w. w.trail ≡ record { clauses = clauses; entries = [] }) }
    {
        let count = clauses.len();
        let watches = Watches::new(alloc, 2 * clauses.vars() as usize)?;
        let places = no_places(alloc, count)?;
        let pending = all_numbers(alloc, count)?;
        let plain = PlainTrail::new(alloc, clauses)?;
        Ok(Watching {
            plain,
            watches,
            places,
            pending,
            head: 0,
        })
    }

    /// Lends the trail without its watches.
    pub(crate) fn plain(&self) -> &PlainTrail
        ensures plain { result.now ≡ self.now.trail }
        ensures watch_invariant { IsWatchInvariant self.now }
    {
        &self.plain
    }

    /// Returns the entry at the head, unless all entries are propagated.
    pub(crate) fn next(&self) -> Option<TrailEntry>
        ensures { NextIs self.now result }
    {
        self.plain.keeps_reasons();
        let entries = self.plain.entries();
        if self.head < entries.len() {
            Some(entries[self.head])
        } else {
            None
        }
    }

    /// Returns the number of a literal's watches.
    pub(crate) fn count(&self, lit: Lit) -> usize
        requires { LitWithin self.now.trail.clauses.vars lit }
        ensures { result ≡ length (watches_at self.now.lists lit) }
    {
        self.watches.len(code(lit))
    }

    /// Returns a literal's watch at a place.
    pub(crate) fn watch(&self, lit: Lit, at: usize) -> Watch
        requires within { LitWithin self.now.trail.clauses.vars lit }
        requires place { at < length (watches_at self.now.lists lit) }
        ensures watch { result ≡ slice_index_or (watches_at self.now.lists lit) at result }
        ensures fits { WatchFits self.now.trail.clauses.list lit result }
    {
        self.watches.at(code(lit), at)
    }

    /// Returns the places that the clause of this number watches, if it is watched.
    pub(crate) fn places(&self, number: u64) -> WatchPlaces
        requires { IsNumber (length self.now.trail.clauses.list) number }
        ensures { result ≡ places_of self.now.places (number - 1) }
    {
        self.places[(number - 1) as usize]
    }

    /// Returns the number of pending clauses. A clause may be pending more than once.
    pub(crate) fn pending(&self) -> usize
        ensures { result ≡ length self.now.pending }
    {
        self.pending.len()
    }

    /// Returns the number of the pending clause at a place.
    pub(crate) fn waiting(&self, at: usize) -> u64
        requires { at < length self.now.pending }
        ensures waits { IsPendingAt self.now at result }
        ensures number { IsNumber (length self.now.trail.clauses.list) result }
    {
        self.pending[at]
    }

    /// Appends a clause, which is pending. Fails only if memory runs out.
    pub(crate) fn add(&mut self, clause: &[Lit]) -> Result<(), NoMemory>
        requires { LitsWithin self.old.trail.clauses.vars clause.now }
        ensures added { OnOk result (self.new.trail ≡ record { clauses = record { vars = self.old.trail.clauses.vars; list = self.old.trail.clauses.list ++ clause.now ∷ [] }; entries = self.old.trail.entries }) }
        ensures unchanged { OnErr result (self.new.trail ≡ self.old.trail) }
    {
        self.places.reserve(1)?;
        self.pending.reserve(1)?;
        self.plain.add(clause)?;
        self.places.push_reserved(WatchPlaces::none());
        self.pending.push_reserved(self.plain.clauses().len());
        Ok(())
    }

    /// Opens a new level with a literal whose variable has no value.
    pub(crate) fn decide(&mut self, lit: Lit)
        requires within { LitWithin self.old.trail.clauses.vars lit }
        requires opens { value_known (lits_of self.old.trail.entries) lit.var ≡ None }
        ensures { self.new.trail ≡ record { clauses = self.old.trail.clauses; entries = self.old.trail.entries ++ record { lit = lit; level = level_of self.old.trail.entries + 1; reason = None } ∷ [] } }
    {
        self.plain.decide(lit);
    }

    /// Removes the entries above a level.
    pub(crate) fn backjump(&mut self, level: u32)
        requires { level ≤ level_of self.old.trail.entries }
        ensures clauses { self.new.trail.clauses ≡ self.old.trail.clauses }
        ensures kept { self.new.trail.entries ≡ filter (is_up_to level) self.old.trail.entries }
        ensures level { level_of self.new.trail.entries ≡ level }
    {
        self.plain.backjump(level);
        self.plain.keeps_reasons();
        self.head = self.head.min(self.plain.entries().len());
    }

    /// Propagates by visiting all clauses. The head stays.
    pub(crate) fn scan(&mut self) -> Option<Conflict>
        ensures clauses { self.new.trail.clauses ≡ self.old.trail.clauses }
        ensures grows { Grows self.old.trail.entries self.new.trail.entries }
        ensures conflict { IfSome result (λ c. IsFalseAt (lits_of self.new.trail.entries) (clause_at self.new.trail.clauses.list c.clause)) }
        ensures complete { IfNone result (IsComplete self.new.trail.clauses.list (lits_of self.new.trail.entries)) }
    {
        self.plain.propagate()
    }

    /// Appends a literal that a clause forces.
    pub(crate) fn force(&mut self, lit: Lit, number: u64)
        requires { forced_at (lits_of self.old.trail.entries) (clause_at self.old.trail.clauses.list number) ≡ Some lit }
        ensures pushed { self.new ≡ with_trail self.old (record { clauses = self.old.trail.clauses; entries = self.old.trail.entries ++ record { lit = lit; level = level_of self.old.trail.entries; reason = Some number } ∷ [] }) }
        ensures room { length self.new.trail.entries ≤ self.new.trail.clauses.vars }
    {
        self.plain.force(lit, number);
    }

    /// Moves the head past its entry. Each clause that watches the entry's opposite must have a true literal.
    pub(crate) fn advance(&mut self, gone: Lit)
        requires stands { IsHeadOpposite self.old.trail.entries self.old.head (level_of self.old.trail.entries) gone }
        requires held { All (IsWatchHeld self.old) (watches_at self.old.lists gone) }
        ensures trail { self.new.trail ≡ self.old.trail }
        ensures head { self.new.head ≡ self.old.head + 1 }
        ensures room { length self.new.trail.entries + self.new.head ≤ 2 * self.new.trail.clauses.vars }
    {
        self.plain.keeps_reasons();
        if self.head < self.plain.entries().len() {
            self.head += 1;
        }
    }

    /// Replaces a watch by another one of the same clause.
    pub(crate) fn put(&mut self, gone: Lit, at: usize, watch: Watch)
        requires stands { IsWatchOf self.old gone at watch.clause }
        requires fits { WatchFits self.old.trail.clauses.list gone watch }
        ensures { self.new ≡ with_watch_list self.old gone (slice_set (watches_at self.old.lists gone) at watch) }
    {
        self.watches.set(code(gone), at, watch);
    }

    /// Appends a watch to a literal's. Fails only if memory runs out.
    pub(crate) fn add_watch(&mut self, lit: Lit, watch: Watch) -> Result<(), NoMemory>
        requires within { LitWithin self.old.trail.clauses.vars lit }
        requires fits { WatchFits self.old.trail.clauses.list lit watch }
        ensures watch_added { OnOk result (self.new ≡ with_watch_list self.old lit (watches_at self.old.lists lit ++ watch ∷ [])) }
        ensures unchanged { OnErr result (self.new ≡ self.old) }
    {
        self.watches.push(code(lit), watch)?;
        Ok(())
    }

    /// Makes the clause of a watch pending, and removes the watch. Fails only if memory runs out.
    pub(crate) fn defer_clause(&mut self, gone: Lit, at: usize, number: u64) -> Result<(), NoMemory>
        requires stands { IsWatchOf self.old gone at number }
        requires number { IsNumber (length self.old.trail.clauses.list) number }
        ensures shrinks { OnOk result (Shrinks self.old self.new gone at) }
        ensures unchanged { OnErr result (self.new ≡ self.old) }
    {
        self.pending.push(number)?;
        let _watch = self.watches.remove(code(gone), at);
        Ok(())
    }

    /// Removes a watch whose clause watches another literal from now on.
    pub(crate) fn drop_watch(&mut self, gone: Lit, at: usize, number: u64, moved: Moved)
        requires stands { IsWatchOf self.old gone at number }
        requires number { IsNumber (length self.old.trail.clauses.list) number }
        requires gone { has_lit (lits_of self.old.trail.entries) (opposite gone) ≡ true }
        requires moved { IsWatchMove (lits_of self.old.trail.entries) (clause_of self.old.trail.clauses.list (number - 1)) (places_of self.old.places (number - 1)) gone moved }
        requires lit { LitWithin self.old.trail.clauses.vars moved.lit }
        requires other { LitWithin self.old.trail.clauses.vars moved.other }
        requires watch_added { 0 < watches_of number (watches_at self.old.lists moved.lit) }
        ensures { Shrinks self.old self.new gone at }
    {
        self.places[(number - 1) as usize] = moved.places;
        let _watch = self.watches.remove(code(gone), at);
    }

    /// Removes a pending clause that is true at level 0.
    pub(crate) fn retire_clause(&mut self, at: usize, number: u64)
        requires waits { IsPendingAt self.old at number }
        requires fixed { IsFixed self.old.trail.entries (clause_of self.old.trail.clauses.list (number - 1)) }
        ensures trail { self.new.trail ≡ self.old.trail }
        ensures head { self.new.head ≡ self.old.head }
        ensures left { length self.new.pending + 1 ≡ length self.old.pending }
    {
        let _number = self.pending.swap_remove(at);
    }

    /// Removes a pending clause that is watched from now on.
    pub(crate) fn mark_watched(&mut self, at: usize, number: u64, places: WatchPlaces)
        requires waits { IsPendingAt self.old at number }
        requires number { IsNumber (length self.old.trail.clauses.list) number }
        requires watched { IsWatched self.old.trail.entries self.old.head self.old.lists number (clause_of self.old.trail.clauses.list (number - 1)) places }
        ensures trail { self.new.trail ≡ self.old.trail }
        ensures head { self.new.head ≡ self.old.head }
        ensures left { length self.new.pending + 1 ≡ length self.old.pending }
    {
        self.places[(number - 1) as usize] = places;
        let _number = self.pending.swap_remove(at);
    }
}
