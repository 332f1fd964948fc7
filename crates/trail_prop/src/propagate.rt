//! Propagation over watched clauses.
//!
//! The entries are visited in order. For each, the watches of the literal that it made false are visited. A clause that loses a
//! watched literal watches another one, forces its last literal, or is false. Clauses that cannot be watched are pending, and are
//! visited once all entries are done.

ghost use Rattle.std.specs.Prelude.{◌≡◌, ◌+◌, ◌-◌, ◌<◌, length, if◌then◌else◌, IfOk, IfSome, IfNone, Some, None, true, false};
ghost use Rattle.clause_db.specs.Clause.{clause_at, opposite, has_lit};
ghost use Rattle.clause_db.specs.Clauses.{LitWithin};
ghost use Rattle.trail_prop.specs.declared.watches.Watch.{Watch};
ghost use Rattle.trail_prop.specs.Entries.{lits_of, level_of};
ghost use Rattle.trail_prop.specs.Open.{IsComplete};
ghost use Rattle.trail_prop.specs.Trails.{IsFalseAt, Grows};
ghost use Rattle.trail_prop.specs.WatchUpdate.{IsWatchMove, AllButOneFalse};
ghost use Rattle.trail_prop.specs.Watchable.{AreWatchable};
ghost use Rattle.trail_prop.specs.Watching.{IsWatchInvariant, IsNumber, IsPendingAt, watches_at, clause_of, places_of, IsHeadOpposite};
ghost use Rattle.trail_prop.specs.Steps.{AreHeld, IsNextWatch, IsNextLong, WatchOutcomeIs, PropagationStepIs};

use crate::clause_status::{ClauseStatus, clause_status_of};
use crate::entry::Conflict;
use crate::plain::PropagationStep;
use crate::watch_update::{Moved, WatchPlaces, WatchUpdate, watch_update_of};
use crate::watchable::{has_true, watchable_places};
use crate::watches::Watch;
use crate::watching::Watching;
use clause_db::lit::Lit;
use std::alloc::AllocError as NoMemory;

/// What happened to a watch in the list of a literal that is now false. Its clause is false, the watch stays, or it leaves the
/// list.
#[derive(Clone, Copy, Debug, PartialEq, Eq)]
pub(crate) enum WatchOutcome {
    False(Conflict),
    Stays,
    Leaves,
}

/// Appends every literal that a clause forces, until a clause is false or no clause forces a literal. Returns the false clause, if
/// there is one. Fails only if memory runs out.
pub(crate) fn propagate(watching: &mut Watching) -> Result<Option<Conflict>, NoMemory>
    ensures clauses { watching.new.trail.clauses ≡ watching.old.trail.clauses }
    ensures grows { Grows watching.old.trail.entries watching.new.trail.entries }
    ensures conflict { IfOk result (λ r. IfSome r (λ c. IsFalseAt (lits_of watching.new.trail.entries) (clause_at watching.new.trail.clauses.list c.clause))) }
    ensures complete { IfOk result (λ r. IfNone r (IsComplete watching.new.trail.clauses.list (lits_of watching.new.trail.entries))) }
{
    loop {
        match step(watching)? {
            PropagationStep::Found(conflict) => return Ok(Some(conflict)),
            PropagationStep::Quiet => return Ok(None),
            PropagationStep::Moved => {}
        }
    }
}

// Visits the entry at the head, or the pending clauses if there is none. The entry is below the last level if a decision was made
// before propagation was complete; all clauses are visited then.
fn step(watching: &mut Watching) -> Result<PropagationStep, NoMemory>
    ensures clauses { watching.new.trail.clauses ≡ watching.old.trail.clauses }
    ensures grows { Grows watching.old.trail.entries watching.new.trail.entries }
    ensures step { IfOk result (PropagationStepIs watching.old watching.new) }
{
    let Some(entry) = watching.next() else {
        return visit_pending(watching);
    };
    if entry.level < watching.plain().level() {
        return Ok(scan(watching));
    }
    visit(watching, entry.lit.opposite())
}

// Visits all clauses.
fn scan(watching: &mut Watching) -> PropagationStep
    ensures clauses { watching.new.trail.clauses ≡ watching.old.trail.clauses }
    ensures grows { Grows watching.old.trail.entries watching.new.trail.entries }
    ensures step { PropagationStepIs watching.old watching.new result }
{
    match watching.scan() {
        Some(conflict) => return PropagationStep::Found(conflict),
        None => return PropagationStep::Quiet,
    }
}

// Visits each watch of the literal that the entry at the head made false, and moves the head past the entry.
fn visit(watching: &mut Watching, gone: Lit) -> Result<PropagationStep, NoMemory>
    requires within { LitWithin watching.old.trail.clauses.vars gone }
    requires stands { IsHeadOpposite watching.old.trail.entries watching.old.head (level_of watching.old.trail.entries) gone }
    ensures clauses { watching.new.trail.clauses ≡ watching.old.trail.clauses }
    ensures grows { Grows watching.old.trail.entries watching.new.trail.entries }
    ensures step { IfOk result (PropagationStepIs watching.old watching.new) }
{
    let mut at = 0;
    while at < watching.count(gone) {
        match visit_watch(watching, gone, at)? {
            WatchOutcome::False(conflict) => return Ok(PropagationStep::Found(conflict)),
            WatchOutcome::Stays => at += 1,
            WatchOutcome::Leaves => {}
        }
    }
    watching.advance(gone);
    Ok(PropagationStep::Moved)
}

// Visits the clause of a watch, unless the literal that the watch names is true.
fn visit_watch(watching: &mut Watching, gone: Lit, at: usize) -> Result<WatchOutcome, NoMemory>
    requires within { LitWithin watching.old.trail.clauses.vars gone }
    requires place { at < length (watches_at watching.old.lists gone) }
    requires gone { has_lit (lits_of watching.old.trail.entries) (opposite gone) ≡ true }
    requires held { AreHeld watching.old gone at }
    ensures clauses { watching.new.trail.clauses ≡ watching.old.trail.clauses }
    ensures head { watching.new.head ≡ watching.old.head }
    ensures grows { Grows watching.old.trail.entries watching.new.trail.entries }
    ensures met { IfOk result (WatchOutcomeIs watching.old watching.new gone at) }
{
    let watch = watching.watch(gone, at);
    let blocker = watch.blocker();
    if watching.plain().assigned().is_true(blocker) {
        return Ok(WatchOutcome::Stays);
    }
    if watch.pair {
        return Ok(force_open(watching, gone, at, watch, blocker));
    }
    visit_long_clause(watching, gone, at, watch)
}

// Forces the one literal of a clause that may have no value. All others are false.
fn force_open(watching: &mut Watching, gone: Lit, at: usize, watch: Watch, lit: Lit) -> WatchOutcome
    requires within { LitWithin watching.old.trail.clauses.vars lit }
    requires next { IsNextWatch watching.old gone at watch }
    requires only { AllButOneFalse (lits_of watching.old.trail.entries) (clause_of watching.old.trail.clauses.list (watch.clause - 1)) lit }
    requires unknown { has_lit (lits_of watching.old.trail.entries) lit ≡ false }
    ensures clauses { watching.new.trail.clauses ≡ watching.old.trail.clauses }
    ensures head { watching.new.head ≡ watching.old.head }
    ensures grows { Grows watching.old.trail.entries watching.new.trail.entries }
    ensures met { WatchOutcomeIs watching.old watching.new gone at result }
{
    let number = watch.clause as u64;
    if watching.plain().assigned().is_true(lit.opposite()) {
        return WatchOutcome::False(Conflict { clause: number });
    }
    watching.force(lit, number);
    WatchOutcome::Stays
}

// Visits a clause of more than two literals.
fn visit_long_clause(
    watching: &mut Watching,
    gone: Lit,
    at: usize,
    watch: Watch,
) -> Result<WatchOutcome, NoMemory>
    requires next { IsNextLong watching.old gone at watch }
    requires gone { has_lit (lits_of watching.old.trail.entries) (opposite gone) ≡ true }
    ensures clauses { watching.new.trail.clauses ≡ watching.old.trail.clauses }
    ensures head { watching.new.head ≡ watching.old.head }
    ensures grows { Grows watching.old.trail.entries watching.new.trail.entries }
    ensures met { IfOk result (WatchOutcomeIs watching.old watching.new gone at) }
{
    let number = watch.clause as u64;
    let clause = watching.plain().clauses().get(number);
    let places = watching.places(number);
    match watch_update_of(watching.plain().assigned(), clause, places, gone) {
        WatchUpdate::Holds(other) => {
            watching.put(gone, at, watch.blocked_by(other));
            return Ok(WatchOutcome::Stays);
        }
        WatchUpdate::Moves(moved) => return rewatch(watching, gone, at, watch, moved),
        WatchUpdate::Leaves(other) => return Ok(keep_watch(watching, gone, at, watch, other)),
        WatchUpdate::Lost => {
            watching.defer_clause(gone, at, number)?;
            return Ok(WatchOutcome::Leaves);
        }
    }
}

// Names the clause's remaining literal in its watch, and forces that literal.
fn keep_watch(
    watching: &mut Watching,
    gone: Lit,
    at: usize,
    watch: Watch,
    other: Lit,
) -> WatchOutcome
    requires next { IsNextLong watching.old gone at watch }
    requires other { LitWithin watching.old.trail.clauses.vars other }
    requires watch_invariant { IsWatchInvariant watching.old }
    requires only { AllButOneFalse (lits_of watching.old.trail.entries) (clause_of watching.old.trail.clauses.list (watch.clause - 1)) other }
    requires unknown { has_lit (lits_of watching.old.trail.entries) other ≡ false }
    ensures clauses { watching.new.trail.clauses ≡ watching.old.trail.clauses }
    ensures head { watching.new.head ≡ watching.old.head }
    ensures grows { Grows watching.old.trail.entries watching.new.trail.entries }
    ensures met { WatchOutcomeIs watching.old watching.new gone at result }
{
    let named = watch.blocked_by(other);
    watching.put(gone, at, named);
    force_open(watching, gone, at, named, other)
}

// Makes the clause of a watch watch another literal.
fn rewatch(
    watching: &mut Watching,
    gone: Lit,
    at: usize,
    watch: Watch,
    moved: Moved,
) -> Result<WatchOutcome, NoMemory>
    requires next { IsNextLong watching.old gone at watch }
    requires watch_invariant { IsWatchInvariant watching.old }
    requires lit { LitWithin watching.old.trail.clauses.vars moved.lit }
    requires other { LitWithin watching.old.trail.clauses.vars moved.other }
    requires gone { has_lit (lits_of watching.old.trail.entries) (opposite gone) ≡ true }
    requires moved { IsWatchMove (lits_of watching.old.trail.entries) (clause_of watching.old.trail.clauses.list (watch.clause - 1)) (places_of watching.old.places (watch.clause - 1)) gone moved }
    ensures trail { watching.new.trail ≡ watching.old.trail }
    ensures head { watching.new.head ≡ watching.old.head }
    ensures met { IfOk result (WatchOutcomeIs watching.old watching.new gone at) }
{
    watching.add_watch(moved.lit, watch.blocked_by(moved.other))?;
    watching.drop_watch(gone, at, watch.clause as u64, moved);
    Ok(WatchOutcome::Leaves)
}

// Visits each pending clause, and then makes each that can be watched watch two literals.
fn visit_pending(watching: &mut Watching) -> Result<PropagationStep, NoMemory>
    requires { watching.old.head ≡ length watching.old.trail.entries }
    ensures clauses { watching.new.trail.clauses ≡ watching.old.trail.clauses }
    ensures grows { Grows watching.old.trail.entries watching.new.trail.entries }
    ensures step { IfOk result (PropagationStepIs watching.old watching.new) }
{
    let pass = scan_pending(watching);
    watch_all_pending(watching)?;
    Ok(pass)
}

// Visits each pending clause.
fn scan_pending(watching: &mut Watching) -> PropagationStep
    requires { watching.old.head ≡ length watching.old.trail.entries }
    ensures clauses { watching.new.trail.clauses ≡ watching.old.trail.clauses }
    ensures head { watching.new.head ≡ watching.old.head }
    ensures grows { Grows watching.old.trail.entries watching.new.trail.entries }
    ensures step { PropagationStepIs watching.old watching.new result }
{
    let before = watching.plain().entries().len();
    for at in 0..watching.pending() {
        let number = watching.waiting(at);
        let plain = watching.plain();
        match clause_status_of(plain.assigned(), plain.clauses().get(number)) {
            ClauseStatus::False => return PropagationStep::Found(Conflict { clause: number }),
            ClauseStatus::Forces(lit) => watching.force(lit, number),
            ClauseStatus::Settled => {}
        }
    }
    let plain = watching.plain();
    plain.keeps_reasons();
    if plain.entries().len() > before {
        PropagationStep::Moved
    } else {
        PropagationStep::Quiet
    }
}

// Makes each pending clause that can be watched watch two literals, and drops each that is true at level 0.
fn watch_all_pending(watching: &mut Watching) -> Result<(), NoMemory>
    ensures trail { watching.new.trail ≡ watching.old.trail }
    ensures head { watching.new.head ≡ watching.old.head }
{
    let mut at = 0;
    while at < watching.pending() {
        if !watch_pending(watching, at)? {
            at += 1;
        }
    }
    Ok(())
}

// Returns whether the clause is no longer pending.
fn watch_pending(watching: &mut Watching, at: usize) -> Result<bool, NoMemory>
    requires { at < length watching.old.pending }
    ensures trail { watching.new.trail ≡ watching.old.trail }
    ensures head { watching.new.head ≡ watching.old.head }
    ensures left { IfOk result (λ gone. length watching.new.pending + (if gone then 1 else 0) ≡ length watching.old.pending) }
{
    let number = watching.waiting(at);
    let plain = watching.plain();
    let clause = plain.clauses().get(number);
    if plain.level() == 0 && has_true(plain.assigned(), clause) {
        watching.retire_clause(at, number);
        return Ok(true);
    }
    match watchable_places(plain, clause) {
        Some(places) => return watch_two(watching, at, number, places),
        None => return Ok(false),
    }
}

// Makes a pending clause watch two literals, unless a number is too large for a watch.
fn watch_two(
    watching: &mut Watching,
    at: usize,
    number: u64,
    places: WatchPlaces,
) -> Result<bool, NoMemory>
    requires waits { IsPendingAt watching.old at number }
    requires number { IsNumber (length watching.old.trail.clauses.list) number }
    requires watchable { AreWatchable watching.old.trail.entries (clause_of watching.old.trail.clauses.list (number - 1)) places }
    ensures trail { watching.new.trail ≡ watching.old.trail }
    ensures head { watching.new.head ≡ watching.old.head }
    ensures left { IfOk result (λ gone. length watching.new.pending + (if gone then 1 else 0) ≡ length watching.old.pending) }
{
    let clause = watching.plain().clauses().get(number);
    let pair = clause.len() == 2;
    let first = clause[places.first];
    let second = clause[places.second];
    let Some(one) = Watch::of(number, second, pair) else {
        return Ok(false);
    };
    let Some(two) = Watch::of(number, first, pair) else {
        return Ok(false);
    };
    watching.add_watch(first, one)?;
    watching.add_watch(second, two)?;
    watching.mark_watched(at, number, places);
    Ok(true)
}
