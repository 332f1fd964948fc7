//! The stored clauses, which are the stations' own clauses and the learnt lines, and the two literals that each clause watches.

use crate::hint::Hint;
use crate::literal::Literal;
use crate::policy::{LINE_DECAY, LITERALS_OF_SHORT_CLAUSE, MOST_USE};
use crate::trail::{KeptTrail, Value};
use search_base::checked_access::{read, saturating_u32, slice_between, write};
use std::alloc::{AllocError as NoMemory, Global};
use std::mem::replace;

// A clause begins with its number of literals, the place of its head, and the place of the literal where its last new watch was found.
const WORDS_BEFORE_LITERALS: u32 = 3;

// The place of the third literal, where the search for a new watch begins.
const FIRST_UNWATCHED: u32 = 2;

/// A clause that watches a literal, and another literal of the clause, the blocker. If the blocker is true, the clause needs no visit.
#[derive(Clone, Copy)]
pub(crate) struct KeptWatch {
    pub(crate) at: u32,
    pub(crate) blocker: Literal,
}

/// The statistics of a clause.
#[derive(Clone, Copy)]
pub(crate) struct ClauseHead {
    pub(crate) at: u32,
    pub(crate) name: Hint,
    /// The number of levels of its literals when it was learnt.
    pub(crate) glue: u32,
    /// How much recent conflicts met the clause.
    pub(crate) used: f64,
}

/// The result of a visit to a watching clause.
#[derive(Clone, Copy)]
pub(crate) enum KeptWatchOutcome {
    /// The clause watches another literal now.
    Moved,
    /// The clause is true, by this literal.
    Holds(Literal),
    /// All literals of the clause except this one are false.
    Forces(Literal),
    /// All literals of the clause, including this one, are false.
    False(Literal),
}

/// Clauses, stored one after the other in one list.
#[derive(Drop)]
pub(crate) struct KeptClauses {
    words: Vec<u32>,
    heads: Vec<ClauseHead>,
    // The number of clauses that are lines; the others are the stations' own.
    lines: usize,
    // For each literal the clauses that watch it.
    watches: Vec<Vec<KeptWatch>>,
    step: f64,
}

impl KeptClauses {
    /// Returns the empty list of clauses over this many variables.
    pub(crate) fn new(alloc: Global, vars: u32) -> Result<KeptClauses, NoMemory> {
        let mut watches = Vec::new(alloc);
        for _ in 0..vars.saturating_mul(2) {
            watches.push(Vec::new(alloc))?;
        }
        Ok(KeptClauses {
            words: Vec::new(alloc),
            heads: Vec::new(alloc),
            lines: 0,
            watches,
            step: 1.0,
        })
    }

    /// Returns the number of clauses that are lines.
    pub(crate) fn lines(&self) -> usize {
        self.lines
    }

    /// Returns the head of each clause.
    pub(crate) fn heads(&self) -> &[ClauseHead] {
        &self.heads
    }

    /// Returns the codes of a clause's literals.
    pub(crate) fn codes(&self, at: u32) -> &[u32] {
        let begin = at.saturating_add(WORDS_BEFORE_LITERALS) as usize;
        let end = begin + read(&self.words, at, 0) as usize;
        if end <= self.words.len() {
            &self.words[begin..end]
        } else {
            &[]
        }
    }

    /// Returns the number of a clause's literals.
    pub(crate) fn size(&self, at: u32) -> u32 {
        read(&self.words, at, 0)
    }

    /// Returns a literal of a clause, by place from 0.
    pub(crate) fn literal(&self, at: u32, place: u32) -> Literal {
        let at = at
            .saturating_add(WORDS_BEFORE_LITERALS)
            .saturating_add(place);
        Literal {
            code: read(&self.words, at, 0),
        }
    }

    /// Returns the clause as a hint.
    pub(crate) fn name(&self, at: u32) -> Hint {
        let place = read(&self.words, at.saturating_add(1), u32::MAX) as usize;
        if place < self.heads.len() {
            self.heads[place].name
        } else {
            Hint::Line(0)
        }
    }

    /// Appends a clause, watches its first two literals, and returns its place.
    pub(crate) fn add(
        &mut self,
        literals: &[Literal],
        name: Hint,
        glue: u32,
        used: f64,
    ) -> Result<u32, NoMemory> {
        let at = saturating_u32(self.words.len());
        self.words.push(saturating_u32(literals.len()))?;
        self.words.push(saturating_u32(self.heads.len()))?;
        self.words.push(FIRST_UNWATCHED)?;
        for literal in literals {
            self.words.push(literal.code)?;
        }
        self.heads.push(ClauseHead {
            at,
            name,
            glue,
            used,
        })?;
        if matches!(name, Hint::Line(_)) {
            self.lines = self.lines.saturating_add(1);
        }
        if literals.len() >= 2 {
            let (one, other) = (literals[0], literals[1]);
            self.watch(one, KeptWatch { at, blocker: other })?;
            self.watch(other, KeptWatch { at, blocker: one })?;
        }
        Ok(at)
    }

    /// Returns the use with which a new clause begins.
    pub(crate) fn use_of_new(&self) -> f64 {
        self.step
    }

    /// Takes over the step with which another list of clauses counts uses.
    pub(crate) fn count_on_from(&mut self, other: &KeptClauses) {
        self.step = other.step;
    }

    /// Counts a clause as met by a conflict.
    pub(crate) fn bump_use(&mut self, at: u32) {
        let place = read(&self.words, at.saturating_add(1), u32::MAX) as usize;
        if place >= self.heads.len() {
            return;
        }
        self.heads[place].used = self.heads[place].used + self.step;
        if self.heads[place].used > MOST_USE {
            for head in self.heads.iter_mut() {
                head.used = head.used / MOST_USE;
            }
            self.step = self.step / MOST_USE;
        }
    }

    /// Makes later conflicts count for more.
    pub(crate) fn age(&mut self) {
        self.step = self.step / LINE_DECAY;
    }

    /// Takes the clauses that watch a literal, and leaves the literal without watches.
    pub(crate) fn take_watches(&mut self, alloc: Global, literal: Literal) -> Vec<KeptWatch> {
        let code = literal.code as usize;
        if code < self.watches.len() {
            replace(&mut self.watches[code], Vec::new(alloc))
        } else {
            Vec::new(alloc)
        }
    }

    /// Puts back the watches that `take_watches` took.
    pub(crate) fn put_watches(&mut self, literal: Literal, watches: Vec<KeptWatch>) {
        let code = literal.code as usize;
        if code < self.watches.len() {
            self.watches[code] = watches;
        }
    }

    /// Visits a clause that watches a false literal, and makes the clause watch a literal that isn't false, if it has another one.
    pub(crate) fn update_watch(
        &mut self,
        trail: &KeptTrail,
        watch: KeptWatch,
        falsified: Literal,
    ) -> Result<KeptWatchOutcome, NoMemory> {
        let begin = watch.at.saturating_add(WORDS_BEFORE_LITERALS) as usize;
        let end = begin + read(&self.words, watch.at, 0) as usize;
        if end > self.words.len() || end - begin < 2 {
            return Ok(KeptWatchOutcome::Moved);
        }
        if self.words[begin] == falsified.code {
            self.words.swap(begin, begin + 1);
        }
        let first = Literal {
            code: self.words[begin],
        };
        let value = trail.value(first);
        if value == Value::True {
            return Ok(KeptWatchOutcome::Holds(first));
        }
        if let Some(place) = self.find_unfalsified(trail, watch.at) {
            self.watch_at(watch.at, place, first)?;
            return Ok(KeptWatchOutcome::Moved);
        }
        if value == Value::False {
            return Ok(KeptWatchOutcome::False(first));
        }
        Ok(KeptWatchOutcome::Forces(first))
    }

    // Returns the place of a literal of a clause, from the third on, that is not false, if there is one. In a long clause the search goes
    // on from where the last one ended, and round.
    fn find_unfalsified(&mut self, trail: &KeptTrail, at: u32) -> Option<u32> {
        let codes = self.codes(at);
        let size = saturating_u32(codes.len());
        if size <= LITERALS_OF_SHORT_CLAUSE {
            return first_unfalsified(trail, codes, FIRST_UNWATCHED, size);
        }
        let from = read(&self.words, at.saturating_add(2), FIRST_UNWATCHED);
        let found = match first_unfalsified(trail, codes, from, size) {
            Some(place) => place,
            None => first_unfalsified(trail, codes, FIRST_UNWATCHED, from)?,
        };
        write(&mut self.words, at.saturating_add(2), found);
        Some(found)
    }

    // Swaps the literal at a place into the second place of a clause, which then watches it.
    fn watch_at(&mut self, at: u32, place: u32, blocker: Literal) -> Result<(), NoMemory> {
        let second = at.saturating_add(WORDS_BEFORE_LITERALS).saturating_add(1);
        let literal = self.literal(at, place);
        let old = read(&self.words, second, 0);
        write(&mut self.words, second, literal.code);
        let begin = at.saturating_add(WORDS_BEFORE_LITERALS);
        write(&mut self.words, begin.saturating_add(place), old);
        self.watch(literal, KeptWatch { at, blocker })
    }

    // Adds a clause to those that watch a literal.
    fn watch(&mut self, literal: Literal, watch: KeptWatch) -> Result<(), NoMemory> {
        let code = literal.code as usize;
        if code < self.watches.len() {
            self.watches[code].push(watch)?;
        }
        Ok(())
    }
}

// Returns the first place from `from` on and before `to` of a literal that is not false, if there is one.
fn first_unfalsified(trail: &KeptTrail, codes: &[u32], from: u32, to: u32) -> Option<u32> {
    let mut place = from;
    for code in slice_between(codes, from, to) {
        if trail.value(Literal { code: *code }) != Value::False {
            return Some(place);
        }
        place = place.saturating_add(1);
    }
    None
}
