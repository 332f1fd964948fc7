//! The watches of each literal.

ghost use Rattle.std.specs.Prelude.{◌≡◌, ◌+◌, ◌<◌, ◌++◌, ◌⊎◌, ◌∷◌, [], length, replicate, swap_remove, IfOk, IfSome, OnOk, OnErr, slice_index_or, slice_set};
ghost use Rattle.trail_prop.specs.declared.watches.Watch.{Watch};
ghost use Rattle.trail_prop.specs.Entries.{HasCode};
ghost use Rattle.trail_prop.specs.Watching.{lit_of, IsListed};

use crate::assignment::code;
use clause_db::lit::Lit;
use std::alloc::{AllocError as NoMemory, Global};
use std::marker::Model;

/// A watch: a clause by its number, and the code of another literal of the clause. While that literal (the blocker) is true, the
/// clause is not visited. If `pair` is set, the clause has only the blocker and the watched literal.
#[derive(Clone, Copy, Debug, PartialEq, Eq)]
pub(crate) struct Watch {
    pub(crate) clause: u32,
    pub(crate) blocker: u32,
    pub(crate) pair: bool,
}

impl Watch {
    /// Returns a watch of this clause, unless a number is too large for one.
    pub(crate) fn of(number: u64, blocker: Lit, pair: bool) -> Option<Watch>
        requires { HasCode blocker }
        ensures { IfSome result (λ w. (w.clause ≡ number) × (lit_of w.blocker ≡ blocker) × (w.pair ≡ pair)) }
    {
        let Ok(clause) = u32::try_from(number) else {
            return None;
        };
        let Ok(blocker) = u32::try_from(code(blocker)) else {
            return None;
        };
        Some(Watch {
            clause,
            blocker,
            pair,
        })
    }

    /// Returns the watch with this blocker, or unchanged if the literal's code is too large for a watch.
    pub(crate) fn blocked_by(self, other: Lit) -> Watch
        requires { HasCode other }
        ensures same { (result.clause ≡ self.clause) × (result.pair ≡ self.pair) }
        ensures blocker { (lit_of result.blocker ≡ other) ⊎ (result.blocker ≡ self.blocker) }
    {
        match u32::try_from(code(other)) {
            Ok(blocker) => {
                return Watch {
                    clause: self.clause,
                    blocker,
                    pair: self.pair,
                };
            }
            Err(_) => return self,
        }
    }

    /// Returns the blocker.
    pub(crate) fn blocker(self) -> Lit
        ensures { result ≡ lit_of self.blocker }
    {
        Lit {
            var: (self.blocker / 2) as u64 + 1,
            positive: self.blocker % 2 == 0,
        }
    }
}

/// The watches of each literal, by the literal's code.
#[derive(Drop)]
pub(crate) struct Watches {
    lists: Vec<Vec<Watch>>,
}

impl Model for Watches {
    ghost use Rattle.std.specs.Prelude.{List, map};
    ghost use Rattle.trail_prop.specs.declared.watches.Watch.{Watch};

    ghost Value = { List (List Watch) };

    ghost view = { λ w. map (λ v. v.items) w.lists.items };
}

impl Watches {
    /// Returns empty lists for this many literals. Fails only if memory runs out.
    pub(crate) fn new(alloc: Global, count: usize) -> Result<Watches, NoMemory>
        ensures { IfOk result (λ w. w ≡ replicate count []) }
    {
        let mut lists = Vec::with_capacity(alloc, count)?;
        for _ in 0..count {
            lists.push(Vec::new(alloc))?;
        }
        Ok(Watches { lists })
    }

    /// Returns the number of a literal's watches.
    pub(crate) fn len(&self, code: usize) -> usize
        requires { code < length self.now }
        ensures { result ≡ length (slice_index_or self.now code []) }
    {
        self.lists[code].len()
    }

    /// Returns a literal's watch at a place.
    pub(crate) fn at(&self, code: usize, at: usize) -> Watch
        requires { IsListed self.now code at }
        ensures { result ≡ slice_index_or (slice_index_or self.now code []) at result }
    {
        self.lists[code][at]
    }

    /// Appends a watch to a literal's. Fails only if memory runs out, and then changes nothing.
    pub(crate) fn push(&mut self, code: usize, watch: Watch) -> Result<(), NoMemory>
        requires { code < length self.old }
        ensures pushed { OnOk result (self.new ≡ slice_set self.old code (slice_index_or self.old code [] ++ watch ∷ [])) }
        ensures unchanged { OnErr result (self.new ≡ self.old) }
    {
        match self.lists[code].push(watch) {
            Ok(()) => return Ok(()),
            Err(_) => return Err(NoMemory),
        }
    }

    /// Replaces one of a literal's watches.
    pub(crate) fn set(&mut self, code: usize, at: usize, watch: Watch)
        requires { IsListed self.old code at }
        ensures { self.new ≡ slice_set self.old code (slice_set (slice_index_or self.old code []) at watch) }
    {
        self.lists[code][at] = watch;
    }

    /// Removes one of a literal's watches and returns it. The last one takes its place.
    pub(crate) fn remove(&mut self, code: usize, at: usize) -> Watch
        requires { IsListed self.old code at }
        ensures value { result ≡ slice_index_or (slice_index_or self.old code []) at result }
        ensures left { self.new ≡ slice_set self.old code (swap_remove (slice_index_or self.old code []) at result) }
    {
        self.lists[code].swap_remove(at)
    }
}
