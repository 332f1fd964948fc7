//! The key of an entry.

ghost use Rattle.std.specs.Prelude.{◌≡◌, ◌==◌, ◌&&◌, IfOk};
ghost use Rattle.std.specs.List.{list_all};
ghost use Rattle.pack_defs.specs.Lists.{is_in};

use crate::signed_set::SignedSet;
use crate::witness::Witness;
use std::alloc::{AllocError as NoMemory, Global};

/// The top channel and the set of stations for which an answer was found.
#[derive(Drop, PartialEq, Eq, Hash)]
pub struct Key {
    pub top: u8,
    pub set: SignedSet,
}

impl Key {
    /// Returns the key of a top channel and a set. Fails only if memory runs out.
    pub fn of(alloc: Global, top: u8, set: &[u32]) -> Result<Key, NoMemory>
        ensures { IfOk result (λ key. key ≡ record { top = top; set = set.now }) }
    {
        Ok(Key {
            top,
            set: SignedSet::of(alloc, set)?,
        })
    }

    /// Returns a copy of the key. Fails only if memory runs out.
    pub fn copied(&self, alloc: Global) -> Result<Key, NoMemory>
        ensures { IfOk result (λ key. key ≡ self.now) }
    {
        Ok(Key {
            top: self.top,
            set: self.set.copied(alloc)?,
        })
    }

    /// Whether the key has this top channel and its set contains `set`. The witness comes from the sets tested
    /// before; a station that this set lacks becomes the witness.
    pub(crate) fn holds(&self, top: u8, set: &SignedSet, witness: &mut Witness) -> bool
        ensures { result ≡ ((self.now.top == top) && list_all (is_in self.now.set) set.now) }
    {
        if self.top != top {
            return false;
        }
        self.set.holds(set, witness)
    }
}
