//! From a model of the packing formula back to a channel map.

ghost use Rattle.std.specs.Prelude.{◌≡◌, ◌<◌, ◌≤◌, IfOk, IsTrue, length, slice_index};
ghost use Rattle.clause_db.specs.Clause.{Satisfies};
ghost use Rattle.pack_defs.specs.Lists.{is_ascending};
ghost use Rattle.pack_defs.specs.Packing.{IsPacking};
ghost use Rattle.cnf_encode.specs.ByStation.{AreOffsets};
ghost use Rattle.cnf_encode.specs.Decode.{chosen, decoded, listed_model};
ghost use Rattle.cnf_encode.specs.Formula.{packing_formula};

use crate::numbering::{channels_of, offsets};
use pack_defs::book::Book;
use pack_defs::channel_map::ChannelMap;
use std::alloc::{AllocError as NoMemory, Global};

/// Returns the channel map that a model of the packing formula of an ascending set describes. Each station is on the first channel
/// of its domain whose variable is true. The value of variable `v` is `model[v - 1]`; one after the end is false. The map is clean
/// and has exactly the set's stations. Fails only if memory runs out.
pub fn decode(
    alloc: Global,
    book: &Book,
    set: &[u32],
    model: &[bool],
) -> Result<ChannelMap, NoMemory>
    requires ascending { IsTrue (is_ascending set.now) }
    requires model { Satisfies (listed_model model.now) (packing_formula book.now set.now) }
    ensures decoded { IfOk result (λ map. map ≡ decoded book.now set.now (listed_model model.now)) }
    ensures packing { IfOk result (λ map. IsPacking book.now set.now map) }
{
    let offsets = offsets(alloc, book, set)?;
    let mut entries = Vec::new(alloc);
    for i in 0..set.len() {
        entries.push((set[i], chosen(book, set, &offsets, i, model)))?;
    }
    ChannelMap::of(alloc, &entries)
}

// Returns the first channel of the station at place `i` of the set whose variable is true.
fn chosen(book: &Book, set: &[u32], offsets: &[u32], i: usize, model: &[bool]) -> u8
    requires ascending { IsTrue (is_ascending set.now) }
    requires offsets { AreOffsets book.now set.now offsets.now }
    requires in_set { i < length set.now }
    requires model { Satisfies (listed_model model.now) (packing_formula book.now set.now) }
    ensures { result ≡ chosen book.now set.now (listed_model model.now) (slice_index set.now i) }
{
    for (j, c) in channels_of(book, set[i]).iter().enumerate() {
        if is_true(model, offsets[i] as usize + j + 1) {
            return *c;
        }
    }
    // A model satisfies the clause that requires one of them.
    unreachable!()
}

// Whether the variable, numbered from 1, is true.
fn is_true(model: &[bool], v: usize) -> bool
    requires { 1 ≤ v }
    ensures { result ≡ listed_model model.now v }
{
    v <= model.len() && model[v - 1]
}
