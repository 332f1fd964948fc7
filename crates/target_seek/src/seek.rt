//! The search for the least top channel, which runs the tests itself.

ghost use Rattle.std.specs.Prelude.{◌≡◌, ◌≤◌, IfOk};
ghost use Rattle.pack_defs.specs.Limits.{GREATEST_CHANNEL, LEAST_CHANNEL};
ghost use Rattle.target_seek.specs.Searching.{IsSearched};
ghost use Rattle.target_seek.specs.TopChannels.{IsTruth};

use crate::search::TopSearch;
use crate::sought::Sought;
use crate::top_test::TopTest;
use std::alloc::AllocError as NoMemory;

/// Returns the least top channel from `first` to `last` up to which the start set fits. A binary search: the last top
/// is tested first, then the middle of the tops that are left, at most seven in all. A top with an undecided test
/// counts as one at which the set does not fit.
///
/// # Errors
///
/// Fails only if memory runs out in a test. The tests until then are the beginning of such a search, which may be
/// started again.
pub fn seek_top<T: TopTest>(first: u8, last: u8, test: &mut T) -> Result<Sought, NoMemory>
    requires least { LEAST_CHANNEL ≤ first }
    requires ordered { first ≤ last }
    requires most { last ≤ GREATEST_CHANNEL }
    ensures base { T.base test.new ≡ T.base test.old }
    ensures asked { IsSearched first last (T.asked test.old) (T.asked test.new) result }
    ensures truth { IfOk result (IsTruth (T.base test.old) first last) }
{
    let mut search = TopSearch::new(first, last);
    while let Some(top) = search.next() {
        let answer = test.ask(top)?;
        search = search.with_top_answer(answer);
    }
    Ok(search.found())
}
