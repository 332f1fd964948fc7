//! The last step of a walk: from its map or its moves to an answer of the query.

ghost use Rattle.std.specs.Prelude.{◌≡◌, IfOk, false, true};
ghost use Rattle.pack_defs.specs.declared.worker.Worker.{Worker};
ghost use Rattle.cert_types.specs.declared.task.Task.{Task};
ghost use Rattle.cert_types.specs.Query.{IsQuery};
ghost use Rattle.cert_types.specs.Refutes.{is_dead};
ghost use Rattle.cert_types.specs.Valid.{IsValid};
ghost use Rattle.cert_types.specs.Moves.{start_map, violates_some};
ghost use Rattle.walk_repack.specs.WalkState.{IsReceiptOf};
ghost use Rattle.walk_repack.specs.Steps.{map_stations};

use crate::walk_state::WalkState;
use cert_types::answer::{Answer, Receipt, Refutation};
use cert_types::delta::delta;
use cert_types::task::Task;
use pack_defs::book::Book;
use pack_defs::channel_map::ChannelMap;
use pack_defs::items::Items;
use pack_defs::pair::Pair;
use std::alloc::{AllocError as NoMemory, Global};

/// Returns the fit of a walk from the query's start map that violates no pair. The fit has the stations whose channel differs from the
/// last map, or that had none.
///
/// # Errors
/// Fails only if memory runs out.
pub(crate) fn fit(
    alloc: Global,
    book: &Book,
    task: &Task,
    walk_state: WalkState,
) -> Result<Answer, NoMemory>
    requires query { IsQuery book.now task.now }
    requires book { walk_state.book ≡ book.now }
    requires start { walk_state.start ≡ start_map book.now task.now.last task.now.set }
    ensures { (worker : Worker) → violates_some walk_state.book walk_state.entries ≡ false →
        IfOk result (λ answer. IsValid book.now task.now worker answer) }
{
    let map = ChannelMap::of(alloc, &walk_state.into_entries())?;
    Ok(Answer::Fit(delta(alloc, &task.last, &map)?))
}

/// Returns the refutation by a dead pair, for a walk from the query's start map.
pub(crate) fn refutation(walk_state: &WalkState, pair: Pair) -> Answer
    ensures { (task : Task) (worker : Worker) → is_dead walk_state.now.book (map_stations walk_state.now.entries) pair ≡ true →
        walk_state.now.start ≡ start_map walk_state.now.book task.last task.set → IsValid walk_state.now.book task worker result }
{
    walk_state.keeps_walk_state();
    Answer::Refuted(Refutation::Dead(pair))
}

/// Returns the receipt of a walk from the query's start map with as many moves as the budget.
pub(crate) fn receipt(walk_state: WalkState) -> Answer
    ensures { IsReceiptOf walk_state result }
{
    Answer::Spent(Receipt::Moves(Items::from_vec(walk_state.into_moves())))
}
