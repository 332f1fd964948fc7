//! Finds the query of a record's step again, by a replay of the steps before it.

ghost use Rattle.std.specs.Prelude.{◌≡◌, ◌≤◌, IfOk, Some, length};
ghost use Rattle.pack_defs.specs.Scenario.{IsWithinLimits};
ghost use Rattle.cert_types.specs.Certificate.{IsTaskOf};
ghost use Rattle.auction_core.specs.Backed.{IsBacked};
ghost use Rattle.undecided_tests.specs.Queries.{task_at};

use crate::last_map::map_on;
use crate::queries::queries_taken;
use crate::step_replay::state_after_steps;
use auction_core::record::Record;
use cert_types::task::Task;
use pack_defs::book::Book;
use pack_defs::items::Items;
use std::alloc::{AllocError as NoMemory, Global};
use transcript_text::test_set::test_set;

/// Returns the query of step `step`, counted from 1: its number, round, station, the stations that it asked about,
/// and the channels they had. For a step that needed no query, returns the query that it would have been. If the
/// step's station has no channel, only the set is meaningful.
///
/// Makes one pass over the steps before it, and then costs the step's stations and their neighbours. Fails only if
/// memory runs out.
pub fn task_at(alloc: Global, rec: &Record, book: &Book, step: u32) -> Result<Task, NoMemory>
    requires backed { IsBacked rec.now.scenario book.now rec.now.order rec.now }
    requires limits { IsWithinLimits rec.now.scenario }
    requires begins { 1 ≤ step }
    requires there { step ≤ length rec.now.steps }
    ensures task_is { IfOk result (λ task. task_at book.now rec.now step ≡ Some task) }
    ensures ascends { IfOk result (IsTaskOf book.now) }
{
    book.keeps_order();
    let before = step as usize - 1;
    let left = state_after_steps(alloc, rec, book, before)?;
    let steps = rec.steps.as_slice();
    let asked = &steps[before];
    let set = test_set(alloc, &rec.scenario, book, &left.clock, asked.station)?;
    let last = map_on(alloc, &left.map, &set)?;
    Ok(Task {
        number: 1 + queries_taken(&rec.start, steps, before),
        round: asked.round,
        station: Some(asked.station),
        set: Items::from_vec(set),
        last,
    })
}
