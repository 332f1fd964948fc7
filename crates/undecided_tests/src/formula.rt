//! Writes the packing formula of a step's test, for a prover outside.

ghost use Rattle.std.specs.Prelude.{◌≡◌, ◌≤◌, IfOk, length};
ghost use Rattle.pack_defs.specs.Scenario.{IsWithinLimits};
ghost use Rattle.auction_core.specs.Backed.{IsBacked};
ghost use Rattle.undecided_tests.specs.Settling.{formula_text};

use crate::task::task_at;
use auction_core::record::Record;
use cnf_encode::encode::encode;
use lrat_text::write::write_dimacs;
use pack_defs::book::Book;
use std::alloc::{AllocError as NoMemory, Global};

/// Returns the packing formula of the stations that step `step`, counted from 1, asked about, as DIMACS CNF. The
/// formula has a model exactly if the stations fit. Fails only if memory runs out.
pub fn formula_of_step(
    alloc: Global,
    rec: &Record,
    book: &Book,
    step: u32,
) -> Result<Vec<u8>, NoMemory>
    requires backed { IsBacked rec.now.scenario book.now rec.now.order rec.now }
    requires limits { IsWithinLimits rec.now.scenario }
    requires begins { 1 ≤ step }
    requires there { step ≤ length rec.now.steps }
    ensures { IfOk result (λ text. text.items ≡ formula_text book.now rec.now step) }
{
    let task = task_at(alloc, rec, book, step)?;
    let formula = encode(alloc, book, task.set.as_slice())?;
    write_dimacs(alloc, &formula)
}
