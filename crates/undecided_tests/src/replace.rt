//! Puts a proof from outside into a record, at a test that was left undecided.

ghost use Rattle.std.specs.Prelude.{◌≡◌, MatchOption, ⊤};
ghost use Rattle.pack_defs.specs.Scenario.{IsWithinLimits};
ghost use Rattle.auction_core.specs.Backed.{IsBacked, undecided_of};
ghost use Rattle.auction_core.specs.State.{test_of};
ghost use Rattle.undecided_tests.specs.Queries.{step_numbered};
ghost use Rattle.undecided_tests.specs.Settled.{IsLeftOpen, RefutesStep, settled_by, without_test};

use auction_core::record::{Record, Shown};
use cert_types::outside::OutsideProof;
use pack_defs::book::Book;
use pack_defs::items::Items;

/// Returns the record with step `step`, counted from 1, settled by the proof instead of its receipts. The record
/// stays backed, and the other undecided tests stay undecided. Moves the record and allocates nothing.
pub fn replace_undecided(rec: Record, book: &Book, step: u32, proof: OutsideProof) -> Record
    requires backed { IsBacked rec.scenario book.now rec.order rec }
    requires limits { IsWithinLimits rec.scenario }
    requires undecided { IsLeftOpen rec step }
    requires refutes { RefutesStep book.now rec step proof }
    ensures record_is { result ≡ settled_by rec step proof }
    ensures backed { IsBacked rec.scenario book.now rec.order result }
    ensures left { MatchOption (step_numbered rec.steps step) ⊤ (λ x. undecided_of result.steps ≡ without_test (test_of x) (undecided_of rec.steps)) }
{
    // Its contract has the book's order, which the laws need.
    book.keeps_order();
    let Record {
        scenario,
        order,
        ending,
        start,
        steps,
        map,
        total,
    } = rec;
    let mut steps = steps.into_vec();
    steps[step as usize - 1].shown = Shown::Outside(proof);
    Record {
        scenario,
        order,
        ending,
        start,
        steps: Items::from_vec(steps),
        map,
        total,
    }
}
