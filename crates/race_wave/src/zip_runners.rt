//! Pairs the passes of a board with racers, for a wave.

ghost use Rattle.std.specs.Prelude.{◌≡◌, ◌≤◌, All, [], length, map, vec_capacity};
ghost use Rattle.turn_lock.specs.Passes.{IsPassIdle, known_of, pass_identity};
ghost use Rattle.turn_lock.specs.Turns.{AllOf, each_new};
ghost use Rattle.answer_board.specs.Boards.{AreAllOn, raised};
ghost use Rattle.answer_board.specs.Entries.{numbered};
ghost use Rattle.race_wave.specs.Wave.{IsRunner};

use crate::runner::Runner;
use answer_board::board::{Board, Pass};
use solver_gate::racer::Racer;

// Returns the pairs of passes and racers, in order.
fn zipped_passes<R: Drop>(
    passes: Vec<Pass>,
    racers: Vec<R>,
    mut runners: Vec<Runner<R>>,
) -> Vec<Runner<R>>
    requires equal { length passes.items ≡ length racers.items }
    requires empty { runners.items ≡ [] }
    requires room { length passes.items ≤ vec_capacity runners }
    ensures passes { map (λ r. r.pass) result.items ≡ passes.items }
    ensures racers { map (λ r. r.racer) result.items ≡ racers.items }
{
    let mut rest = racers.into_iter();
    for pass in passes {
        let Some(racer) = rest.next() else {
            unreachable!()
        };
        runners.push_reserved(Runner {
            pass,
            racer,
            refused: false,
        });
    }
    runners
}

/// Returns the workers of a new board: each pass with the racer at its place. Allocates nothing; the capacity is
/// there.
pub fn zip_runners<R: Racer + Drop>(
    board: &Board,
    passes: Vec<Pass>,
    racers: Vec<R>,
    runners: Vec<Runner<R>>,
) -> Vec<Runner<R>>
    requires all { AreAllOn board.now (map pass_identity passes.items) }
    requires idle { AllOf IsPassIdle passes.items }
    requires new { map known_of passes.items ≡ each_new (numbered (raised board.now).history) (length racers.items) }
    requires racers { map R.worker racers.items ≡ (raised board.now).scenario.workers }
    requires empty { runners.items ≡ [] }
    requires room { length racers.items ≤ vec_capacity runners }
    ensures runners { All (λ r. IsRunner board.now r.pass (R.worker r.racer)) result.items }
    ensures passes { map (λ r. r.pass) result.items ≡ passes.items }
    ensures racers { map (λ r. r.racer) result.items ≡ racers.items }
{
    let _ = board;
    zipped_passes(passes, racers, runners)
}
