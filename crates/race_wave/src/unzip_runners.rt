//! Separates the workers of a wave into passes and racers again.

ghost use Rattle.std.specs.Prelude.{◌≡◌, ◌≤◌, IfOk, [], length, map, vec_capacity};
ghost use Rattle.race_wave.specs.RunnerBuffers.{AreBuffersFor};

use crate::runner::Runner;
use answer_board::board::Pass;
use std::alloc::{AllocError as NoMemory, Global};

// Preallocated buffers for pairing passes with racers and separating them again.
#[derive(Drop)]
pub(crate) struct RunnerBuffers<R> {
    pub(crate) runners: Vec<Runner<R>>,
    pub(crate) passes: Vec<Pass>,
    pub(crate) racers: Vec<R>,
}

// Returns buffers for `count` workers.
pub(crate) fn buffers_for<R: Drop>(alloc: Global, count: u32) -> Result<RunnerBuffers<R>, NoMemory>
    ensures { IfOk result (AreBuffersFor count) }
{
    let count = count as usize;
    let runners = Vec::with_capacity(alloc, count)?;
    let passes = Vec::with_capacity(alloc, count)?;
    let racers = Vec::with_capacity(alloc, count)?;
    Ok(RunnerBuffers {
        runners,
        passes,
        racers,
    })
}

/// Returns the passes and the racers of these workers, in order. Allocates nothing; the capacity is there.
pub fn unzip_runners<R: Drop>(
    runners: Vec<Runner<R>>,
    mut passes: Vec<Pass>,
    mut racers: Vec<R>,
) -> (Vec<Pass>, Vec<R>)
    requires empty { (passes.items ≡ []) × (racers.items ≡ []) }
    requires room { (length runners.items ≤ vec_capacity passes) × (length runners.items ≤ vec_capacity racers) }
    ensures passes { result.0.items ≡ map (λ r. r.pass) runners.items }
    ensures racers { result.1.items ≡ map (λ r. r.racer) runners.items }
{
    for runner in runners {
        let Runner {
            pass,
            racer,
            refused: _,
        } = runner;
        passes.push_reserved(pass);
        racers.push_reserved(racer);
    }
    (passes, racers)
}
