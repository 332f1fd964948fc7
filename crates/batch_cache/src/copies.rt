//! Copies refutations.

ghost use Rattle.std.specs.Prelude.{◌≡◌, IfOk};

use cert_types::answer::Refutation;
use pack_defs::items::Items;
use rup_check::line::Log;
use std::alloc::{AllocError as NoMemory, Global};

/// Returns a copy of the refutation. Fails only if memory runs out.
pub(crate) fn copy_of(alloc: Global, refutation: &Refutation) -> Result<Refutation, NoMemory>
    ensures { IfOk result (λ copy. copy ≡ refutation.now) }
{
    match refutation {
        Refutation::Proof { subset, log } => Ok(Refutation::Proof {
            subset: Items::from_vec(Vec::from_slice(alloc, subset.as_slice())?),
            log: Log {
                lines: log.lines.copied(alloc)?,
            },
        }),
        Refutation::Dead(pair) => Ok(Refutation::Dead(*pair)),
    }
}
