//! The command `verify`: checks a transcript step by step and prints the result that it certifies.
//!
//! `shown` reads and checks the transcript. Only `auction_cmd` calls `verify`, for `verify-live` too. `import` also uses
//! `result_text`.

ghost use Rattle.std.specs.Prelude.{◌≡◌, [], IfOk, None};
ghost use Rattle.pack_defs.specs.Scenario.{IsWithinLimits};
ghost use Rattle.auction_core.specs.Backed.{undecided_of};
ghost use Rattle.commands.specs.Ends.{VerifyEnds};
ghost use Rattle.commands.specs.Faults.{AreFaultsCounted};
ghost use Rattle.commands.specs.Outside.{outside};
ghost use Rattle.commands.specs.Records.{IsRecordIn, result_of};
ghost use Rattle.command_words.specs.Words.{verify_view};

use crate::finish::Finish;
use crate::inputs::Inputs;
use crate::messages::explain::end_out_of_memory;
use crate::run::done_status;
use crate::shown::{ShownAuction, read_verified};
use crate::status::UNWRITTEN;
use auction_core::record::Record;
use command_words::run_words::VerifyArgs;
use outside_io::folder::Folder;
use outside_io::sink::Sink;
use result_text::rows::result_csv;
use std::alloc::{AllocError as NoMemory, Global};

/// Returns the text of the record's result.
///
/// # Errors
///
/// Memory ran out. Then no text is returned.
pub fn result_text(alloc: Global, inputs: &Inputs, rec: &Record) -> Result<Vec<u8>, NoMemory>
    requires limits { IsWithinLimits inputs.now.scenario }
    requires of { IsRecordIn rec.now.order inputs.now rec.now }
    ensures { IfOk result (λ text. text.items ≡ result_of rec.now.order inputs.now (undecided_of rec.now.steps)) }
{
    let text = result_csv(alloc, rec, &inputs.book)?;
    Ok(text)
}

/// Reads the inputs and the transcript, checks each step, and prints the result of the record that the transcript certifies.
/// Stores nothing.
pub fn verify<F: Folder, K: Sink>(
    alloc: Global,
    files: &VerifyArgs<'_>,
    folder: &mut F,
    out: &mut K,
) -> Finish
    ensures ends { VerifyEnds (verify_view files.now)
        (outside (F.modelled folder.old) (K.modelled out.old)) (outside (F.modelled folder.new) (K.modelled out.new)) result.status result.result }
    ensures no_other { result.below ≡ None }
    ensures no_batch { result.batch ≡ [] }
    ensures counted { AreFaultsCounted
        (outside (F.modelled folder.old) (K.modelled out.old)) (outside (F.modelled folder.new) (K.modelled out.new)) result.status }
{
    let ShownAuction { inputs, record } = match read_verified(alloc, files, folder, out) {
        Ok(shown) => shown,
        Err(finish) => return finish,
    };
    let Ok(result) = result_text(alloc, &inputs, &record) else {
        return end_out_of_memory(out);
    };
    let done = done_status(&record);
    match out.write(&result) {
        Ok(()) => Finish::with_record(done, record),
        Err(_) => Finish::with_record(UNWRITTEN, record),
    }
}
