//! The command `check`: reads the inputs and prints their counts.
//!
//! Only `auction_cmd` calls it.

ghost use Rattle.std.specs.Prelude.{◌≡◌, [], IfOk, None};
ghost use Rattle.commands.specs.Check.{counts_text};
ghost use Rattle.commands.specs.Ends.{CheckEnds};
ghost use Rattle.commands.specs.Faults.{AreFaultsCounted};
ghost use Rattle.commands.specs.Outside.{outside};
ghost use Rattle.command_words.specs.Words.{inputs_view};

use crate::finish::Finish;
use crate::inputs::{Inputs, read_inputs};
use crate::messages::explain::{end_out_of_memory, explain};
use crate::status::{DONE, UNWRITTEN};
use command_words::run_words::InputArgs;
use outside_io::folder::Folder;
use outside_io::sink::Sink;
use result_text::counts::push_count;
use std::alloc::{AllocError as NoMemory, Global};

// Returns the text of the inputs' counts, each on a line of its own.
#[tactic(auto, unfolding(crate::specs::Check::counts_text))]
fn counts(alloc: Global, inputs: &Inputs) -> Result<Vec<u8>, NoMemory>
    ensures { IfOk result (λ text. text.items ≡ counts_text inputs.now) }
{
    let mut text = Vec::new(alloc);
    push_count(&mut text, "stations", u64::from(inputs.book.len()))?;
    push_count(&mut text, "pairs", inputs.book.pairs().len() as u64)?;
    push_count(&mut text, "self-pairs", inputs.self_pairs)?;
    push_count(&mut text, "strangers", inputs.strangers)?;
    Ok(text)
}

/// Reads the inputs and prints four counts. Stores nothing and returns no record.
///
/// The counts are the stations of the book, its pairs, and two counts of fields of the rows file. The first is of fields that
/// pair a station with itself. The second is of other fields whose pair has a station without a domain row.
pub fn check<F: Folder, K: Sink>(
    alloc: Global,
    files: &InputArgs<'_>,
    folder: &mut F,
    out: &mut K,
) -> Finish
    ensures ends { CheckEnds (inputs_view files.now)
        (outside (F.modelled folder.old) (K.modelled out.old)) (outside (F.modelled folder.new) (K.modelled out.new)) result.status result.result }
    ensures no_other { result.below ≡ None }
    ensures no_batch { result.batch ≡ [] }
    ensures counted { AreFaultsCounted
        (outside (F.modelled folder.old) (K.modelled out.old)) (outside (F.modelled folder.new) (K.modelled out.new)) result.status }
{
    let inputs = match read_inputs(alloc, folder, files) {
        Ok(inputs) => inputs,
        Err(stop) => return Finish::without_record(explain(out, files, stop)),
    };
    let Ok(text) = counts(alloc, &inputs) else {
        return end_out_of_memory(out);
    };
    match out.write(&text) {
        Ok(()) => Finish::without_record(DONE),
        Err(_) => Finish::without_record(UNWRITTEN),
    }
}
