//! Prints why the reading of inputs stopped, and that memory ran out.
//!
//! The commands call it, and `auction_cmd` if memory runs out before a command begins.

ghost use Rattle.std.specs.Prelude.{◌≡◌, ◌≤◌, [], None};
ghost use Rattle.commands.specs.Ends.{ExplainsHalt};
ghost use Rattle.commands.specs.Outside.{IsLinePrintedTo};
ghost use Rattle.commands.specs.Messages.{memory_line};
ghost use Rattle.commands.specs.Statuses.{NO_MEMORY};
ghost use Rattle.command_words.specs.Words.{inputs_view};

use crate::finish::Finish;
use crate::inputs::input_file::Stop;
use crate::messages::print_line;
use crate::messages::refusal::print_refused_input;
use crate::status::{NO_MEMORY, REFUSED, UNREAD};
use command_words::run_words::InputArgs;
use outside_io::sink::Sink;

/// Prints why these inputs were not read, and returns the status for it: `UNREAD`, `REFUSED` or `NO_MEMORY`. Allocates no memory.
pub fn explain<K: Sink>(out: &mut K, files: &InputArgs<'_>, stop: Stop) -> u8
    ensures explains { ExplainsHalt (inputs_view files.now) stop
        (K.modelled out.old).held (K.modelled out.new).held (K.modelled out.old).faults (K.modelled out.new).faults result }
    ensures counted { (K.modelled out.old).faults ≤ (K.modelled out.new).faults }
{
    match stop {
        Stop::CannotRead(input) => {
            print_line(out, &["cannot read ", files.of(input), "\n"]);
            UNREAD
        }
        Stop::Refused(why) => {
            print_refused_input(out, files, why);
            REFUSED
        }
        Stop::NoMemory => {
            print_out_of_memory(out);
            NO_MEMORY
        }
    }
}

/// Prints that memory ran out. Allocates none.
pub fn print_out_of_memory<K: Sink>(out: &mut K)
    ensures says { IsLinePrintedTo (K.modelled out.old) (K.modelled out.new) memory_line }
    ensures counted { (K.modelled out.old).faults ≤ (K.modelled out.new).faults }
{
    print_line(out, &["out of memory\n"]);
}

/// Prints that memory ran out, and returns the end with the status `NO_MEMORY` and no record.
pub fn end_out_of_memory<K: Sink>(out: &mut K) -> Finish
    ensures status { result.status ≡ NO_MEMORY }
    ensures none { result.result ≡ None }
    ensures no_other { result.below ≡ None }
    ensures no_batch { result.batch ≡ [] }
    ensures line { IsLinePrintedTo (K.modelled out.old) (K.modelled out.new) memory_line }
{
    print_out_of_memory(out);
    Finish::without_record(NO_MEMORY)
}
