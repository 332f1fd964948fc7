//! Why a transcript is rejected, and the message that says so.
//!
//! `shown` and `resume` use it.

ghost use Rattle.std.specs.Prelude.{◌≡◌, ◌≤◌, ◌++◌};
ghost use Rattle.commands.specs.Outside.{IsLinePrintedTo};
ghost use Rattle.commands.specs.Verified.{fault_line, unread_text, why_text};

use crate::messages::{print_line, print_line_at};
use outside_io::sink::Sink;
use transcript_check::ShownWhy;
use transcript_text::TextErr;

/// Why a transcript is rejected.
#[derive(Clone, Copy, Debug, PartialEq, Eq)]
pub enum TranscriptFault {
    /// The text is not a transcript.
    Unread(TextErr),
    /// This is the first step that could not be verified. Step 0 is the start.
    Unshown { step: u64, why: ShownWhy },
}

// Returns the words for why a step could not be verified, with the line's end.
#[tactic(auto, unfolding(crate::specs::Verified::why_text))]
fn why_text(why: ShownWhy) -> &'static str
    ensures { result.now ≡ why_text why }
{
    match why {
        ShownWhy::Order => ": order\n",
        ShownWhy::NotValid(_) => ": not valid\n",
    }
}

// Prints why the text of this name is not a transcript.
#[tactic(auto, unfolding(crate::specs::Verified::unread_text))]
fn print_unread<K: Sink>(out: &mut K, name: &str, why: TextErr)
    ensures says { IsLinePrintedTo (K.modelled out.old) (K.modelled out.new) (name.now ++ unread_text why) }
    ensures counted { (K.modelled out.old).faults ≤ (K.modelled out.new).faults }
{
    match why {
        TextErr::Version => print_line(out, &[name, ": version\n"]),
        TextErr::BadLine { n } => print_line_at(out, name, ": line ", n, ": bad line\n"),
        TextErr::Truncated => print_line(out, &[name, ": truncated\n"]),
        TextErr::NoMemory => print_line(out, &[name, ": out of memory\n"]),
    }
}

/// Prints why the transcript of this name is rejected. Allocates no memory.
#[tactic(auto, unfolding(crate::specs::Verified::fault_text))]
pub fn print_fault<K: Sink>(out: &mut K, name: &str, fault: TranscriptFault)
    ensures says { IsLinePrintedTo (K.modelled out.old) (K.modelled out.new) (fault_line name.now fault) }
    ensures counted { (K.modelled out.old).faults ≤ (K.modelled out.new).faults }
{
    match fault {
        TranscriptFault::Unread(why) => print_unread(out, name, why),
        TranscriptFault::Unshown { step, why } => print_line_at(
            out,
            name,
            ": step ",
            step,
            why_text(why),
        ),
    }
}
