//! Prints the messages that say why a command ended.
//!
//! The other modules print their messages with it, and so does `auction_cmd`. A failed write of a message is ignored: the status
//! still says how the command ended.

ghost use Rattle.std.specs.Prelude.{◌≤◌, ◌++◌, OnErr, decimal};
ghost use Rattle.std.specs.List.{flat_map};
ghost use Rattle.outside_io.specs.Faults.{HasRisen};
ghost use Rattle.outside_io.specs.Loads.{Writes};
ghost use Rattle.commands.specs.Outside.{IsLinePrintedTo};

pub mod explain;
pub(crate) mod fault;
pub(crate) mod refusal;

use itoa::Buffer;
use outside_io::sink::{Failed, Sink};

// Writes these parts, up to the first that fails, with the effect of a single write of them all. Allocates no memory.
fn write_parts<K: Sink>(out: &mut K, parts: &[&str]) -> Result<(), Failed>
    ensures modelled { Writes (K.modelled out.old).held (K.modelled out.new).held (flat_map (λ part. part.now) parts.now) result }
    ensures counted { (K.modelled out.old).faults ≤ (K.modelled out.new).faults }
    ensures failed { OnErr result (HasRisen (K.modelled out.old).faults (K.modelled out.new).faults) }
{
    let Some((first, rest)) = parts.split_first() else {
        return Ok(());
    };
    out.write(first.as_bytes())?;
    write_parts(out, rest)
}

/// Prints a line of these parts, as far as the sink takes it. Allocates no memory.
pub fn print_line<K: Sink>(out: &mut K, parts: &[&str])
    ensures says { IsLinePrintedTo (K.modelled out.old) (K.modelled out.new) (flat_map (λ part. part.now) parts.now) }
    ensures counted { (K.modelled out.old).faults ≤ (K.modelled out.new).faults }
{
    let _ = write_parts(out, parts);
}

/// Prints this text, as far as the sink takes it. Allocates no memory.
pub fn print_text<K: Sink>(out: &mut K, text: &[u8])
    ensures says { IsLinePrintedTo (K.modelled out.old) (K.modelled out.new) text.now }
    ensures counted { (K.modelled out.old).faults ≤ (K.modelled out.new).faults }
{
    let _ = out.write(text);
}

/// Prints what is wrong with the file of this name and at which place. Allocates no memory.
pub fn print_line_at<'p, K: Sink>(out: &mut K, name: &'p str, what: &'p str, at: u64, why: &'p str)
    ensures says { IsLinePrintedTo (K.modelled out.old) (K.modelled out.new) (name.now ++ (what.now ++ (decimal at ++ why.now))) }
    ensures counted { (K.modelled out.old).faults ≤ (K.modelled out.new).faults }
{
    let mut place = Buffer::new();
    print_line(out, &[name, what, place.format(at), why]);
}
