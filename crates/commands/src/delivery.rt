//! Stores texts under their names, and prints a summary after them.
//!
//! Every command that stores a file does it here. A command that also prints a summary prints it once all its files are stored.

ghost use Rattle.std.specs.Prelude.{◌≡◌, ◌≢◌, [], IfErr, IsSome, OnOk, map};
ghost use Rattle.commands.specs.Calls.{HasAsked};
ghost use Rattle.commands.specs.Delivery.{AreAllStored, Delivers, ExplainsStore, IsNotStored, IsStored, StopsAtOne, named, named_text};
ghost use Rattle.commands.specs.Faults.{AreFaultsCounted};
ghost use Rattle.commands.specs.Outside.{outside};

use crate::messages::explain::print_out_of_memory;
use crate::messages::print_line;
use crate::status::{NO_MEMORY, UNWRITTEN};
use outside_io::folder::{Folder, NewFile, StoreErr};
use outside_io::sink::Sink;

/// Stores a text under this name.
///
/// # Errors
///
/// The exit status, `UNWRITTEN` or `NO_MEMORY`, if the text is not stored. A line on the sink says why. In a folder whose
/// contents are part of the model, the name may then hold anything or be gone, and all other files are unchanged.
pub fn store<F: Folder, K: Sink>(
    folder: &mut F,
    out: &mut K,
    name: &str,
    text: &[u8],
) -> Result<(), u8>
    ensures stored { OnOk result (IsStored (named name.now text.now)
        (outside (F.modelled folder.old) (K.modelled out.old)) (outside (F.modelled folder.new) (K.modelled out.new))) }
    ensures faults_unchanged { OnOk result ((F.modelled folder.new).faults ≡ (F.modelled folder.old).faults) }
    ensures counted { IfErr result (AreFaultsCounted
        (outside (F.modelled folder.old) (K.modelled out.old)) (outside (F.modelled folder.new) (K.modelled out.new))) }
    ensures not_stored { IfErr result (IsNotStored (named name.now text.now)
        (outside (F.modelled folder.old) (K.modelled out.old)) (outside (F.modelled folder.new) (K.modelled out.new))) }
{
    match folder.store(name, text) {
        Ok(()) => Ok(()),
        Err(why) => Err(print_unstored(out, name, why)),
    }
}

/// Stores these texts under their names, in order. Over the system's files, none is in its place before all are written.
///
/// # Errors
///
/// The exit status, `UNWRITTEN` or `NO_MEMORY`, if a text is not stored. A line on the sink says why. In a folder whose contents
/// are part of the model, the texts before that one are stored, its name may hold anything or be gone, and other files are
/// unchanged.
pub fn store_all<F: Folder, K: Sink>(
    folder: &mut F,
    out: &mut K,
    texts: &[NewFile<'_>],
) -> Result<(), u8>
    ensures stored { OnOk result (AreAllStored (map named_text texts.now)
        (outside (F.modelled folder.old) (K.modelled out.old)) (outside (F.modelled folder.new) (K.modelled out.new))) }
    ensures faults_unchanged { OnOk result ((F.modelled folder.new).faults ≡ (F.modelled folder.old).faults) }
    ensures sink_faults_unchanged { OnOk result ((K.modelled out.new).faults ≡ (K.modelled out.old).faults) }
    ensures counted { IfErr result (AreFaultsCounted
        (outside (F.modelled folder.old) (K.modelled out.old)) (outside (F.modelled folder.new) (K.modelled out.new))) }
    ensures stopped { IfErr result (StopsAtOne (map named_text texts.now)
        (outside (F.modelled folder.old) (K.modelled out.old)) (outside (F.modelled folder.new) (K.modelled out.new))) }
    ensures asked { texts.now ≢ [] → IsSome (F.modelled folder.new).calls → HasAsked (F.modelled folder.old).calls (F.modelled folder.new).calls }
{
    match folder.store_all(texts) {
        Ok(()) => Ok(()),
        Err(unstored) => Err(print_unstored(out, texts[unstored.at].name, unstored.why)),
    }
}

// Prints why the text under this name was not stored, and returns the status for it. Allocates no memory.
fn print_unstored<K: Sink>(out: &mut K, name: &str, why: StoreErr) -> u8
    ensures { ExplainsStore name.now why
        (K.modelled out.old).held (K.modelled out.new).held (K.modelled out.old).faults (K.modelled out.new).faults result }
{
    match why {
        StoreErr::Failed => {
            print_line(out, &["cannot write ", name, "\n"]);
            UNWRITTEN
        }
        StoreErr::NoMemory => {
            print_out_of_memory(out);
            NO_MEMORY
        }
    }
}

/// Stores these texts under their names, in order, and then prints the summary. Returns `done` if all succeeds, else the status
/// of what failed. If a text is not stored, the summary is not printed.
pub fn deliver<F: Folder, K: Sink>(
    folder: &mut F,
    out: &mut K,
    texts: &[NewFile<'_>],
    summary: &[u8],
    done: u8,
) -> u8
    ensures delivers { Delivers (map named_text texts.now) summary.now done
        (outside (F.modelled folder.old) (K.modelled out.old)) (outside (F.modelled folder.new) (K.modelled out.new)) result }
    ensures counted { AreFaultsCounted
        (outside (F.modelled folder.old) (K.modelled out.old)) (outside (F.modelled folder.new) (K.modelled out.new)) result }
    ensures asked { texts.now ≢ [] → IsSome (F.modelled folder.new).calls → HasAsked (F.modelled folder.old).calls (F.modelled folder.new).calls }
{
    if let Err(status) = store_all(folder, out, texts) {
        return status;
    }
    match out.write(summary) {
        Ok(()) => done,
        Err(_) => UNWRITTEN,
    }
}
