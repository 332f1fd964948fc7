//! Writes all bytes to a file or to the standard output of the system. `real` and `atomic_store` call `write_all`.
ghost use Rattle.std.specs.Prelude.{◌≡◌, length, IsOk, OnOk};
ghost use Rattle.std.specs.Io.KnownBytes.{Appends};

use crate::sink::Failed;
use std::io::Write;

/// Writes all of these bytes. Fails if the writer fails or accepts no byte.
pub(crate) fn write_all<W: Write>(to: &mut W, bytes: &[u8]) -> Result<(), Failed>
    ensures nothing { length bytes.now ≡ 0 → IsOk result }
    // If the writer is modelled, all of the bytes were appended to its contents.
    ensures whole { OnOk result (Appends (W.contents to.old) (W.contents to.new) bytes.now) }
{
    let mut rest = bytes;
    while !rest.is_empty() {
        match to.write(rest) {
            Ok(count) if count > 0 => rest = &rest[count..],
            _ => return Err(Failed),
        }
    }
    Ok(())
}
