//! The lines of the two constraint files, each appended to a text.

ghost use Rattle.std.specs.Prelude.{◌≡◌, ◌++◌, OnOk};
ghost use Rattle.scenario_make.specs.GeneratedFiles.{comma_prefixed, key_line};

use itoa::Buffer;
use std::alloc::AllocError as NoMemory;

// Appends numbers, each after a comma.
fn push_numbers(text: &mut Vec<u8>, numbers: &[u32]) -> Result<(), NoMemory>
    ensures { OnOk result (text.new.items ≡ text.old.items ++ comma_prefixed numbers.now) }
{
    for n in numbers {
        let mut buffer = Buffer::new();
        text.extend_from_slice(b",")?;
        text.extend_from_slice(buffer.format(*n).as_bytes())?;
    }
    Ok(())
}

/// Appends a line: its key, the numbers of both lists, each after a comma, and the line end. Fails only if memory runs out.
pub(crate) fn push_line(
    text: &mut Vec<u8>,
    key: &[u8],
    first: &[u32],
    others: &[u32],
) -> Result<(), NoMemory>
    ensures { OnOk result (text.new.items ≡ text.old.items ++ key_line key.now (first.now ++ others.now)) }
{
    text.extend_from_slice(key)?;
    push_numbers(text, first)?;
    push_numbers(text, others)?;
    text.extend_from_slice(b"\n")?;
    Ok(())
}
