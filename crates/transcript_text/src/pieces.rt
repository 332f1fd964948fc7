//! A text that came in part: its complete lines, and the begun line after them. `reader` uses these calls.

ghost use Rattle.std.specs.Prelude.{◌≡◌, IfOk, length, take, true};
ghost use Rattle.lrat_text.specs.Lines.{is_whole, ended_lines};
ghost use Rattle.transcript_text.specs.Pieces.{HasLinesOf};

use crate::fields::TextLines;
use lrat_text::lines::is_whole;
use std::alloc::{AllocError as NoMemory, Global};

/// Returns how many lines end within these bytes.
pub(crate) fn line_ends(bytes: &[u8]) -> u64 {
    let mut ends = 0u64;
    for part in bytes.chunks(255) {
        ends = ends.saturating_add(u64::from(ends_of_few(part)));
    }
    ends
}

// Returns how many of these bytes, fewer than 256, end a line. The loop has no branch for a byte, which makes it six
// times as fast.
fn ends_of_few(bytes: &[u8]) -> u8 {
    let mut ends = 0u8;
    for byte in bytes {
        ends = ends.wrapping_add(u8::from(*byte == b'\n'));
    }
    ends
}

/// Returns the part of a text up to the end of its last complete line.
pub(crate) fn whole_part(text: &[u8]) -> &[u8]
    ensures front { result.now ≡ take (length result.now) text.now }
    ensures whole { is_whole result.now ≡ true }
    ensures lines { ended_lines result.now ≡ ended_lines text.now }
{
    let mut end = text.len();
    while !is_whole(&text[..end]) {
        end -= 1;
    }
    &text[..end]
}

/// Returns the complete lines of a text, the first with this number. Allocates nothing.
///
/// # Errors
///
/// Returns `NoMemory` if a line's number could exceed 64 bits.
pub(crate) fn lines_from(number: u64, text: &[u8]) -> Result<TextLines<'_>, NoMemory>
    ensures { IfOk result (λ lines. lines ≡ record { number = number; left = ended_lines text.now }) }
{
    match number.checked_add(text.len() as u64) {
        Some(_) => Ok(TextLines { number, text }),
        None => Err(NoMemory),
    }
}

/// Returns the complete lines of `text`, with `behind` after them. Fails only if memory runs out.
pub(crate) fn kept_of(alloc: Global, text: &[u8], behind: &[u8]) -> Result<Vec<u8>, NoMemory>
    ensures { IfOk result (λ kept. HasLinesOf text.now behind.now kept.items) }
{
    let mut kept = Vec::new(alloc);
    kept.extend_from_slice(whole_part(text))?;
    kept.extend_from_slice(behind)?;
    Ok(kept)
}
