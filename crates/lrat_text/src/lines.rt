//! Splits a text into lines, and a line into fields or words. Each part is a slice of the text.

ghost use Rattle.std.specs.Prelude.{◌≡◌, ◌<◌, ◌∷◌, [], IfSome, MatchOption, false, length, slice_index_or};
ghost use Rattle.std.specs.Option.{option_map_or};
ghost use Rattle.lrat_text.specs.Lines.{fields_of, is_space_or_tab, is_whole, ended_lines, without_return, words_of};

/// The byte that ends a line.
const LINE_FEED: u8 = 10;

/// The byte that may precede a line end.
const RETURN: u8 = 13;

/// Returns the first complete line of a text without its end, and the text after it, or `None` if no line is
/// complete.
pub fn split_line(text: &[u8]) -> Option<(&[u8], &[u8])>
    ensures lines { MatchOption result (ended_lines text.now ≡ []) (λ x. ended_lines text.now ≡ x.0.now ∷ ended_lines x.1.now) }
    ensures shorter { IfSome result (λ x. length x.1.now < length text.now) }
{
    for (i, byte) in text.iter().enumerate() {
        if *byte == LINE_FEED {
            return Some((&text[..i], &text[i + 1..]));
        }
    }
    None
}

/// Whether the text is empty or ends with a line end.
pub fn is_whole(text: &[u8]) -> bool
    ensures { result ≡ is_whole text.now }
{
    match text.last() {
        Some(byte) => *byte == LINE_FEED,
        None => true,
    }
}

/// Returns the line without a carriage return at its end.
pub(crate) fn without_return(line: &[u8]) -> &[u8]
    ensures { result.now ≡ without_return line.now }
{
    match line.last() {
        Some(byte) => {
            if *byte == RETURN {
                &line[..line.len() - 1]
            } else {
                line
            }
        }
        None => line,
    }
}

/// Returns the first field of a line whose fields are separated by single spaces, and what is after the space. The
/// second is `None` if the field ends the line.
pub fn split_field(line: &[u8]) -> (&[u8], Option<&[u8]>)
    ensures fields { fields_of line.now ≡ result.0.now ∷ option_map_or (λ rest. fields_of rest.now) result.1 [] }
    ensures alone { fields_of result.0.now ≡ result.0.now ∷ [] }
    ensures shorter { IfSome result.1 (λ rest. length rest.now < length line.now) }
{
    for (i, byte) in line.iter().enumerate() {
        if *byte == b' ' {
            return (&line[..i], Some(&line[i + 1..]));
        }
    }
    (line, None)
}

// Whether the byte separates words.
fn is_blank(byte: u8) -> bool
    ensures { result ≡ is_space_or_tab byte }
{
    byte == b' ' || byte == b'\t'
}

// Returns the first word of a line that begins with one, and what follows the blank after it.
fn split_word(line: &[u8]) -> (&[u8], &[u8])
    requires some { 0 < length line.now }
    requires word { is_space_or_tab (slice_index_or line.now 0 0) ≡ false }
    ensures words { words_of line.now ≡ result.0.now ∷ words_of result.1.now }
    ensures shorter { length result.1.now < length line.now }
{
    for (i, byte) in line.iter().enumerate() {
        if is_blank(*byte) {
            return (&line[..i], &line[i + 1..]);
        }
    }
    (line, &[])
}

/// Returns the first word of a line, and what is after it, or `None` if the line has only blanks. Blanks may surround
/// words.
pub(crate) fn next_word(line: &[u8]) -> Option<(&[u8], &[u8])>
    ensures words { MatchOption result (words_of line.now ≡ []) (λ x. words_of line.now ≡ x.0.now ∷ words_of x.1.now) }
    ensures shorter { IfSome result (λ x. length x.1.now < length line.now) }
{
    for (i, byte) in line.iter().enumerate() {
        if !is_blank(*byte) {
            return Some(split_word(&line[i..]));
        }
    }
    None
}
