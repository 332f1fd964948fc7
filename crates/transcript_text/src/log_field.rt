//! Reads the first field of what is left of a log's line in one pass. Most lines of a transcript are lines of logs,
//! so this is the reader's inner loop. A field that the fast path does not know goes to `plain_field`.

ghost use Rattle.std.specs.Prelude.{◌≡◌, ◌≤◌, ◌<◌, ◌∷◌, [], IfSome, Some, length, take, true};
ghost use Rattle.std.specs.Option.{option_map_or};
ghost use Rattle.std.specs.Str.{all_ascii_digits};
ghost use Rattle.std.specs.Str.Parse.{digits_value};
ghost use Rattle.lrat_text.specs.declared.field.Field.TheVariants.{Number};
ghost use Rattle.lrat_text.specs.Lines.{fields_of};
ghost use Rattle.lrat_text.specs.Write.{greatest};
ghost use Rattle.transcript_text.specs.Fields.{IsNumeral, plain_field};

use crate::fields::plain_field;
use clause_db::lit::Lit;
use lrat_text::field::Field;
use lrat_text::lines::split_field;

/// A value up to this can take another decimal digit without exceeding the greatest number of a log's text.
const ROOM_FOR_ONE: u64 = 922_337_203_685_477_579;

/// Returns the first field of a text, its meaning in a log's line, and what is after the space behind it. The last is
/// `None` if the field ends the text.
pub(crate) fn first_field<'a>(text: &'a [u8]) -> (&'a [u8], Option<Field>, Option<&'a [u8]>)
    ensures fields { fields_of text.now ≡ result.0.now ∷ option_map_or (λ rest. fields_of rest.now) result.2 [] }
    ensures said { result.1 ≡ plain_field result.0.now }
    ensures shorter { IfSome result.2 (λ rest. length rest.now < length text.now) }
{
    if let Some((count, lit, rest)) = first_number(text) {
        return (&text[..count], Some(Field::Number(lit)), rest);
    }
    let (field, rest) = split_field(text);
    (field, plain_field(field), rest)
}

// Reads the first field if it is a plainly spelled literal. Returns the field's length, the literal, and what is
// after the space behind it. Returns `None` if the fast path cannot tell.
fn first_number<'a>(text: &'a [u8]) -> Option<(usize, Lit, Option<&'a [u8]>)>
    ensures fields { IfSome result (λ x. fields_of text.now ≡ take x.0 text.now ∷ option_map_or (λ rest. fields_of rest.now) x.2 []) }
    ensures said { IfSome result (λ x. plain_field (take x.0 text.now) ≡ Some (Number x.1)) }
    ensures within { IfSome result (λ x. x.0 ≤ length text.now) }
    ensures shorter { IfSome result (λ x. IfSome x.2 (λ rest. length rest.now < length text.now)) }
{
    let first = text.first()?;
    if *first == b'-' {
        let (count, var, rest) = first_numeral(&text[1..])?;
        let lit = Lit {
            var,
            positive: false,
        };
        return Some((count + 1, lit, rest));
    }
    let (count, var, rest) = first_numeral(text)?;
    let lit = Lit {
        var,
        positive: true,
    };
    Some((count, lit, rest))
}

// Reads the first field if it is a number from 1 in digits without leading zeros. Returns the field's length, the
// number, and what is after the space behind it. Returns `None` if the field is anything else, or if the number may
// be too great for this path.
fn first_numeral<'a>(text: &'a [u8]) -> Option<(usize, u64, Option<&'a [u8]>)>
    ensures fields { IfSome result (λ x. fields_of text.now ≡ take x.0 text.now ∷ option_map_or (λ rest. fields_of rest.now) x.2 []) }
    ensures numeral { IfSome result (λ x. IsNumeral (take x.0 text.now) x.1) }
    ensures within { IfSome result (λ x. x.0 ≤ length text.now) }
    ensures shorter { IfSome result (λ x. IfSome x.2 (λ rest. length rest.now < length text.now)) }
{
    let first = text.first()?;
    if *first == b'0' {
        return None;
    }
    let (count, value) = digits_at(text);
    if value == 0 {
        return None;
    }
    match text.get(count) {
        None => Some((count, value, None)),
        Some(byte) => {
            if *byte == b' ' {
                return Some((count, value, Some(&text[count + 1..])));
            }
            None
        }
    }
}

// Returns how many digits the text begins with, and their value. Stops early at a digit that could exceed the
// greatest number; the digits before it are returned.
fn digits_at(text: &[u8]) -> (usize, u64)
    ensures count { result.0 ≤ length text.now }
    ensures digits { all_ascii_digits (take result.0 text.now) ≡ true }
    ensures value { result.1 ≡ digits_value 10 (take result.0 text.now) }
    ensures few { result.1 ≤ greatest }
{
    let mut value = 0;
    for (i, byte) in text.iter().enumerate() {
        if !byte.is_ascii_digit() {
            return (i, value);
        }
        if value > ROOM_FOR_ONE {
            return (i, value);
        }
        value = 10 * value + u64::from(*byte - b'0');
    }
    (text.len(), value)
}
