//! Reads numbers from fields, digit by digit and without a copy.

ghost use Rattle.std.specs.Prelude.{◌≡◌};
ghost use Rattle.lrat_text.specs.Read.{field_of, natural, signed_field};

use clause_db::lit::Lit;

/// The greatest number in a log's text, 2^63 - 1.
pub const GREATEST: u64 = 9_223_372_036_854_775_807;

/// The number in a field of a log's line.
#[derive(Clone, Copy, Debug, PartialEq, Eq)]
pub enum Field {
    /// 0, which ends a list.
    End,
    /// A literal; if it is positive, also the number of its variable.
    Number(Lit),
}

/// Returns the number that the digits spell, with leading zeros allowed. Returns `None` if the field is empty, has
/// another byte than a digit, or exceeds `most`.
pub fn natural(most: u64, field: &[u8]) -> Option<u64>
    ensures { result ≡ natural most field.now }
{
    if field.is_empty() {
        return None;
    }
    let mut value = 0;
    for byte in field {
        if !byte.is_ascii_digit() {
            return None;
        }
        let digit = u64::from(*byte - b'0');
        if value > most / 10 {
            return None;
        }
        if digit > most - 10 * value {
            return None;
        }
        value = 10 * value + digit;
    }
    Some(value)
}

// The field's meaning, given the sign and the number.
fn signed(positive: bool, n: u64) -> Option<Field>
    ensures { result ≡ signed_field positive n }
{
    if n == 0 {
        if positive {
            return Some(Field::End);
        }
        return None;
    }
    Some(Field::Number(Lit { var: n, positive }))
}

/// Returns the meaning of a field of a log's line. The field may have a minus sign. Returns `None` if it is no number
/// up to [`GREATEST`].
#[tactic(auto, unfolding(crate::specs::Read::field_of))]
pub fn field_of(field: &[u8]) -> Option<Field>
    ensures { result ≡ field_of field.now }
{
    let Some(first) = field.first() else {
        return None;
    };
    if *first == b'-' {
        let n = natural(GREATEST, &field[1..])?;
        return signed(false, n);
    }
    let n = natural(GREATEST, field)?;
    signed(true, n)
}
