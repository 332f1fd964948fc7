//! Numbers in bytes: seven bits a byte, the least first, and 128 added to each byte except a number's last (LEB128).

ghost use Rattle.std.specs.Prelude.{◌≡◌, ◌++◌, ◌∷◌, [], List, ℕ, MatchOption, OnOk};
ghost use Rattle.rup_check.specs.Packed.{Spells, TakesByte, no_digits, numbers_of, with_digit};

use std::alloc::AllocError as NoMemory;

/// A partly read number: the value of its digits so far, and the weight of the next digit.
#[derive(Clone, Copy, Debug, PartialEq, Eq)]
pub(crate) struct Digits {
    pub(crate) part: u64,
    pub(crate) weight: u64,
}

impl Digits {
    // Returns the state in which nothing is read.
    fn none() -> Digits
        ensures { result ≡ no_digits }
    {
        Digits { part: 0, weight: 1 }
    }

    // Reads a byte. Returns the number if this was its last byte.
    fn take(&mut self, byte: u8) -> Option<u64>
        ensures { TakesByte self.old self.new byte result }
    {
        let byte = byte as u64;
        if byte < 128 {
            return Some(self.with_digit(byte));
        }
        self.part = self.with_digit(byte - 128);
        self.weight = self.weight.wrapping_mul(128);
        None
    }

    // Returns the value with one more digit.
    fn with_digit(&self, digit: u64) -> u64
        ensures { result ≡ with_digit self.now digit }
    {
        self.part.wrapping_add(digit.wrapping_mul(self.weight))
    }
}

/// Returns the first number of the bytes, and the bytes after it.
pub(crate) fn first_number(bytes: &[u8]) -> Option<(u64, &[u8])>
    ensures { MatchOption result (numbers_of bytes.now ≡ []) (λ found. numbers_of bytes.now ≡ found.0 ∷ numbers_of found.1.now) }
{
    let mut digits = Digits::none();
    for (i, byte) in bytes.iter().enumerate() {
        if let Some(number) = digits.take(*byte) {
            return Some((number, &bytes[i + 1..]));
        }
    }
    None
}

/// Appends a number to the bytes. Fails only if memory runs out.
pub(crate) fn push_number(bytes: &mut Vec<u8>, number: u64) -> Result<(), NoMemory>
    ensures { (more : List ℕ) × (bytes.new.items ≡ bytes.old.items ++ more)
        × OnOk result (Spells more (number ∷ [])) }
{
    let mut rest = number;
    'digits: while rest >= 128 {
        bytes.push((128 + rest % 128) as u8)?;
        rest /= 128;
    }
    bytes.push(rest as u8)?;
    Ok(())
}
