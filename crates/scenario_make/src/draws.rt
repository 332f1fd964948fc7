//! One draw: the next word of the generator, reduced to a range.

ghost use Rattle.std.specs.Prelude.{◌≡◌, ◌<◌, ◌%◌};
ghost use Rattle.rand_pcg.specs.Pcg.{pcg32};

use rand_core::utils::NextWord;
use rand_pcg::Lcg64Xsh32;

/// Returns the next word modulo `modulus`.
pub(crate) fn draw(words: &mut Lcg64Xsh32, modulus: u32) -> u32
    requires { 0 < modulus }
    ensures value { result ≡ (pcg32 words.old).0 % modulus }
    ensures next { words.new ≡ (pcg32 words.old).1 }
{
    words.next_word() % modulus
}
