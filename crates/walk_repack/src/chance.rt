//! Random numbers for a walk.

use rand_core::utils::NextWord;
use rand_pcg::Lcg64Xsh32;

/// The random choices of a walk. The same seed and stream lead to the same choices.
#[derive(Drop)]
pub(crate) struct Chance {
    words: Lcg64Xsh32,
}

impl Chance {
    /// Returns the choices of a seed in this stream.
    pub(crate) fn new(seed: u64, stream: u64) -> Chance {
        Chance {
            words: Lcg64Xsh32::new(seed, stream),
        }
    }

    /// Returns a number below `count`, or 0 if `count` is 0.
    pub(crate) fn below(&mut self, count: u32) -> u32 {
        let word = self.words.next_word();
        if count == 0 {
            return 0;
        }
        word % count
    }

    /// Returns true or false at random.
    pub(crate) fn coin(&mut self) -> bool {
        self.below(2) == 0
    }
}
