//! Tie-breaking between variables of equal activity.

use rand_core::utils::NextWord;
use rand_pcg::Lcg64Xsh32;

// The random initial activity of a variable is below this many steps. A preference or a conflict counts for 1.0 or more on the same
// scale, so chance decides ties and hardly anything else. Chosen without a measurement.
const CHANCE_BELOW: f64 = 0.001;

// The number of words from which chance draws.
const WORD_COUNT: f64 = 4_294_967_296.0;

/// How ties in the order of decisions are broken. The same seed and stream break them in the same way. No answer depends on
/// tie-breaking for its correctness.
#[derive(Drop)]
pub enum TieBreaking {
    /// By the places of the variables in the heap, which begins in their order.
    ByPlace,
    /// By a small random activity with which each variable begins.
    ByChance(Lcg64Xsh32),
}

impl TieBreaking {
    /// Breaks ties by place for seed 0, and for any other seed by the random numbers of the seed in this stream.
    pub fn new(seed: u64, stream: u64) -> TieBreaking {
        if seed == 0 {
            return TieBreaking::ByPlace;
        }
        TieBreaking::ByChance(Lcg64Xsh32::new(seed, stream))
    }

    /// Draws the initial activity of the next variable.
    pub fn draw(&mut self) -> f64 {
        match self {
            TieBreaking::ByPlace => 0.0,
            TieBreaking::ByChance(words) => {
                let word: u32 = words.next_word();
                f64::from(word) / WORD_COUNT * CHANCE_BELOW
            }
        }
    }
}
