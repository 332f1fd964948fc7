//! Fitting is monotone in the top channel.

ghost use Rattle.std.specs.Prelude.{◌≤◌, ℕ, IsTrue};
ghost use Rattle.target_seek.specs.TopChannels.{SeekBase, fits_at};

/// If the start set fits up to a top channel, it fits up to each greater one. The same channels serve: each station
/// may use more, and a greater top adds only pairs on channels that are not in use.
pub fn prove_fits_above()
    ensures { (base : SeekBase) (top greater : ℕ) → IsTrue (fits_at base top) → top ≤ greater → IsTrue (fits_at base greater) }
{}
