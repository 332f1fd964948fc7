//! The test of a top channel.

ghost use Rattle.std.specs.Prelude.{◌≡◌, ◌≤◌, ◌++◌, ◌∷◌, [], IfErr, IfOk};
ghost use Rattle.pack_defs.specs.Limits.{GREATEST_CHANNEL, LEAST_CHANNEL};
ghost use Rattle.target_seek.specs.TopChannels.{IsTrueAt};

use std::alloc::AllocError as NoMemory;

/// The answer of a test: whether the start set fits up to the top channel.
#[derive(Clone, Copy, Debug, PartialEq, Eq)]
pub enum TopAnswer {
    /// The set fits.
    Fits,
    /// The set does not fit.
    Unfit,
    /// The test is undecided.
    Open,
}

/// Tests whether the start set fits up to a top channel.
pub trait TopTest {
    ghost use Rattle.std.specs.Prelude.{List};
    ghost use Rattle.target_seek.specs.TopChannels.{AskedTop, SeekBase};

    /// All that the start set and its fitting depend on, except the top channel.
    ghost base: { Self → SeekBase };

    /// The tops that were tested so far, in order, with the answers.
    ghost asked: { Self → List AskedTop };

    /// Tests whether the start set fits up to this top channel. The answers `Fits` and `Unfit` are true.
    ///
    /// # Errors
    ///
    /// Fails only if memory runs out, and then the test may be repeated.
    fn ask(&mut self, top: u8) -> Result<TopAnswer, NoMemory>
        requires least { LEAST_CHANNEL ≤ top }
        requires most { top ≤ GREATEST_CHANNEL }
        ensures base { base self.new ≡ base self.old }
        ensures truth { IfOk result (IsTrueAt (base self.old) top) }
        ensures asked { IfOk result (λ answer. asked self.new ≡ asked self.old ++ record { top = top; answer = answer } ∷ []) }
        ensures unasked { IfErr result (λ _. asked self.new ≡ asked self.old) };
}
