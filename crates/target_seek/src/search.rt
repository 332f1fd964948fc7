//! The binary search for the least top channel, as a value that the caller drives. Seven tests suffice, since 14 to
//! 51 are 38 channels.

ghost use Rattle.std.specs.Prelude.{◌≡◌, ◌≤◌, ◌<◌, ◌+◌, ◌++◌, ◌∷◌, ℕ, [], IsSome, List, MatchOption, None, Some, length, ⊤};
ghost use Rattle.pack_defs.specs.Limits.{GREATEST_CHANNEL, LEAST_CHANNEL};
ghost use Rattle.target_seek.specs.BinarySearch.{full_range, found_at, range_after, middle_of, next_at, next_of, stage_after, questions_left};
ghost use Rattle.target_seek.specs.Searching.{IsSearching};
ghost use Rattle.target_seek.specs.TopChannels.{AreTrue, AskedTop, IsSought, IsTruth, SeekBase};

use crate::sought::Sought;
use crate::top_test::TopAnswer;

/// A search for the least top channel up to which the start set fits. While `next` returns a top, the caller tests it
/// and gives the answer to `with_top_answer`; then `found` returns the result. The last top is tested first, then the middle of
/// the tops that are left, at most seven in all. A top with an undecided test counts as one at which the set does not
/// fit.
#[derive(Clone, Copy)]
pub struct TopSearch {
    stage: Stage,
}

impl TopSearch {
    /// Returns a search from `first` to `last`, before any test.
    pub fn new(first: u8, last: u8) -> TopSearch
        requires least { LEAST_CHANNEL ≤ first }
        requires ordered { first ≤ last }
        requires most { last ≤ GREATEST_CHANNEL }
        ensures { IsSearching first last [] result }
    {
        TopSearch {
            stage: Stage::Unasked { first, last },
        }
    }

    /// Returns the top to test next, or `None` once the search is over.
    pub fn next(&self) -> Option<u8>
        ensures next { result ≡ next_of self.now }
        ensures within { (first last : ℕ) (asked : List AskedTop) → IsSearching first last asked self.now →
            MatchOption result ⊤ (λ top. (first ≤ top) × (top ≤ last) × (length asked < 7)) }
    {
        match self.stage {
            Stage::Unasked { last, .. } => Some(last),
            Stage::BinarySearch(left) if left.low < left.high => Some(left.middle()),
            Stage::BinarySearch(_) | Stage::LastIsUnfit | Stage::LastIsOpen => None,
        }
    }

    /// Returns the search after this answer about its next top.
    pub fn with_top_answer(self, answer: TopAnswer) -> TopSearch
        requires { IsSome (next_of self) }
        ensures searching { (first last : ℕ) (asked : List AskedTop) (top : ℕ) → IsSearching first last asked self → next_of self ≡ Some top →
            IsSearching first last (asked ++ record { top = top; answer = answer } ∷ []) result }
        ensures nearer { questions_left result < questions_left self }
    {
        TopSearch {
            stage: self.stage.after(answer),
        }
    }

    /// Returns the result, once the search is over.
    pub fn found(self) -> Sought
        requires { next_of self ≡ None }
        ensures sought { (first last : ℕ) (asked : List AskedTop) → IsSearching first last asked self →
            IsSought first last asked result × (length asked ≤ 7) }
        ensures truth { (base : SeekBase) (first last : ℕ) (asked : List AskedTop) → IsSearching first last asked self → AreTrue base asked →
            IsTruth base first last result }
    {
        match self.stage {
            Stage::Unasked { .. } => unreachable!(),
            Stage::LastIsUnfit => Sought::NoneFits,
            Stage::LastIsOpen => Sought::LastOpen,
            Stage::BinarySearch(left) => left.search_result(),
        }
    }
}

// How far a search has come.
#[derive(Clone, Copy)]
enum Stage {
    // No top was tested yet.
    Unasked { first: u8, last: u8 },
    // The start set does not fit up to the last top.
    LastIsUnfit,
    // The test of the last top is undecided.
    LastIsOpen,
    // The set fits up to the last top, and these tops are left.
    BinarySearch(TopRange),
}

impl Stage {
    // Returns the stage after this answer.
    fn after(self, answer: TopAnswer) -> Stage
        requires { IsSome (next_at self) }
        ensures { result ≡ stage_after self answer }
    {
        match self {
            Stage::Unasked { first, last } => match answer {
                TopAnswer::Fits => Stage::BinarySearch(TopRange::all(first, last)),
                TopAnswer::Unfit => Stage::LastIsUnfit,
                TopAnswer::Open => Stage::LastIsOpen,
            },
            Stage::BinarySearch(left) => Stage::BinarySearch(left.after(left.middle(), answer)),
            Stage::LastIsUnfit | Stage::LastIsOpen => unreachable!(),
        }
    }
}

// The answer about the top below the lowest one that is left.
#[derive(Clone, Copy)]
enum AnswerBelow {
    // The lowest top that is left is the first of all.
    Nothing,
    Unfit,
    Open,
}

// The tops that are left. The start set fits at the highest, and is not known to fit below the lowest.
#[derive(Clone, Copy)]
struct TopRange {
    low: u8,
    high: u8,
    below: AnswerBelow,
}

impl TopRange {
    // Returns all tops from the first to the last.
    fn all(first: u8, last: u8) -> TopRange
        ensures { result ≡ full_range first last }
    {
        TopRange {
            low: first,
            high: last,
            below: AnswerBelow::Nothing,
        }
    }

    // Returns the top in the middle, the lower one of two.
    fn middle(self) -> u8
        requires { self.low < self.high }
        ensures { result ≡ middle_of self }
    {
        self.low + (self.high - self.low) / 2
    }

    // Returns the tops that are left after this answer about one of them.
    fn after(self, top: u8, answer: TopAnswer) -> TopRange
        requires { top < self.high }
        ensures { result ≡ range_after self top answer }
    {
        match answer {
            TopAnswer::Fits => TopRange { high: top, ..self },
            TopAnswer::Unfit => self.above(top, AnswerBelow::Unfit),
            TopAnswer::Open => self.above(top, AnswerBelow::Open),
        }
    }

    // Returns the tops above this one, for which `below` is the answer.
    fn above(self, top: u8, below: AnswerBelow) -> TopRange
        requires { top < self.high }
        ensures { result ≡ record { low = top + 1; high = self.high; below = below } }
    {
        TopRange {
            low: top + 1,
            high: self.high,
            below,
        }
    }

    // Returns the result, if one top is left.
    fn search_result(self) -> Sought
        ensures { result ≡ found_at self.high self.below }
    {
        let top = self.high;
        match self.below {
            AnswerBelow::Nothing | AnswerBelow::Unfit => Sought::Least { top },
            AnswerBelow::Open => Sought::AboveOpen { top },
        }
    }
}
