//! Laws of a transcript that is cut after some of its steps. Each function is empty; its clauses are the law.

ghost use Rattle.std.specs.Prelude.{◌≡◌, ◌<◌, ◌≤◌, ℕ, Some, None, length, take};
ghost use Rattle.pack_defs.specs.Book.{BookView};
ghost use Rattle.pack_defs.specs.declared.scenario.Scenario.{Scenario};
ghost use Rattle.auction_core.specs.declared.transcript.Transcript.{Transcript};
ghost use Rattle.auction_core.specs.LogNumbers.{steps_in};
ghost use Rattle.auction_core.specs.NotShown.{NotShown, first_steps, not_kept, not_shown, within_steps};
ghost use Rattle.auction_core.specs.Prefix.{IsPrefix};
ghost use Rattle.auction_core.specs.Rule.{IsAuction};

/// A transcript that is cut after some steps has the same first error as the complete one, if that error is in its start or in
/// one of these steps. Otherwise it has none.
pub fn prove_error_of_first_steps()
    ensures same { (sc : Scenario) (book : BookView) (t : Transcript) (n : ℕ) → not_kept sc book (first_steps n t) ≡ within_steps (length (take n t.steps)) (not_shown sc book t) }
    ensures there { (sc : Scenario) (book : BookView) (t : Transcript) (n : ℕ) (error : NotShown) → not_shown sc book t ≡ Some error → error.step ≤ n → n ≤ length t.steps → not_kept sc book (first_steps n t) ≡ Some error }
{}

/// What comes before the first error is certified. A transcript that is cut before its first invalid step has no error, so an
/// auction can continue from it. Its steps are the first tests that the rule asks, each properly settled.
pub fn prove_steps_before_error()
    ensures kept { (sc : Scenario) (book : BookView) (t : Transcript) (n : ℕ) (error : NotShown) → not_shown sc book t ≡ Some error → n < error.step → not_kept sc book (first_steps n t) ≡ None }
    ensures certified { (sc : Scenario) (book : BookView) (t : Transcript) (n : ℕ) (error : NotShown) → IsAuction sc book → not_shown sc book t ≡ Some error → n < error.step → IsPrefix sc book t.order (Some t.start) (steps_in (take n t.steps)) }
{}
