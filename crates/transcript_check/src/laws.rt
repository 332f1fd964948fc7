//! Laws of sound transcripts, which speak of the definitions alone.

ghost use Rattle.std.specs.Prelude.{◌≡◌, ◌<◌, ◌≤◌, ◌^◌, ◌++◌, [], ℕ, List, MatchResult, None, Ok, Some, false, length};
ghost use Rattle.pack_defs.specs.declared.scenario.Scenario.{Scenario};
ghost use Rattle.pack_defs.specs.Book.{BookView};
ghost use Rattle.auction_core.specs.declared.record.Record.{Record};
ghost use Rattle.auction_core.specs.declared.record.Step.{Step};
ghost use Rattle.auction_core.specs.declared.record.Ending.TheVariants.{Done};
ghost use Rattle.auction_core.specs.Backed.{IsBacked};
ghost use Rattle.auction_core.specs.LogNumbers.{steps_in};
ghost use Rattle.transcript_text.specs.PrefixReading.{prefix_of};
ghost use Rattle.transcript_text.specs.Reading.{transcript_of};
ghost use Rattle.transcript_text.specs.Spelling.{transcript_for, transcript_text};
ghost use Rattle.auction_core.specs.Rule.{IsAuction};
ghost use Rattle.auction_core.specs.declared.transcript.Transcript.{Transcript};
ghost use Rattle.auction_core.specs.NotShown.{NotShown, not_kept, not_shown};
ghost use Rattle.transcript_check.specs.Sound.{IsSound, transcript_record};

/// A transcript is sound exactly if no step is the first one that is not shown.
pub fn prove_sound_iff_all_shown()
    ensures shown { (sc : Scenario) (book : BookView) (t : Transcript) → IsAuction sc book → not_shown sc book t ≡ None → IsSound sc book t }
    ensures sound { (sc : Scenario) (book : BookView) (t : Transcript) → IsAuction sc book → IsSound sc book t → not_shown sc book t ≡ None }
{}

/// The transcript of a backed record of a finished auction is sound, and its record is that record.
pub fn prove_record_transcript_is_sound()
    ensures sound { (sc : Scenario) (book : BookView) (rec : Record) → IsAuction sc book → IsBacked sc book rec.order rec → rec.ending ≡ Done → IsSound sc book (transcript_for sc book rec) }
    ensures same { (sc : Scenario) (book : BookView) (rec : Record) → IsAuction sc book → IsBacked sc book rec.order rec → rec.ending ≡ Done → transcript_record sc book (transcript_for sc book rec) ≡ rec }
{}

/// Any first bytes of a sound transcript's text are a beginning from which the auction can continue: every kept step
/// is valid.
pub fn prove_any_prefix_resumes()
    ensures { (sc : Scenario) (book : BookView) (before after : List ℕ) (t : Transcript) → transcript_of sc book (before ++ after) ≡ Ok t → not_shown sc book t ≡ None → MatchResult (prefix_of sc book before) (λ kept. not_kept sc book kept ≡ None) (λ why. ⊥) }
{}

/// A complete sound transcript leaves no test to run. A backed record of a finished auction that has the transcript's
/// order and start, and begins with its steps, has no further steps. So it is the transcript's record.
pub fn prove_sound_transcript_is_complete()
    ensures steps { (sc : Scenario) (book : BookView) (t : Transcript) (rec : Record) (more : List Step) → IsAuction sc book → not_shown sc book t ≡ None → IsBacked sc book t.order rec → rec.ending ≡ Done → rec.start ≡ t.start → rec.steps ≡ steps_in t.steps ++ more → more ≡ [] }
    ensures same { (sc : Scenario) (book : BookView) (t : Transcript) (rec : Record) (more : List Step) → IsAuction sc book → not_shown sc book t ≡ None → IsBacked sc book t.order rec → rec.ending ≡ Done → rec.start ≡ t.start → rec.steps ≡ steps_in t.steps ++ more → rec ≡ transcript_record sc book t }
{}

/// A sound transcript's text is the text of the record that it shows. The scenario's workers must be counted in 32
/// bits.
pub fn prove_sound_transcript_is_record_text()
    ensures { (sc : Scenario) (book : BookView) (text : List ℕ) (t : Transcript) → length sc.workers < 2 ^ 32 → transcript_of sc book text ≡ Ok t → not_shown sc book t ≡ None → transcript_text sc book (transcript_record sc book t) ≡ text }
{}

/// A cut transcript's first error, as a beginning, is that of the complete transcript, if it is in the start or in a step that
/// is kept. Otherwise it has none: from any cut before the first invalid step an auction can continue.
pub fn prove_error_of_cut_transcript()
    ensures before { (sc : Scenario) (book : BookView) (before after : List ℕ) (t : Transcript) (error : NotShown) → transcript_of sc book (before ++ after) ≡ Ok t → not_shown sc book t ≡ Some error → MatchResult (prefix_of sc book before) (λ kept. kept.ended ≡ false → length kept.steps < error.step → not_kept sc book kept ≡ None) (λ why. ⊥) }
    ensures there { (sc : Scenario) (book : BookView) (before after : List ℕ) (t : Transcript) (error : NotShown) → transcript_of sc book (before ++ after) ≡ Ok t → not_shown sc book t ≡ Some error → MatchResult (prefix_of sc book before) (λ kept. kept.start ≡ Some t.start → error.step ≤ length kept.steps → not_kept sc book kept ≡ Some error) (λ why. ⊥) }
{}
