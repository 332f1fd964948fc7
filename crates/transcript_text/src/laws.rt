//! Laws of a transcript's text, which speak of the definitions alone: worked examples, and the round trip.

ghost use Rattle.std.specs.Prelude.{◌≡◌, ◌≢◌, ◌<◌, ◌≤◌, ◌^◌, ◌∷◌, ◌++◌, [], ℕ, List, MatchResult, Ok, Err, codes, false, length, take, true};
ghost use Rattle.auction_core.specs.declared.record.Shown.TheVariants as Shown;
ghost use Rattle.pack_defs.specs.Scenario.{IsWithinLimits};
ghost use Rattle.pack_defs.specs.declared.scenario.Scenario.{Scenario};
ghost use Rattle.auction_core.specs.Backed.{IsBacked};
ghost use Rattle.auction_core.specs.NotShown.{first_steps};
ghost use Rattle.auction_core.specs.declared.record.Record.{Record};
ghost use Rattle.auction_core.specs.declared.record.Ending.TheVariants as Ending;
ghost use Rattle.transcript_text.specs.RoundTrip.{IsHeld, IsNamed};
ghost use Rattle.pack_defs.specs.Book.{BookView};
ghost use Rattle.pack_defs.specs.declared.order.Order.TheVariants.{ByFacility};
ghost use Rattle.auction_core.specs.declared.transcript.Transcript.{Transcript};
ghost use Rattle.transcript_text.specs.Spelled.{IsSpelled};
ghost use Rattle.pack_defs.specs.Examples.{three_stations};
ghost use Rattle.transcript_text.specs.declared.error.TextErr.{TextErr};
ghost use Rattle.transcript_text.specs.declared.error.TextErr.TheVariants.{BadLine, Truncated, Version};
ghost use Rattle.transcript_text.specs.Examples.{fitted_step, later_text, later_transcript, other_text, other_transcript, three, three_text, three_transcript, two_workers};
ghost use Rattle.auction_core.specs.declared.prefix.Prefix.{Prefix};
ghost use Rattle.transcript_text.specs.PrefixReading.{IsPrefixOf, KeepsAllOf, prefix_of, transcript_prefix};
ghost use Rattle.transcript_text.specs.PrefixSpelling.{prefix_spelling};
ghost use Rattle.transcript_text.specs.Reading.{transcript_of};
ghost use Rattle.transcript_text.specs.Spelling.{spelling, transcript_for, transcript_text};

/// The transcript of the auction of three stations, written and read, and some texts that are rejected.
pub fn prove_text_of_three_stations()
    ensures written { spelling three_stations three_transcript ≡ three_text }
    ensures read { transcript_of three three_stations (codes "transcript 1\nstart empty\nfit 1 1 1\nat 1 14\nend 1\n") ≡ Ok (record { order = ByFacility; start = Shown.Empty; steps = fitted_step 1 1 14 ∷ [] }) }
    ensures whole { transcript_of three three_stations three_text ≡ Ok three_transcript }
    ensures version { transcript_of three three_stations (codes "transcript 1\r\n") ≡ Err Version }
    ensures none { transcript_of three three_stations (codes "transcript 3") ≡ Err Truncated }
    ensures by_volume { transcript_of three three_stations later_text ≡ Ok later_transcript }
    ensures by_volume_written { spelling three_stations later_transcript ≡ later_text }
    ensures other { transcript_of two_workers three_stations other_text ≡ Ok other_transcript }
    ensures other_written { spelling three_stations other_transcript ≡ other_text }
    ensures after_end { transcript_of three three_stations (codes "transcript 1\nstart empty\nend 0\nx") ≡ Err (BadLine 4) }
    ensures wrong_count { transcript_of three three_stations (codes "transcript 1\nstart empty\nend 1\n") ≡ Err (BadLine 3) }
{}

/// A transcript that can be written is read back as itself.
pub fn prove_written_transcript_is_read()
    ensures { (sc : Scenario) (book : BookView) (t : Transcript) → IsSpelled sc book t → transcript_of sc book (spelling book t) ≡ Ok t }
{}

/// The transcript of a backed record of a finished auction is read back as itself. The scenario, the book and the
/// record must be such as the program builds.
pub fn prove_record_round_trip()
    ensures { (sc : Scenario) (book : BookView) (rec : Record) → IsBacked sc book rec.order rec → rec.ending ≡ Ending.Done → IsWithinLimits sc → IsNamed sc book → IsHeld rec → transcript_of sc book (transcript_text sc book rec) ≡ Ok (transcript_for sc book rec) }
{}

/// No two texts are the same transcript: a text that is read as a transcript is exactly the text that is written of
/// it. The scenario's workers must be counted in 32 bits.
pub fn prove_one_text()
    ensures { (sc : Scenario) (book : BookView) (text : List ℕ) (t : Transcript) → length sc.workers < 2 ^ 32 → transcript_of sc book text ≡ Ok t → text ≡ spelling book t }
{}

/// A transcript that is read can be written. The scenario's workers must be counted in 32 bits, and the steps in 64.
pub fn prove_read_transcript_can_be_written()
    ensures { (sc : Scenario) (book : BookView) (text : List ℕ) (t : Transcript) → length sc.workers < 2 ^ 32 → length t.steps < 2 ^ 64 → transcript_of sc book text ≡ Ok t → IsSpelled sc book t }
{}

/// A complete transcript, read as a beginning, is returned complete, with its `end` line.
pub fn prove_complete_prefix()
    ensures { (sc : Scenario) (book : BookView) (text : List ℕ) (t : Transcript) → transcript_of sc book text ≡ Ok t → prefix_of sc book text ≡ Ok (transcript_prefix t true) }
{}

/// Any first bytes of a transcript's text are read as a beginning of it, wherever they are cut.
pub fn prove_prefix_is_read()
    ensures { (sc : Scenario) (book : BookView) (before after : List ℕ) (t : Transcript) → transcript_of sc book (before ++ after) ≡ Ok t → MatchResult (prefix_of sc book before) (λ kept. IsPrefixOf kept t) (λ why. ⊥) }
{}

/// A beginning is never rejected because lines are missing.
pub fn prove_no_prefix_rejected()
    ensures { (sc : Scenario) (book : BookView) (text : List ℕ) → prefix_of sc book text ≢ Err Truncated }
{}

/// The part that is kept of a text is the text's beginning: its own text is what was not dropped. The scenario's
/// workers must be counted in 32 bits.
pub fn prove_text_begins_with_kept()
    ensures { (sc : Scenario) (book : BookView) (text : List ℕ) (kept : Prefix) → length sc.workers < 2 ^ 32 → prefix_of sc book text ≡ Ok kept → take (length (prefix_spelling book kept)) text ≡ prefix_spelling book kept }
{}

/// A transcript's text has no end but its own: if fewer bytes of it are read, lines are missing, wherever it is cut. So no
/// transcript's text is the beginning of another's.
pub fn prove_cut_text_is_truncated()
    ensures { (sc : Scenario) (book : BookView) (text : List ℕ) (t : Transcript) (n : ℕ) → transcript_of sc book text ≡ Ok t → n < length text → transcript_of sc book (take n text) ≡ Err Truncated }
{}

/// Any error other than missing lines is final: the text has the same error, whatever bytes follow.
pub fn prove_error_is_final()
    ensures { (sc : Scenario) (book : BookView) (before after : List ℕ) (why : TextErr) → transcript_of sc book before ≡ Err why → why ≢ Truncated → transcript_of sc book (before ++ after) ≡ Err why }
{}

/// A reader of beginnings keeps each step that is complete. A text that begins with the lines of a transcript's order, start
/// and steps, whatever follows, is read with at least these, or rejected. A transcript's text, cut after the lines of some steps
/// or later, is read with at least these steps. The scenario's workers must be counted in 32 bits.
pub fn prove_complete_steps_are_kept()
    ensures all { (sc : Scenario) (book : BookView) (t : Transcript) (after : List ℕ) → IsSpelled sc book t → MatchResult (prefix_of sc book (prefix_spelling book (transcript_prefix t false) ++ after)) (KeepsAllOf t) (λ why. Unit {0}) }
    ensures cut { (sc : Scenario) (book : BookView) (text : List ℕ) (t : Transcript) (k n : ℕ) → length sc.workers < 2 ^ 32 → transcript_of sc book text ≡ Ok t → k ≤ length t.steps → length (prefix_spelling book (first_steps k t)) ≤ n → MatchResult (prefix_of sc book (take n text)) (λ kept. k ≤ length kept.steps) (λ why. ⊥) }
{}

/// The example's text, cut before its last line end and within a step, and a beginning with an invalid line.
pub fn prove_cut_texts_of_three_stations()
    ensures truncated { transcript_of three three_stations (codes "transcript 1\nstart empty\nfit 1 1 1\nat 1 14\nend 1") ≡ Err Truncated }
    ensures kept { prefix_of three three_stations (codes "transcript 1\nstart empty\nfit 1 1 1\nat 1 14\nfit 1 2 1\nat 2") ≡ Ok (first_steps 1 three_transcript) }
    ensures rejected { prefix_of three three_stations (codes "transcript 1\nstart empty\nfit 1 1 1\nat 1 14\nat 2 14\n") ≡ Err (BadLine 5) }
{}
