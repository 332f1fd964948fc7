//! Laws of the texts of logs, which speak of the definitions alone: worked examples, the round trip, and that reading
//! loses nothing.

ghost use Rattle.std.specs.Prelude.{◌≡◌, ◌+◌, ◌≤◌, [], ℕ, List, Ok, Err, codes, length};
ghost use Rattle.clause_db.specs.declared.lit.Lit.{Lit};
ghost use Rattle.rup_check.specs.declared.line.Line.{Line};
ghost use Rattle.rup_check.specs.declared.line.Log.{Log};
ghost use Rattle.rup_check.specs.Follows.{Follows};
ghost use Rattle.lrat_text.specs.declared.error.LratErr.TheVariants.{BadLine, RatStep, Truncated};
ghost use Rattle.lrat_text.specs.Examples.{two_lines, two_lines_text};
ghost use Rattle.lrat_text.specs.Lines.{ended_lines};
ghost use Rattle.lrat_text.specs.OneSpelling.{ArePlain};
ghost use Rattle.lrat_text.specs.Write.{AreSpelled, greatest, log_text};
ghost use Rattle.lrat_text.specs.Read.{log_of};
ghost use Rattle.lrat_text.specs.WholeText.{IsWholeText};

/// The text of a refutation of three stations on two channels, written and read, and some texts that are rejected.
pub fn prove_texts_of_three_stations()
    ensures written { log_text 13 two_lines ≡ two_lines_text }
    ensures read { log_of two_lines_text 12 ≡ Ok (record { lines = two_lines }) }
    ensures rat { log_of (codes "13 -1 0 -7 2 0\n") 12 ≡ Err (RatStep 1) }
    ensures first { log_of (codes "13 0 99 -7 0\n") 12 ≡ Err (BadLine 1) }
    ensures cut { log_of (codes "13 0 99 -7 0\n14") 12 ≡ Err Truncated }
    ensures passed { log_of (codes "c d 1\r\n\n1 d 0\n") 12 ≡ Ok (record { lines = [] }) }
{}

/// A log that is written with its lines numbered after the clauses is read back as itself.
pub fn prove_written_log_is_read()
    ensures { (clauses : ℕ) (lines : List Line) → AreSpelled (clauses + 1) lines → log_of (log_text (clauses + 1) lines) clauses ≡ Ok (record { lines = lines }) }
{}

/// A log that is read accounts for the complete text. Only empty lines, comments and deletions are skipped; every
/// word of every other line is in the log.
pub fn prove_log_is_complete_text()
    ensures { (clauses : ℕ) (text : List ℕ) (log : Log) → log_of text clauses ≡ Ok log → IsWholeText clauses text log }
{}

/// Two plain texts of the same log are the same bytes, those that are written of the log. A text is plain if its
/// lines are numbered after the clauses and have nothing but their words; no byte of it is skipped.
pub fn prove_plain_text_is_written()
    ensures { (clauses : ℕ) (text : List ℕ) (log : Log) → ArePlain (clauses + 1) (ended_lines text) → log_of text clauses ≡ Ok log → text ≡ log_text (clauses + 1) log.lines }
{}

/// A log whose lines follow can be written, if its numbers fit a text.
pub fn prove_following_log_is_spelled()
    ensures { (vars : ℕ) (clauses : List (List Lit)) (lines : List Line) → Follows vars clauses lines → vars ≤ greatest → length clauses + length lines ≤ greatest → AreSpelled (length clauses + 1) lines }
{}

/// So a log whose lines follow is read back from its text as itself.
pub fn prove_following_log_round_trip()
    ensures { (vars : ℕ) (clauses : List (List Lit)) (lines : List Line) → Follows vars clauses lines → vars ≤ greatest → length clauses + length lines ≤ greatest → log_of (log_text (length clauses + 1) lines) (length clauses) ≡ Ok (record { lines = lines }) }
{}
