//! Reads the text of a log in LRAT's format. `read_log` goes line by line. `parse_line` distinguishes comments,
//! deletions and lines of the log. `log_line` reads a line of the log: a number, literals up to a 0, and hints up to
//! another 0. The numbers of the lines read so far are kept, because a hint names a line by its number and a `Log` by
//! its place.

ghost use Rattle.std.specs.Prelude.{◌≡◌, ◌++◌, ◌∷◌, [], IfOk, IfSome, List, MatchBool, MatchOption, None, Some};
ghost use Rattle.std.specs.List.{slice_get};
ghost use Rattle.rup_check.specs.declared.line.Line.{Line};
ghost use Rattle.pack_defs.specs.Lists.{is_empty};
ghost use Rattle.lrat_text.specs.Lines.{without_return, words_of};
ghost use Rattle.lrat_text.specs.Read.{AreLineNumbers, LogRead, after_words, after_deletion_mark, deleted_at, deletion, field_of, hint_at, hint_place, log_hints_at, is_next, log_lits_at, log_of, number_or, read_more, with_line};
ghost use Rattle.lrat_text.specs.Steps.{LogGives};

use crate::error::LratErr;
use crate::field::{Field, GREATEST, field_of, natural};
use crate::lines::{is_whole, next_word, split_line, without_return};
use clause_db::lit::Lit;
use rup_check::line::Log;
use rup_check::lines::Lines;
use std::alloc::{AllocError as NoMemory, Global};
use std::marker::Model;

// Whether a line has no word.
fn is_blank_line(words: &[u8]) -> bool
    ensures { result ≡ is_empty (words_of words.now) }
{
    match next_word(words) {
        Some(_) => false,
        None => true,
    }
}

// Reads the literals before a 0 on line `n` into `lits`, which is cleared first. Returns what is after the 0.
pub(crate) fn lits_of<'a>(n: u64, words: &'a [u8], lits: &mut Vec<Lit>) -> Result<&'a [u8], LratErr>
    ensures { LogGives (λ rest. (lits.new.items, words_of rest.now)) (log_lits_at n (words_of words.now)) result }
{
    lits.clear();
    let mut rest = words;
    while let Some((word, after)) = next_word(rest) {
        rest = after;
        match field_of(word) {
            Some(Field::Number(lit)) => lits.push(lit)?,
            Some(Field::End) => return Ok(rest),
            None => return Err(LratErr::BadLine { n }),
        }
    }
    Err(LratErr::BadLine { n })
}

// Checks that the words after a deletion's `d` on line `n` are numbers and a 0 at the end.
pub(crate) fn deleted(n: u64, words: &[u8]) -> Result<(), LratErr>
    ensures { LogGives (λ u. u) (deleted_at n (words_of words.now)) result }
{
    let mut rest = words;
    while let Some((word, after)) = next_word(rest) {
        rest = after;
        match field_of(word) {
            Some(Field::Number(lit)) => {
                if !lit.positive {
                    return Err(LratErr::BadLine { n });
                }
            }
            Some(Field::End) => {
                if is_blank_line(rest) {
                    return Ok(());
                }
                return Err(LratErr::BadLine { n });
            }
            None => return Err(LratErr::BadLine { n }),
        }
    }
    Err(LratErr::BadLine { n })
}

// Whether this number is at this place.
fn is_at_place(numbers: &[u64], place: u64, number: u64) -> bool
    ensures { MatchBool result (slice_get numbers.now place ≡ Some number) (slice_get numbers.now place ≡ Some number → ⊥) }
{
    match numbers.get(place as usize) {
        Some(other) => *other == number,
        None => false,
    }
}

// Returns the place of what a hint names: a clause has its number, a line its place after the clauses. Returns `None`
// if the hint names neither.
pub(crate) fn hint_place(clauses: u64, numbers: &[u64], h: u64) -> Option<u64>
    requires { AreLineNumbers clauses numbers.now }
    ensures { result ≡ hint_place clauses numbers.now h }
{
    if h <= clauses {
        return Some(h);
    }
    // Unless a number was skipped, a line's number is its place; this saves the binary search.
    if is_at_place(numbers, h - clauses - 1, h) {
        return Some(h);
    }
    match numbers.binary_search(&h) {
        Ok(i) => Some(clauses + 1 + i as u64),
        Err(_) => None,
    }
}

// Returns the place of what a hint on line `n` names.
fn hint_at(n: u64, clauses: u64, numbers: &[u64], hint: Lit) -> Result<u64, LratErr>
    requires { AreLineNumbers clauses numbers.now }
    ensures { LogGives (λ place. place) (hint_at n clauses numbers.now hint) result }
{
    if !hint.positive {
        return Err(LratErr::RatStep { n });
    }
    let Some(place) = hint_place(clauses, numbers, hint.var) else {
        return Err(LratErr::BadLine { n });
    };
    Ok(place)
}

// Reads the hints before a 0, which must be the last word of line `n`, into `hints`, which is cleared first. Each
// hint becomes the place of what it names.
pub(crate) fn hints_of(
    n: u64,
    clauses: u64,
    numbers: &[u64],
    words: &[u8],
    hints: &mut Vec<u64>,
) -> Result<(), LratErr>
    requires { AreLineNumbers clauses numbers.now }
    ensures { LogGives (λ _. hints.new.items) (log_hints_at n clauses numbers.now (words_of words.now)) result }
{
    hints.clear();
    let mut rest = words;
    while let Some((word, after)) = next_word(rest) {
        rest = after;
        match field_of(word) {
            Some(Field::Number(hint)) => match hint_at(n, clauses, numbers, hint) {
                Ok(place) => hints.push(place)?,
                Err(why) => return Err(why),
            },
            Some(Field::End) => {
                if is_blank_line(rest) {
                    return Ok(());
                }
                return Err(LratErr::BadLine { n });
            }
            None => return Err(LratErr::BadLine { n }),
        }
    }
    Err(LratErr::BadLine { n })
}

// Buffers for the literals and hints of one line, reused for each line.
#[derive(Drop)]
struct Scratch {
    lits: Vec<Lit>,
    hints: Vec<u64>,
}

// Whether a number is above the clauses and above the numbers of all lines so far.
fn is_next(clauses: u64, numbers: &[u64], number: u64) -> bool
    requires { AreLineNumbers clauses numbers.now }
    ensures { result ≡ is_next clauses numbers.now number }
{
    if number <= clauses {
        return false;
    }
    match numbers.last() {
        Some(last) => *last < number,
        None => true,
    }
}

// Returns the number of a log's line, spelled by the first word of line `n` of the text.
fn number_of(n: u64, clauses: u64, numbers: &[u64], word: &[u8]) -> Result<u64, LratErr>
    requires { AreLineNumbers clauses numbers.now }
    ensures rises { IfOk result (λ x. AreLineNumbers clauses (numbers.now ++ x ∷ [])) }
    ensures number { LogGives (λ x. x) (number_or n clauses numbers.now (field_of word.now)) result }
{
    match field_of(word) {
        Some(Field::Number(lit)) => {
            if !lit.positive {
                return Err(LratErr::BadLine { n });
            }
            if is_next(clauses, numbers, lit.var) {
                return Ok(lit.var);
            }
            Err(LratErr::BadLine { n })
        }
        Some(Field::End) => Err(LratErr::BadLine { n }),
        None => Err(LratErr::BadLine { n }),
    }
}

// Reads a line of the log from line `n` of the text. Returns its number, and leaves the rest in `scratch`.
#[tactic(auto, unfolding(crate::specs::Read::with_line))]
fn log_line(
    n: u64,
    clauses: u64,
    numbers: &[u64],
    word: &[u8],
    words: &[u8],
    scratch: &mut Scratch,
) -> Result<u64, LratErr>
    requires { AreLineNumbers clauses numbers.now }
    ensures line { (lines : List Line) → LogGives (λ x. record { numbers = numbers.now ++ x ∷ []; lines = lines ++ record { lits = scratch.new.lits.items; hints = scratch.new.hints.items } ∷ [] }) (with_line n clauses (record { numbers = numbers.now; lines = lines }) word.now (words_of words.now)) result }
    ensures rises { IfOk result (λ x. AreLineNumbers clauses (numbers.now ++ x ∷ [])) }
{
    let number = number_of(n, clauses, numbers, word)?;
    let rest = lits_of(n, words, &mut scratch.lits)?;
    hints_of(n, clauses, numbers, rest, &mut scratch.hints)?;
    Ok(number)
}

// Checks a deletion on line `n`: the word before `d`, and the words after it. A deletion changes nothing.
#[tactic(auto, unfolding(crate::specs::Read::deletion))]
fn deletion(n: u64, word: &[u8], words: &[u8]) -> Result<(), LratErr>
    ensures { (state : LogRead) → LogGives (λ u. state) (deletion n state word.now (words_of words.now)) result }
{
    let Some(_) = natural(GREATEST, word) else {
        return Err(LratErr::BadLine { n });
    };
    deleted(n, words)
}

// Returns what follows a `d`, if that is the first word.
fn after_deletion_mark(words: &[u8]) -> Option<&[u8]>
    ensures { MatchOption result (after_deletion_mark (words_of words.now) ≡ None) (λ rest. after_deletion_mark (words_of words.now) ≡ Some (words_of rest.now)) }
{
    let Some((word, rest)) = next_word(words) else {
        return None;
    };
    if word == b"d".as_slice() {
        return Some(rest);
    }
    None
}

// Reads line `n` of the text. For a line of the log, returns its number and leaves the rest in `scratch`; for any
// other line, returns `None`.
#[tactic(auto, unfolding(crate::specs::Read::after_words))]
fn parse_line(
    n: u64,
    clauses: u64,
    numbers: &[u64],
    line: &[u8],
    scratch: &mut Scratch,
) -> Result<Option<u64>, LratErr>
    requires { AreLineNumbers clauses numbers.now }
    ensures parsed { (lines : List Line) → LogGives (read_more (record { numbers = numbers.now; lines = lines }) (record { lits = scratch.new.lits.items; hints = scratch.new.hints.items })) (after_words n clauses (record { numbers = numbers.now; lines = lines }) (words_of line.now)) result }
    ensures rises { IfOk result (λ x. IfSome x (λ y. AreLineNumbers clauses (numbers.now ++ y ∷ []))) }
{
    let Some((word, words)) = next_word(line) else {
        return Ok(None);
    };
    if word == b"c".as_slice() {
        return Ok(None);
    }
    if let Some(deleted) = after_deletion_mark(words) {
        deletion(n, word, deleted)?;
        return Ok(None);
    }
    let number = log_line(n, clauses, numbers, word, words, scratch)?;
    Ok(Some(number))
}

// What was read so far of a log.
#[derive(Drop)]
struct LogSoFar {
    // The numbers of its lines.
    numbers: Vec<u64>,
    lines: Lines,
}

impl Model for LogSoFar {
    ghost use Rattle.lrat_text.specs.Read.{LogRead};

    ghost Value = { LogRead };

    ghost view = { λ s. record { numbers = s.numbers.items; lines = s.lines } };
}

// Appends the line that was read, if there is one; `scratch` has its literals and hints.
fn with_parsed_line(
    numbers: Vec<u64>,
    lines: Lines,
    parsed: Option<u64>,
    scratch: &Scratch,
) -> Result<LogSoFar, NoMemory>
    ensures { IfOk result (λ new. new ≡ read_more (record { numbers = numbers.items; lines = lines }) (record { lits = scratch.now.lits.items; hints = scratch.now.hints.items }) parsed) }
{
    let mut numbers = numbers;
    let mut lines = lines;
    if let Some(number) = parsed {
        numbers.push(number)?;
        lines.push(&scratch.lits, &scratch.hints)?;
    }
    Ok(LogSoFar { numbers, lines })
}

// Returns what was read, including line `n` of the text.
fn after_line(
    n: u64,
    clauses: u64,
    so_far: LogSoFar,
    line: &[u8],
    scratch: &mut Scratch,
) -> Result<LogSoFar, LratErr>
    requires { AreLineNumbers clauses so_far.numbers }
    ensures read { LogGives (λ new. new) (after_words n clauses so_far (words_of (without_return line.now))) result }
    ensures rises { IfOk result (λ new. AreLineNumbers clauses new.numbers) }
{
    let LogSoFar { numbers, lines } = so_far;
    match parse_line(n, clauses, &numbers, without_return(line), scratch) {
        Ok(parsed) => match with_parsed_line(numbers, lines, parsed, scratch) {
            Ok(new) => Ok(new),
            Err(_) => Err(LratErr::NoMemory),
        },
        Err(why) => Err(why),
    }
}

/// Returns the proof log that a text spells in LRAT's format over this number of clauses. Words are separated by
/// blanks, and a carriage return before a line end is dropped. Empty lines, comments and deletions are skipped. Each
/// hint becomes the place of the clause or line that it names. Makes one pass over the text, and allocates what it
/// returns.
///
/// # Errors
///
/// `Truncated` if the text ends within a line; otherwise `BadLine` or `RatStep` for the first invalid line;
/// `NoMemory` if memory runs out.
pub fn read_log(alloc: Global, text: &[u8], clauses: u64) -> Result<Log, LratErr>
    ensures { LogGives (λ log. log) (log_of text.now clauses) result }
{
    if !is_whole(text) {
        return Err(LratErr::Truncated);
    }
    let mut so_far = LogSoFar {
        numbers: Vec::new(alloc),
        lines: Lines::new(alloc),
    };
    let mut scratch = Scratch {
        lits: Vec::new(alloc),
        hints: Vec::new(alloc),
    };
    let mut n = 0;
    let mut rest = text;
    while let Some((line, after)) = split_line(rest) {
        rest = after;
        n += 1;
        match after_line(n, clauses, so_far, line, &mut scratch) {
            Ok(next) => so_far = next,
            Err(why) => return Err(why),
        }
    }
    Ok(Log {
        lines: so_far.lines.fitted(),
    })
}
