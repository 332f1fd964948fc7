//! Every learnt line that a log may still need.

use crate::hint::Hint;
use crate::literal::Literal;
use crate::policy::LINES_HELD_TO_ONE_NEW;
use search_base::checked_access::{filled, read, saturating_u32, slice_between, write};
use std::alloc::{AllocError as NoMemory, Global};

// The flags of a hint's first word: `PAIR` for the first of two variables, `OWN` for the place of a station, none for the number of a
// line.
const PAIR: u32 = 1 << 31;

const OWN: u32 = 1 << 30;

// The beginning of a line that is no longer stored.
const DROPPED: u32 = u32::MAX;

/// Lines by number, from 0, stored one after the other in one list. A line has its length in words, its number of literals, the
/// literals, and its hints. For each fact, a literal that is true at level 0, the number of its line is stored.
#[derive(Drop)]
pub(crate) struct KeptLines {
    words: Vec<u32>,
    // Where each line begins.
    begins: Vec<u32>,
    // For each variable the number of its fact plus one; 0 if it has none.
    facts: Vec<u32>,
    // How many lines are stored, and how many were after the last sweep.
    held: usize,
    swept: usize,
}

impl KeptLines {
    /// Returns the empty list of lines over this many variables.
    pub(crate) fn new(alloc: Global, vars: u32) -> Result<KeptLines, NoMemory> {
        Ok(KeptLines {
            words: Vec::new(alloc),
            begins: Vec::new(alloc),
            facts: filled(alloc, vars, 0)?,
            held: 0,
            swept: 0,
        })
    }

    /// Returns the number of lines that were ever learnt.
    pub(crate) fn len(&self) -> u32 {
        saturating_u32(self.begins.len())
    }

    /// Appends a line and returns its number.
    pub(crate) fn add(&mut self, literals: &[Literal], hints: &[Hint]) -> Result<u32, NoMemory> {
        let number = self.len();
        let begin = saturating_u32(self.words.len());
        self.words.push(0)?;
        self.words.push(saturating_u32(literals.len()))?;
        for literal in literals {
            self.words.push(literal.code)?;
        }
        for hint in hints {
            push_hint(&mut self.words, *hint)?;
        }
        let size = saturating_u32(self.words.len()).saturating_sub(begin);
        write(&mut self.words, begin, size);
        self.begins.push(begin)?;
        self.held = self.held.saturating_add(1);
        Ok(number)
    }

    /// Returns the line of a variable, if the variable is a fact.
    pub(crate) fn fact(&self, var: u32) -> Option<u32> {
        match read(&self.facts, var, 0) {
            0 => None,
            number => Some(number - 1),
        }
    }

    /// Records the line of a variable that became a fact.
    pub(crate) fn set_fact(&mut self, var: u32, number: u32) {
        write(&mut self.facts, var, number.saturating_add(1));
    }

    /// Returns the codes of a line's literals.
    pub(crate) fn codes(&self, number: u32) -> &[u32] {
        let words = self.words(number);
        let count = read(words, 0, 0);
        slice_between(words, 1, count.saturating_add(1))
    }

    /// Reads the hints of a line into `hints`.
    pub(crate) fn hints(&self, number: u32, hints: &mut Vec<Hint>) -> Result<(), NoMemory> {
        hints.clear();
        let words = self.words(number);
        let begin = read(words, 0, 0).saturating_add(1);
        let mut first = None;
        for i in begin..saturating_u32(words.len()) {
            let word = read(words, i, 0);
            match first {
                Some(v) => {
                    hints.push(Hint::Pair { v, w: word })?;
                    first = None;
                }
                None => {
                    if word & PAIR != 0 {
                        first = Some(word ^ PAIR);
                    } else if word & OWN != 0 {
                        hints.push(Hint::Own(word ^ OWN))?;
                    } else {
                        hints.push(Hint::Line(word))?;
                    }
                }
            }
        }
        Ok(())
    }

    /// Checks whether so many lines are stored that a sweep is due.
    pub(crate) fn is_sweep_due(&self, spare: usize) -> bool {
        self.held
            > self
                .swept
                .saturating_add(self.swept / LINES_HELD_TO_ONE_NEW)
                .saturating_add(spare)
    }

    /// Deletes the lines that neither a fact nor one of the `needed` lines uses, directly or through other lines. The needed lines
    /// stay.
    pub(crate) fn sweep(&mut self, alloc: Global, needed: &mut [bool]) -> Result<(), NoMemory> {
        for number in &self.facts {
            if *number > 0 {
                write(needed, *number - 1, true);
            }
        }
        let mut hints = Vec::new(alloc);
        for number in (0..self.len()).rev() {
            if read(needed, number, false) {
                self.hints(number, &mut hints)?;
                for hint in &hints {
                    if let Hint::Line(line) = hint {
                        write(needed, *line, true);
                    }
                }
            }
        }
        self.keep_only(needed);
        self.swept = self.held;
        Ok(())
    }

    // Compacts the needed lines, and deletes the others.
    fn keep_only(&mut self, needed: &[bool]) {
        let mut end: u32 = 0;
        for number in 0..self.len() {
            let begin = read(&self.begins, number, DROPPED);
            if begin == DROPPED {
                continue;
            }
            if !read(needed, number, false) {
                write(&mut self.begins, number, DROPPED);
                self.held = self.held.saturating_sub(1);
                continue;
            }
            write(&mut self.begins, number, end);
            for place in begin..begin.saturating_add(read(&self.words, begin, 0)) {
                let word = read(&self.words, place, 0);
                write(&mut self.words, end, word);
                end = end.saturating_add(1);
            }
        }
        self.words.truncate(end as usize);
    }

    // Returns the words of a line behind its length: the number of literals, the literals, and the hints.
    fn words(&self, number: u32) -> &[u32] {
        let begin = read(&self.begins, number, DROPPED);
        if begin == DROPPED {
            return &[];
        }
        let end = begin.saturating_add(read(&self.words, begin, 0));
        slice_between(&self.words, begin.saturating_add(1), end)
    }
}

// Writes a hint in one word, or in two.
fn push_hint(words: &mut Vec<u32>, hint: Hint) -> Result<(), NoMemory> {
    match hint {
        Hint::Pair { v, w } => {
            words.push(v | PAIR)?;
            words.push(w)?;
        }
        Hint::Own(place) => words.push(place | OWN)?,
        Hint::Line(line) => words.push(line)?,
    }
    Ok(())
}
