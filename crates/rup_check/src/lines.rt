//! The lines of a log, packed in bytes. Logs stay in memory, so their size matters.

ghost use Rattle.std.specs.Prelude.{◌≡◌, ◌==◌, ◌-◌, ◌<◌, ◌^◌, ◌++◌, ◌∷◌, [], All, IfOk, List, ℕ, OnErr, OnOk, length, map, take};
ghost use Rattle.clause_db.specs.Clause.{is_empty_clause};
ghost use Rattle.rup_check.specs.Packed.{IsWithin, Spells, line_at, line_in, number_of_lit};

use crate::cursors::{Hints, Literals, number_of};
use crate::digits::push_number;
use clause_db::lit::Lit;
use std::alloc::{AllocError as NoMemory, Global};
use std::marker::Model;

/// The bytes of a line: where its literals begin, where its hints begin, and where they end.
#[derive(Clone, Copy, Debug)]
pub(crate) struct Span {
    pub(crate) lits: usize,
    pub(crate) hints: usize,
    pub(crate) end: usize,
}

/// Lines, which contracts see as a plain list. A number below 2^21 takes at most three bytes, and one of 32 bits at most five.
#[derive(Debug, Drop)]
pub struct Lines {
    bytes: Vec<u8>,
    spans: Vec<Span>,
}

impl Model for Lines {
    ghost use Rattle.std.specs.Prelude.{All, List, length, map};
    ghost use Rattle.rup_check.specs.declared.line.Line.{Line};
    ghost use Rattle.rup_check.specs.Packed.{IsWithin, line_in};

    ghost Value = { List Line };

    ghost view = { λ l. map (line_in l.bytes.items) l.spans.items };

    ghost invariant = { λ l. All (IsWithin (length l.bytes.items)) l.spans.items };
}

impl Lines {
    /// Returns no lines.
    pub fn new(alloc: Global) -> Lines
        ensures { result ≡ [] }
    {
        Lines {
            bytes: Vec::new(alloc),
            spans: Vec::new(alloc),
        }
    }

    /// Returns the number of lines.
    pub fn len(&self) -> usize
        ensures { result ≡ length self.now }
    {
        self.spans.len()
    }

    /// Proves that every list of lines has fewer than 2^62 lines, since it is in memory. Does nothing else.
    pub fn keeps_to_memory(&self)
        ensures { length self.now < 2 ^ 62 }
    {
        let _spans = self.spans.as_slice();
    }

    /// Checks whether there is no line.
    pub fn is_empty(&self) -> bool
        ensures { result ≡ (length self.now == 0) }
    {
        self.spans.is_empty()
    }

    /// Returns a cursor over the literals of the line at a place, from 0.
    pub fn lits(&self, place: usize) -> Literals<'_>
        requires { place < length self.now }
        ensures { result ≡ (line_at self.now place).lits }
    {
        let Span {
            lits,
            hints,
            end: _,
        } = self.spans[place];
        Literals {
            plain: &[],
            packed: &self.bytes[lits..hints],
        }
    }

    /// Returns a cursor over the hints of the line at a place, from 0.
    pub fn hints(&self, place: usize) -> Hints<'_>
        requires { place < length self.now }
        ensures { result ≡ (line_at self.now place).hints }
    {
        let Span {
            lits: _,
            hints,
            end,
        } = self.spans[place];
        Hints {
            packed: &self.bytes[hints..end],
        }
    }

    /// Checks whether the line at a place, from 0, has no literal.
    pub fn is_empty_at(&self, place: usize) -> bool
        requires { place < length self.now }
        ensures { result ≡ is_empty_clause (line_at self.now place).lits }
    {
        self.lits(place).next().is_none()
    }

    /// Appends a line. If memory runs out, the lines stay as they were. A variable of 2^63 or more, which no formula has, counts as
    /// too large for memory.
    pub fn push(&mut self, lits: &[Lit], hints: &[u64]) -> Result<(), NoMemory>
        ensures pushed { OnOk result (self.new ≡ self.old ++ record { lits = lits.now; hints = hints.now } ∷ []) }
        ensures kept { OnErr result (self.new ≡ self.old) }
    {
        let before = self.bytes.len();
        if let Err(error) = push_line(&mut self.bytes, &mut self.spans, lits, hints) {
            self.bytes.truncate(before);
            return Err(error);
        }
        Ok(())
    }

    /// Removes the last line, if there is one.
    pub fn pop(&mut self)
        ensures { self.new ≡ take (length self.old - 1) self.old }
    {
        let _ = self.spans.pop();
    }

    /// Returns a copy of the lines without spare capacity. The bytes are copied without decoding. Fails only if memory runs out.
    pub fn copied(&self, alloc: Global) -> Result<Lines, NoMemory>
        ensures { IfOk result (λ copy. copy ≡ self.now) }
    {
        Ok(Lines {
            bytes: Vec::from_slice(alloc, self.bytes.as_slice())?,
            spans: Vec::from_slice(alloc, self.spans.as_slice())?,
        })
    }

    /// Returns the lines without spare capacity.
    pub fn fitted(self) -> Lines
        ensures { result ≡ self }
    {
        let Lines {
            mut bytes,
            mut spans,
        } = self;
        bytes.shrink_to_fit();
        spans.shrink_to_fit();
        Lines { bytes, spans }
    }
}

// Appends a line. After an error some of its bytes may be left at the end.
fn push_line(
    bytes: &mut Vec<u8>,
    spans: &mut Vec<Span>,
    lits: &[Lit],
    hints: &[u64],
) -> Result<(), NoMemory>
    requires { All (IsWithin (length bytes.old.items)) spans.old.items }
    ensures behind { (more : List ℕ) × (bytes.new.items ≡ bytes.old.items ++ more) }
    ensures kept { OnErr result (spans.new.items ≡ spans.old.items) }
    ensures within { OnOk result (All (IsWithin (length bytes.new.items)) spans.new.items) }
    ensures pushed { OnOk result (map (line_in bytes.new.items) spans.new.items ≡ map (line_in bytes.old.items) spans.old.items ++ record { lits = lits.now; hints = hints.now } ∷ []) }
{
    let start = bytes.len();
    push_lits(bytes, lits)?;
    let middle = bytes.len();
    push_hints(bytes, hints)?;
    spans.push(Span {
        lits: start,
        hints: middle,
        end: bytes.len(),
    })?;
    Ok(())
}

// Appends literals to the bytes.
fn push_lits(bytes: &mut Vec<u8>, lits: &[Lit]) -> Result<(), NoMemory>
    ensures { (more : List ℕ) × (bytes.new.items ≡ bytes.old.items ++ more)
        × OnOk result (Spells more (map number_of_lit lits.now)) }
{
    for lit in lits {
        let Some(number) = number_of(*lit) else {
            return Err(NoMemory);
        };
        push_number(bytes, number)?;
    }
    Ok(())
}

// Appends hints to the bytes.
fn push_hints(bytes: &mut Vec<u8>, hints: &[u64]) -> Result<(), NoMemory>
    ensures { (more : List ℕ) × (bytes.new.items ≡ bytes.old.items ++ more)
        × OnOk result (Spells more hints.now) }
{
    for hint in hints {
        push_number(bytes, *hint)?;
    }
    Ok(())
}
