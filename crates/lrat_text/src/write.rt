//! Writes logs and formulas. Each `push_` call appends to a text.

ghost use Rattle.std.specs.Prelude.{◌≡◌, ◌+◌, ◌≤◌, ◌^◌, ◌++◌, ℕ, IfOk, OnErr, OnOk, decimal, length, map, take};
ghost use Rattle.lrat_text.specs.Lines.{line_of};
ghost use Rattle.lrat_text.specs.Write.{clause_fields, dimacs_text, formula_header, lit_text, log_fields, log_text, spaced};

use clause_db::list::ClauseList;
use clause_db::lit::Lit;
use itoa::Buffer;
use rup_check::cursors::{Hints, Literals};
use rup_check::line::Log;
use std::alloc::{AllocError as NoMemory, Global};

/// Appends a number. Fails only if memory runs out, and then the text is unchanged.
pub fn push_number(text: &mut Vec<u8>, n: u64) -> Result<(), NoMemory>
    ensures written { OnOk result (text.new.items ≡ text.old.items ++ decimal n) }
    ensures kept { OnErr result (text.new.items ≡ text.old.items) }
{
    let mut buffer = Buffer::new();
    text.extend_from_slice(buffer.format(n).as_bytes())
}

// Appends a literal.
fn push_lit(text: &mut Vec<u8>, lit: Lit) -> Result<(), NoMemory>
    ensures written { OnOk result (text.new.items ≡ text.old.items ++ lit_text lit) }
    ensures begins { (n : ℕ) × (text.new.items ≡ text.old.items ++ take n (lit_text lit)) }
{
    if lit.positive {
        return push_number(text, lit.var);
    }
    text.extend_from_slice(b"-")?;
    push_number(text, lit.var)
}

// Appends the remaining literals, each after a space.
fn push_lits(text: &mut Vec<u8>, lits: Literals<'_>) -> Result<(), NoMemory>
    ensures written { OnOk result (text.new.items ≡ text.old.items ++ spaced (map lit_text lits.entry)) }
    ensures begins { (n : ℕ) × (text.new.items ≡ text.old.items ++ take n (spaced (map lit_text lits.entry))) }
{
    let mut left = lits;
    while let Some(lit) = left.next() {
        text.extend_from_slice(b" ")?;
        push_lit(text, lit)?;
    }
    Ok(())
}

// Appends the remaining hints, each after a space.
fn push_hints(text: &mut Vec<u8>, hints: Hints<'_>) -> Result<(), NoMemory>
    ensures written { OnOk result (text.new.items ≡ text.old.items ++ spaced (map decimal hints.entry)) }
    ensures begins { (n : ℕ) × (text.new.items ≡ text.old.items ++ take n (spaced (map decimal hints.entry))) }
{
    let mut left = hints;
    while let Some(hint) = left.next() {
        text.extend_from_slice(b" ")?;
        push_number(text, hint)?;
    }
    Ok(())
}

/// Appends numbers, each after a space. Fails only if memory runs out, and then the text is unchanged.
pub fn push_numbers(text: &mut Vec<u8>, numbers: &[u64]) -> Result<(), NoMemory>
    ensures written { OnOk result (text.new.items ≡ text.old.items ++ spaced (map decimal numbers.now)) }
    ensures kept { OnErr result (text.new.items ≡ text.old.items) }
{
    let length = text.len();
    match push_each(text, numbers) {
        Ok(()) => Ok(()),
        Err(why) => {
            text.truncate(length);
            Err(why)
        }
    }
}

// Appends numbers, each after a space. If memory runs out, a part of them may have been appended.
fn push_each(text: &mut Vec<u8>, numbers: &[u64]) -> Result<(), NoMemory>
    ensures written { OnOk result (text.new.items ≡ text.old.items ++ spaced (map decimal numbers.now)) }
    ensures begins { (n : ℕ) × (text.new.items ≡ text.old.items ++ take n (spaced (map decimal numbers.now))) }
{
    for n in numbers {
        text.extend_from_slice(b" ")?;
        push_number(text, *n)?;
    }
    Ok(())
}

// Appends a line of a log.
fn push_log_line(
    text: &mut Vec<u8>,
    number: u64,
    lits: Literals<'_>,
    hints: Hints<'_>,
) -> Result<(), NoMemory>
    ensures written { OnOk result (text.new.items ≡ text.old.items ++ line_of (log_fields number (record { lits = lits.entry; hints = hints.entry }))) }
    ensures begins { (n : ℕ) × (text.new.items ≡ text.old.items ++ take n (line_of (log_fields number (record { lits = lits.entry; hints = hints.entry })))) }
{
    push_number(text, number)?;
    push_lits(text, lits)?;
    text.extend_from_slice(b" 0")?;
    push_hints(text, hints)?;
    text.extend_from_slice(b" 0\n")?;
    Ok(())
}

/// Appends a log, whose lines are numbered from `first` on: each is its number, its literals, 0, its hints and 0.
/// Fails only if memory runs out, and then the text is unchanged.
pub fn push_log(text: &mut Vec<u8>, first: u64, log: &Log) -> Result<(), NoMemory>
    requires { first + length log.now.lines ≤ 2 ^ 63 }
    ensures written { OnOk result (text.new.items ≡ text.old.items ++ log_text first log.now.lines) }
    ensures kept { OnErr result (text.new.items ≡ text.old.items) }
{
    let length = text.len();
    match push_lines(text, first, log) {
        Ok(()) => Ok(()),
        Err(why) => {
            text.truncate(length);
            Err(why)
        }
    }
}

// Appends the lines of a log. If memory runs out, a part of them may have been appended.
fn push_lines(text: &mut Vec<u8>, first: u64, log: &Log) -> Result<(), NoMemory>
    requires { first + length log.now.lines ≤ 2 ^ 63 }
    ensures written { OnOk result (text.new.items ≡ text.old.items ++ log_text first log.now.lines) }
    ensures begins { (n : ℕ) × (text.new.items ≡ text.old.items ++ take n (log_text first log.now.lines)) }
{
    for i in 0..log.lines.len() {
        push_log_line(
            text,
            first + i as u64,
            log.lines.lits(i),
            log.lines.hints(i),
        )?;
    }
    Ok(())
}

/// Returns the text of a log, whose lines are numbered from `first` on. Fails only if memory runs out.
pub fn write_log(alloc: Global, first: u64, log: &Log) -> Result<Vec<u8>, NoMemory>
    requires { first + length log.now.lines ≤ 2 ^ 63 }
    ensures { IfOk result (λ text. text.items ≡ log_text first log.now.lines) }
{
    let mut text = Vec::new(alloc);
    push_log(&mut text, first, log)?;
    Ok(text)
}

// Appends a clause.
fn push_clause(text: &mut Vec<u8>, clause: &[Lit]) -> Result<(), NoMemory>
    ensures { OnOk result (text.new.items ≡ text.old.items ++ line_of (clause_fields clause.now)) }
{
    for lit in clause {
        push_lit(text, *lit)?;
        text.extend_from_slice(b" ")?;
    }
    text.extend_from_slice(b"0\n")?;
    Ok(())
}

// Appends the first line of a formula.
fn push_header(text: &mut Vec<u8>, clauses: &ClauseList) -> Result<(), NoMemory>
    ensures { OnOk result (text.new.items ≡ text.old.items ++ formula_header clauses.now) }
{
    text.extend_from_slice(b"p cnf ")?;
    push_number(text, u64::from(clauses.vars()))?;
    text.extend_from_slice(b" ")?;
    push_number(text, clauses.len())?;
    text.extend_from_slice(b"\n")?;
    Ok(())
}

/// Returns the text of a formula in DIMACS CNF, without comments. Fails only if memory runs out.
pub fn write_dimacs(alloc: Global, clauses: &ClauseList) -> Result<Vec<u8>, NoMemory>
    ensures { IfOk result (λ text. text.items ≡ dimacs_text clauses.now) }
{
    let mut text = Vec::new(alloc);
    push_header(&mut text, clauses)?;
    'clauses: for i in 0..clauses.len() {
        push_clause(&mut text, clauses.get(i + 1))?;
    }
    Ok(text)
}
