//! An index of clauses for the subset test of receipts: each clause is filed under the literal that lines have least often.
//!
//! To find the clauses that are subsets of a line, it is enough to visit the clauses filed under the line's literals.

ghost use Rattle.std.specs.Prelude.{◌≡◌, ◌*◌, ◌^◌, ◌<◌, ◌≤◌, ◌++◌, ◌∷◌, [], List, Some, IfOk, IfSome, OnOk, length, replicate, slice_index_or};
ghost use Rattle.std.specs.List.{list_any};
ghost use Rattle.clause_db.specs.declared.lit.Lit.{Lit};
ghost use Rattle.clause_db.specs.Clause.{clause_at};
ghost use Rattle.rup_check.specs.Follows.{clauses_before};
ghost use Rattle.cert_types.specs.Fresh.{is_subclause};
ghost use Rattle.clause_db.specs.Clauses.{LitWithin};
ghost use Rattle.cert_types.specs.Signature.{signature};
ghost use Rattle.cert_types.specs.Uses.{is_used};
ghost use Rattle.cert_types.specs.ClauseIndex.{IsClauseIndex, IsKey, with_unkeyed, indexed_clause_of, with_indexed, indexed_within, indexed_at, has_indexed_within, zero_lit, numbered_within, other_of, some_indexed};

use crate::signature::{covers, signature};
use crate::uses::Uses;
use clause_db::list::ClauseList;
use clause_db::lit::Lit;
use rup_check::cursors::Literals;
use rup_check::hints::clause_by_number;
use rup_check::known_literals::{KnownLiterals, code, within};
use rup_check::lines::Lines;
use std::alloc::{AllocError as NoMemory, Global};
use std::marker::Model;

/// A clause as it is filed under one of its literals: its number, its signature, and another of its literals. That literal is given
/// by its variable and sign, and is the same one again if the clause has no other. A clause of two literals is described
/// completely, and its number is 0.
#[derive(Clone, Copy, Debug, PartialEq, Eq)]
pub struct IndexedClause {
    pub number: u64,
    pub bits: u64,
    pub var: u32,
    pub positive: bool,
}

/// The index: a list for each literal of the variables 1 to `vars`. A clause without such a literal is in `unkeyed`, and every search
/// visits it.
#[derive(Drop)]
pub(crate) struct ClauseIndex {
    vars: u32,
    lists: Vec<Vec<IndexedClause>>,
    unkeyed: Vec<u64>,
}

impl Model for ClauseIndex {
    ghost use Rattle.std.specs.Prelude.{◌≡◌, ◌*◌, length, map};
    ghost use Rattle.cert_types.specs.ClauseIndex.{ClauseIndexView};

    ghost Value = { ClauseIndexView };

    ghost view = { λ f. record { vars = f.vars; lists = map (λ v. v.items) f.lists.items; unkeyed = f.unkeyed.items } };

    ghost invariant = { λ f. length f.lists.items ≡ 2 * f.vars };
}

impl ClauseIndex {
    /// Returns an empty index.
    pub(crate) fn new(alloc: Global, vars: u32) -> Result<ClauseIndex, NoMemory>
        ensures { IfOk result (λ f. f ≡ record { vars = vars; lists = replicate (2 * vars) []; unkeyed = [] }) }
    {
        let count = 2 * vars as usize;
        let mut lists = Vec::with_capacity(alloc, count)?;
        for _ in 0..count {
            lists.push(Vec::new(alloc))?;
        }
        Ok(ClauseIndex {
            vars,
            lists,
            unkeyed: Vec::new(alloc),
        })
    }

    /// Files a clause, given with its number, under the literal that lines have least often. A clause with a literal that no line
    /// has is left out.
    pub(crate) fn index_clause(
        &mut self,
        uses: &Uses,
        clause: &[Lit],
        number: u64,
    ) -> Result<(), NoMemory>
        requires { 1 ≤ number }
        ensures { OnOk result ((all seen : List (List Lit)) → clause_at all number ≡ Some clause.now → IsClauseIndex (is_used uses.now) all self.old seen → IsClauseIndex (is_used uses.now) all self.new (seen ++ clause.now ∷ [])) }
    {
        if !uses.are_used(clause) {
            return Ok(());
        }
        match self.keys_of(uses, clause) {
            Some((at, other)) => {
                return self.put(clause[at], indexed_clause_of(clause, number, at, other));
            }
            None => return self.put_unkeyed(number),
        }
    }

    // Returns the places of the literal that lines have least often and of the next one. If there is only one literal, its place is
    // returned twice.
    fn keys_of(&self, uses: &Uses, clause: &[Lit]) -> Option<(usize, usize)>
        ensures { IfSome result (λ keys. IsKey self.now.vars clause.now keys.0 × IsKey self.now.vars clause.now keys.1) }
    {
        let at = self.rarest(uses, clause, clause.len())?;
        let other = self.rarest(uses, clause, at).unwrap_or(at);
        Some((at, other))
    }

    // Returns the place of the literal that lines have least often, among the literals of the variables. The place `but` is left
    // out.
    fn rarest(&self, uses: &Uses, clause: &[Lit], but: usize) -> Option<usize>
        ensures { IfSome result (λ k. IsKey self.now.vars clause.now k) }
    {
        let mut best = None;
        let mut fewest = u32::MAX;
        for (i, lit) in clause.iter().enumerate() {
            let count = uses.count_of(*lit);
            if count < fewest && i != but && within(self.vars, *lit) {
                fewest = count;
                best = Some(i);
            }
        }
        best
    }

    // Files a clause under a literal.
    fn put(&mut self, lit: Lit, indexed: IndexedClause) -> Result<(), NoMemory>
        requires { LitWithin self.old.vars lit }
        ensures indexed { OnOk result (self.new ≡ with_indexed self.old lit indexed) }
        ensures size { length self.old.lists ≡ 2 * self.old.vars }
    {
        self.lists[code(lit)].push(indexed)?;
        Ok(())
    }

    // Files a clause under no literal.
    fn put_unkeyed(&mut self, number: u64) -> Result<(), NoMemory>
        ensures { OnOk result (self.new ≡ with_unkeyed self.old number) }
    {
        self.unkeyed.push(number)?;
        Ok(())
    }

    /// Checks whether a filed clause is a subset of the literals, which must be marked. Numbers first count the formula's clauses
    /// and then the lines.
    pub(crate) fn has_indexed_within(
        &self,
        marks: &KnownLiterals,
        lits: &[Lit],
        clauses: &ClauseList,
        lines: &Lines,
    ) -> bool
        requires { marks.now.lits ≡ lits.now }
        ensures { result ≡ has_indexed_within (clauses_before clauses.now.list lines.now) self.now lits.now }
    {
        some_numbered(&self.unkeyed, marks, clauses, lines)
            || self.some_indexed(marks, lits, signature(lits), clauses, lines)
    }

    // Whether a clause that is filed under one of `lits` is a subset of the marked literals.
    fn some_indexed(
        &self,
        marks: &KnownLiterals,
        lits: &[Lit],
        bits: u64,
        clauses: &ClauseList,
        lines: &Lines,
    ) -> bool
        ensures { result ≡ some_indexed (indexed_within (clauses_before clauses.now.list lines.now) marks.now.lits bits) self.now lits.now }
    {
        for lit in lits {
            if self.some_indexed_at(marks, *lit, bits, clauses, lines) {
                return true;
            }
        }
        false
    }

    // Whether a clause that is filed under this literal is a subset of the marked literals.
    fn some_indexed_at(
        &self,
        marks: &KnownLiterals,
        lit: Lit,
        bits: u64,
        clauses: &ClauseList,
        lines: &Lines,
    ) -> bool
        ensures { result ≡ list_any (indexed_within (clauses_before clauses.now.list lines.now) marks.now.lits bits) (indexed_at self.now lit) }
    {
        if !within(self.vars, lit) {
            return false;
        }
        some_of(&self.lists[code(lit)], marks, bits, clauses, lines)
    }
}

// Returns a clause as it is filed under its literal at `at`, with its literal at `other`.
fn indexed_clause_of(clause: &[Lit], number: u64, at: usize, other: usize) -> IndexedClause
    requires there { other < length clause.now }
    requires small { (slice_index_or clause.now other zero_lit).var < 2 ^ 32 }
    ensures { result ≡ indexed_clause_of clause.now number at other }
{
    let lit = clause[other];
    let is_pair = clause.len() == 2 && at != other;
    IndexedClause {
        number: if is_pair { 0 } else { number },
        bits: signature(clause),
        var: lit.var as u32,
        positive: lit.positive,
    }
}

// Whether one of these filed clauses is a subset of the marked literals.
fn some_of(
    indexed: &[IndexedClause],
    marks: &KnownLiterals,
    bits: u64,
    clauses: &ClauseList,
    lines: &Lines,
) -> bool
    ensures { result ≡ list_any (indexed_within (clauses_before clauses.now.list lines.now) marks.now.lits bits) indexed.now }
{
    for f in indexed {
        if is_indexed_within(*f, marks, bits, clauses, lines) {
            return true;
        }
    }
    false
}

// Whether a filed clause is a subset of the marked literals, given their signature. The literal that the clause is filed under must
// be marked.
fn is_indexed_within(
    indexed: IndexedClause,
    marks: &KnownLiterals,
    bits: u64,
    clauses: &ClauseList,
    lines: &Lines,
) -> bool
    ensures { result ≡ indexed_within (clauses_before clauses.now.list lines.now) marks.now.lits bits indexed }
{
    covers(bits, indexed.bits)
        && marks.has(other_of(indexed))
        && (indexed.number == 0 || is_numbered_within(indexed.number, marks, clauses, lines))
}

// Returns the other literal with which a clause is filed.
fn other_of(indexed: IndexedClause) -> Lit
    ensures { result ≡ other_of indexed }
{
    Lit {
        var: indexed.var as u64,
        positive: indexed.positive,
    }
}

// Whether the clause of one of these numbers is a subset of the marked literals.
fn some_numbered(
    numbers: &[u64],
    marks: &KnownLiterals,
    clauses: &ClauseList,
    lines: &Lines,
) -> bool
    ensures { result ≡ list_any (numbered_within (clauses_before clauses.now.list lines.now) marks.now.lits) numbers.now }
{
    for n in numbers {
        if is_numbered_within(*n, marks, clauses, lines) {
            return true;
        }
    }
    false
}

// Whether the clause of this number is a subset of the marked literals.
fn is_numbered_within(
    number: u64,
    marks: &KnownLiterals,
    clauses: &ClauseList,
    lines: &Lines,
) -> bool
    ensures { result ≡ numbered_within (clauses_before clauses.now.list lines.now) marks.now.lits number }
{
    match clause_by_number(clauses, lines, lines.len(), number) {
        Some(clause) => return are_marked(clause, marks),
        None => return false,
    }
}

// Whether each literal is marked.
fn are_marked(clause: Literals<'_>, marks: &KnownLiterals) -> bool
    ensures { result ≡ is_subclause marks.now.lits clause.entry }
{
    let mut left = clause;
    while let Some(lit) = left.next() {
        if !marks.has(lit) {
            return false;
        }
    }
    true
}
