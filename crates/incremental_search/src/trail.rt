//! The trail: which literals are true, since when, and why.

use crate::hint::Reason;
use crate::literal::Literal;
use search_base::checked_access::{filled, read, saturating_u32, write};
use std::alloc::{AllocError as NoMemory, Global};

/// The value of a literal.
#[derive(Clone, Copy, Debug, PartialEq, Eq)]
pub(crate) enum Value {
    Open,
    True,
    False,
}

/// The true literals, in the order in which they became true. Each decision begins a level; level 0 has what holds without decisions.
#[derive(Drop)]
pub(crate) struct KeptTrail {
    // For each literal.
    values: Vec<Value>,
    // For each variable.
    levels: Vec<u32>,
    places: Vec<u32>,
    reasons: Vec<Reason>,
    literals: Vec<Literal>,
    // Where each level from 1 on begins.
    limits: Vec<u32>,
    // The number of literals that have been propagated.
    head: u32,
}

impl KeptTrail {
    /// Returns the empty trail over this many variables.
    pub(crate) fn new(alloc: Global, vars: u32) -> Result<KeptTrail, NoMemory> {
        Ok(KeptTrail {
            values: filled(alloc, vars.saturating_mul(2), Value::Open)?,
            levels: filled(alloc, vars, 0)?,
            places: filled(alloc, vars, 0)?,
            reasons: filled(alloc, vars, Reason::Decision)?,
            literals: Vec::new(alloc),
            limits: Vec::new(alloc),
            head: 0,
        })
    }

    /// Returns the number of variables.
    pub(crate) fn vars(&self) -> u32 {
        saturating_u32(self.levels.len())
    }

    /// Returns the value of a literal.
    pub(crate) fn value(&self, literal: Literal) -> Value {
        read(&self.values, literal.code, Value::False)
    }

    /// Checks whether a variable has no value.
    pub(crate) fn is_open(&self, var: u32) -> bool {
        self.value(Literal::of(var)) == Value::Open
    }

    /// Returns the level of the latest decision.
    pub(crate) fn level(&self) -> u32 {
        saturating_u32(self.limits.len())
    }

    /// Returns the level at which a variable got its value.
    pub(crate) fn level_of(&self, var: u32) -> u32 {
        read(&self.levels, var, 0)
    }

    /// Returns the trail position of a variable that has a value.
    pub(crate) fn place_of(&self, var: u32) -> u32 {
        read(&self.places, var, 0)
    }

    /// Returns why a variable has its value.
    pub(crate) fn reason_of(&self, var: u32) -> Reason {
        read(&self.reasons, var, Reason::Decision)
    }

    /// Returns the number of true literals.
    pub(crate) fn len(&self) -> u32 {
        saturating_u32(self.literals.len())
    }

    /// Returns the literal at a trail position.
    pub(crate) fn at(&self, place: u32) -> Literal {
        read(&self.literals, place, Literal::of(0))
    }

    /// Makes an open literal true.
    pub(crate) fn push(&mut self, literal: Literal, reason: Reason) -> Result<(), NoMemory> {
        let var = literal.var();
        let (place, level) = (self.len(), self.level());
        write(&mut self.values, literal.code, Value::True);
        write(&mut self.values, literal.opposite().code, Value::False);
        write(&mut self.levels, var, level);
        write(&mut self.places, var, place);
        write(&mut self.reasons, var, reason);
        self.literals.push(literal)?;
        Ok(())
    }

    /// Begins a level.
    pub(crate) fn begin_level(&mut self) -> Result<(), NoMemory> {
        let place = self.len();
        self.limits.push(place)?;
        Ok(())
    }

    /// Returns the next literal to propagate, if one is left.
    pub(crate) fn next(&mut self) -> Option<Literal> {
        if self.head >= self.len() {
            return None;
        }
        let literal = self.at(self.head);
        self.head = self.head.saturating_add(1);
        Some(literal)
    }

    /// Undoes the latest literal above a level and returns it, if there is one.
    pub(crate) fn pop_above(&mut self, level: u32) -> Option<Literal> {
        if level >= self.level() || self.len() <= read(&self.limits, level, u32::MAX) {
            return None;
        }
        let literal = self.literals.pop()?;
        write(&mut self.values, literal.code, Value::Open);
        write(&mut self.values, literal.opposite().code, Value::Open);
        Some(literal)
    }

    /// Ends the levels above a level, once their literals are undone.
    pub(crate) fn end_levels(&mut self, level: u32) {
        self.limits.truncate(level as usize);
        self.head = self.head.min(self.len());
    }
}
