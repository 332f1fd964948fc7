//! The marks of conflict analysis, one for each variable.

ghost use Rattle.std.specs.Prelude.{ℕ, ◌≡◌, ◌≤◌, ◌⊎◌, true, OnOk, length};
ghost use Rattle.cdcl_prove.specs.Analysis.{has_seen, mark_of, resolves};
ghost use Rattle.cdcl_prove.specs.declared.mark.VariableMark.TheVariants.{Unseen};

use std::alloc::{AllocError as NoMemory, Global};
use std::marker::Model;

/// What an analysis of a conflict has done with a variable.
#[derive(Clone, Copy, Debug, PartialEq, Eq)]
pub(crate) enum VariableMark {
    /// The analysis has not met the variable.
    Unseen,
    /// The analysis has met the variable, and keeps its literal for the line.
    Kept,
    /// The analysis has met the variable, and resolves its literal away by the reason.
    Resolved,
}

/// A mark for each variable, from variable 1 on.
#[derive(Drop)]
pub(crate) struct VariableMarks {
    marks: Vec<VariableMark>,
}

impl Model for VariableMarks {
    ghost use Rattle.std.specs.Prelude.{List};
    ghost use Rattle.cdcl_prove.specs.declared.mark.VariableMark.{VariableMark};

    ghost Value = { List VariableMark };

    ghost view = { λ m. m.marks.items };
}

impl VariableMarks {
    /// Returns no marks.
    pub(crate) fn new(alloc: Global) -> VariableMarks {
        VariableMarks {
            marks: Vec::new(alloc),
        }
    }

    /// Gives each of this many variables the mark `Unseen`. Fails only if memory runs out.
    pub(crate) fn reset(&mut self, vars: u32) -> Result<(), NoMemory>
        ensures size { OnOk result (length self.new ≡ vars) }
        ensures unmet { OnOk result ((v : ℕ) → mark_of self.new v ≡ Unseen) }
    {
        self.marks.clear();
        self.marks.resize(vars as usize, VariableMark::Unseen)?;
        Ok(())
    }

    /// Returns the mark of a variable.
    pub(crate) fn get(&self, var: u64) -> VariableMark
        requires from_one { 1 ≤ var }
        requires within { var ≤ length self.now }
        ensures { result ≡ mark_of self.now var }
    {
        self.marks[(var - 1) as usize]
    }

    /// Keeps a variable that is unmet. Returns whether it was unmet.
    pub(crate) fn mark_seen(&mut self, var: u64) -> bool
        requires from_one { 1 ≤ var }
        requires within { var ≤ length self.old }
        ensures size { length self.new ≡ length self.old }
        ensures seen_variables { has_seen self.new var ≡ true }
        ensures still { (v : ℕ) → has_seen self.old v ≡ true → has_seen self.new v ≡ true }
        ensures same { (v : ℕ) → resolves self.new v ≡ resolves self.old v }
    {
        if self.get(var) != VariableMark::Unseen {
            return false;
        }
        self.marks[(var - 1) as usize] = VariableMark::Kept;
        true
    }

    /// Resolves a variable away.
    pub(crate) fn resolve(&mut self, var: u64)
        requires from_one { 1 ≤ var }
        requires within { var ≤ length self.old }
        ensures size { length self.new ≡ length self.old }
        ensures still { (v : ℕ) → has_seen self.old v ≡ true → has_seen self.new v ≡ true }
        ensures others { (v : ℕ) → 1 ≤ v → resolves self.new v ≡ true → (v ≡ var) ⊎ (resolves self.old v ≡ true) }
    {
        self.marks[(var - 1) as usize] = VariableMark::Resolved;
    }
}
