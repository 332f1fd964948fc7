//! The marks and scratch lists of conflict analysis.

use crate::hint::Hint;
use search_base::checked_access::{filled, read, write};
use std::alloc::{AllocError as NoMemory, Global};

/// What an analysis has done with a variable.
#[derive(Clone, Copy, Debug, PartialEq, Eq)]
pub(crate) enum Mark {
    Unseen,
    /// Its literal is false by the conflict, and will be in the line unless it is resolved.
    Encountered,
    /// Its literal was resolved with its reason.
    Resolved,
    /// Its literal is in the line.
    InLine,
}

// The channel because of which a variable was cut that was not.
const NOT_CUT: u32 = u32::MAX;

/// A clause that a line's derivation uses, with its rank: pairs of cut literals come first, then facts, by their lines, then the reasons
/// of literals in trail order.
#[derive(Clone, Copy)]
struct Antecedent {
    rank: u64,
    hint: Hint,
}

/// A mark for each variable, and lists that every analysis reuses.
#[derive(Drop)]
pub(crate) struct AnalysisMarks {
    marks: Vec<Mark>,
    marked: Vec<u32>,
    // For each level the last count that met the level.
    counted: Vec<u32>,
    count: u32,
    // For each variable whether it may be cut from the line, and the channel that excludes it, if it was cut; and those that were cut.
    candidates: Vec<bool>,
    cutters: Vec<u32>,
    cut: Vec<u32>,
    // Variables whose reasons are still to be visited, and the hints so far.
    waiting: Vec<u32>,
    antecedents: Vec<Antecedent>,
}

impl AnalysisMarks {
    /// Returns marks for this many variables, all unmet.
    pub(crate) fn new(alloc: Global, vars: u32) -> Result<AnalysisMarks, NoMemory> {
        Ok(AnalysisMarks {
            marks: filled(alloc, vars, Mark::Unseen)?,
            marked: Vec::new(alloc),
            counted: filled(alloc, vars.saturating_add(1), 0)?,
            count: 0,
            candidates: filled(alloc, vars, false)?,
            cutters: filled(alloc, vars, NOT_CUT)?,
            cut: Vec::new(alloc),
            waiting: Vec::new(alloc),
            antecedents: Vec::new(alloc),
        })
    }

    /// Returns the mark of a variable.
    pub(crate) fn of(&self, var: u32) -> Mark {
        read(&self.marks, var, Mark::InLine)
    }

    /// Marks an unmet variable.
    pub(crate) fn mark(&mut self, var: u32, mark: Mark) -> Result<(), NoMemory> {
        write(&mut self.marks, var, mark);
        self.marked.push(var)?;
        Ok(())
    }

    /// Changes the mark of a marked variable.
    pub(crate) fn change(&mut self, var: u32, mark: Mark) {
        write(&mut self.marks, var, mark);
    }

    /// Resets the mark of each resolved variable.
    pub(crate) fn forget_resolved(&mut self) {
        for var in &self.marked {
            if read(&self.marks, *var, Mark::Unseen) == Mark::Resolved {
                write(&mut self.marks, *var, Mark::Unseen);
            }
        }
    }

    /// Resets all marks.
    pub(crate) fn clear(&mut self) {
        for var in &self.marked {
            write(&mut self.marks, *var, Mark::Unseen);
        }
        self.marked.clear();
    }

    /// Returns the number of marked variables.
    pub(crate) fn count(&self) -> usize {
        self.marked.len()
    }

    /// Resets the marks of the variables that were marked since `count` returned this number.
    pub(crate) fn forget_since(&mut self, count: usize) {
        for _ in 0..self.marked.len() {
            if self.marked.len() <= count {
                return;
            }
            let Some(var) = self.marked.pop() else {
                return;
            };
            write(&mut self.marks, var, Mark::Unseen);
        }
    }

    /// Sets whether a variable may be cut from the line.
    pub(crate) fn set_candidate(&mut self, var: u32, may: bool) {
        write(&mut self.candidates, var, may);
    }

    /// Cuts a variable that may be cut, because the channel of `cutter` excludes it.
    pub(crate) fn cut_candidate(&mut self, var: u32, cutter: u32) -> Result<(), NoMemory> {
        if read(&self.candidates, var, false) {
            write(&mut self.candidates, var, false);
            write(&mut self.cutters, var, cutter);
            self.cut.push(var)?;
        }
        Ok(())
    }

    /// Returns the channel because of which a variable was cut, if it was.
    pub(crate) fn cutter(&self, var: u32) -> Option<u32> {
        match read(&self.cutters, var, NOT_CUT) {
            NOT_CUT => None,
            cutter => Some(cutter),
        }
    }

    /// Forgets what was cut.
    pub(crate) fn forget_cut(&mut self) {
        for var in &self.cut {
            write(&mut self.cutters, *var, NOT_CUT);
        }
        self.cut.clear();
    }

    /// Begins a list of variables whose reasons are to be visited.
    pub(crate) fn begin_waiting(&mut self) {
        self.waiting.clear();
    }

    /// Begins a list of hints.
    pub(crate) fn begin_hints(&mut self) {
        self.antecedents.clear();
        self.waiting.clear();
    }

    /// Adds a hint with its rank.
    pub(crate) fn need(&mut self, rank: u64, hint: Hint) -> Result<(), NoMemory> {
        self.antecedents.push(Antecedent { rank, hint })?;
        Ok(())
    }

    /// Queues a variable whose reason is still to be visited.
    pub(crate) fn push_waiting(&mut self, var: u32) -> Result<(), NoMemory> {
        self.waiting.push(var)?;
        Ok(())
    }

    /// Returns a variable whose reason is still to be visited, if one is left.
    pub(crate) fn next_waiting(&mut self) -> Option<u32> {
        self.waiting.pop()
    }

    /// Lists the hints by rank.
    pub(crate) fn list_hints(&mut self, hints: &mut Vec<Hint>) -> Result<(), NoMemory> {
        self.antecedents.sort_unstable_by_key(|a| a.rank);
        hints.clear();
        for antecedent in &self.antecedents {
            hints.push(antecedent.hint)?;
        }
        Ok(())
    }

    /// Begins a count of levels.
    pub(crate) fn begin_count(&mut self) {
        self.count = self.count.wrapping_add(1);
    }

    /// Checks whether this count meets the level for the first time, and records the level.
    pub(crate) fn is_new(&mut self, level: u32) -> bool {
        if read(&self.counted, level, self.count) == self.count {
            return false;
        }
        write(&mut self.counted, level, self.count);
        true
    }
}
