//! Heuristics: which variable is decided next, and with which value.

ghost use Rattle.std.specs.Prelude.{◌≡◌, IfSome};
ghost use Rattle.trail_prop.specs.Entries.{lits_of};
ghost use Rattle.cdcl_prove.specs.Guide.{IsOpenVariable, PickIs, VariableIs};

use crate::policy::{STEPS_OF_CONFLICT, VARIABLE_DECAY};
use clause_db::lit::Lit;
use search_base::order::ActivityOrder;
use search_base::tie_breaking::TieBreaking;
use std::alloc::{AllocError as NoMemory, Global};
use trail_prop::entry::TrailEntry;
use trail_prop::trail::Trail;

/// The order in which variables are decided, the value that is tried first for each, and the level at which each got its value. No
/// answer depends on these.
#[derive(Drop)]
pub(crate) struct DecisionGuide {
    order: ActivityOrder,
    // For each variable, indexed by its number.
    phases: Vec<bool>,
    levels: Vec<u32>,
    // The number of entries of the trail whose levels are recorded.
    noted: usize,
}

impl DecisionGuide {
    /// Returns a guide without preferences: only the ties order the variables, and each is tried as false first.
    pub(crate) fn new(
        alloc: Global,
        vars: u32,
        ties: TieBreaking,
    ) -> Result<DecisionGuide, NoMemory> {
        let mut phases = Vec::new(alloc);
        phases.resize(vars as usize + 1, false)?;
        let mut levels = Vec::new(alloc);
        levels.resize(vars as usize + 1, 0)?;
        Ok(DecisionGuide {
            order: ordered(alloc, vars, ties)?,
            phases,
            levels,
            noted: 0,
        })
    }

    /// Prefers a variable by this many steps, and tries it as true first.
    pub(crate) fn prefer(&mut self, var: u32, steps: f64) {
        self.set_phase(var as usize, true);
        self.order.raise(var, steps);
    }

    /// Records the levels of the new entries of the trail.
    pub(crate) fn note(&mut self, entries: &[TrailEntry]) {
        for at in self.noted..entries.len() {
            let var = entries[at].lit.var as usize;
            if var < self.levels.len() {
                self.levels[var] = entries[at].level;
            }
        }
        self.noted = entries.len();
    }

    /// Releases the variables above a level, just before the trail is cut there. They can be decided again, with the values that
    /// they have now.
    pub(crate) fn release(&mut self, entries: &[TrailEntry], level: u32) -> Result<(), NoMemory> {
        for at in (0..entries.len()).rev() {
            let entry = entries[at];
            if entry.level <= level {
                self.noted = at + 1;
                return Ok(());
            }
            self.set_phase(entry.lit.var as usize, entry.lit.positive);
            self.order.put(entry.lit.var.min(u32::MAX as u64) as u32)?;
        }
        self.noted = 0;
        Ok(())
    }

    /// Raises the activity of a variable that a conflict involves. Returns whether the variable got its value at this level.
    pub(crate) fn involve(&mut self, var: u64, level: u32) -> bool {
        self.order
            .raise(var.min(u32::MAX as u64) as u32, STEPS_OF_CONFLICT);
        self.level(var) == level
    }

    /// Returns the level at which a variable got its latest value.
    pub(crate) fn level(&self, var: u64) -> u32 {
        let v = var as usize;
        if v < self.levels.len() {
            self.levels[v]
        } else {
            0
        }
    }

    /// Ends a conflict: later ones raise activities by more.
    pub(crate) fn age(&mut self) {
        self.order.age();
    }

    /// Returns the literal to decide next, or `None` if every variable has a value.
    pub(crate) fn pick(&mut self, trail: &Trail) -> Option<Lit>
        ensures { PickIs trail.now.clauses.vars (lits_of trail.now.entries) result }
    {
        if let Some(var) = self.most_active(trail) {
            return Some(self.literal(var));
        }
        match first_open(trail) {
            Some(var) => Some(self.literal(var)),
            None => None,
        }
    }

    // Returns the most active variable of the heap that has no value. The variables before it leave the heap.
    fn most_active(&mut self, trail: &Trail) -> Option<u64>
        ensures { IfSome result (λ v. IsOpenVariable trail.now.clauses.vars (lits_of trail.now.entries) v) }
    {
        let vars = trail.clauses().vars();
        for _ in 0..self.order.len() {
            let var = self.order.take()?;
            if var >= 1 && var <= vars && trail.value(var as u64).is_none() {
                return Some(var as u64);
            }
        }
        None
    }

    // Returns the variable's literal by its phase.
    fn literal(&self, var: u64) -> Lit
        ensures { result.var ≡ var }
    {
        let v = var as usize;
        Lit {
            var,
            positive: v < self.phases.len() && self.phases[v],
        }
    }

    fn set_phase(&mut self, v: usize, phase: bool) {
        if v < self.phases.len() {
            self.phases[v] = phase;
        }
    }
}

// Returns the order of the variables 1 to `vars`, with the activities that `ties` draws. Equally active ones stay in their order.
fn ordered(alloc: Global, vars: u32, ties: TieBreaking) -> Result<ActivityOrder, NoMemory> {
    let mut ties = ties;
    let mut order = ActivityOrder::new(alloc, vars, VARIABLE_DECAY)?;
    for v in 0..vars {
        order.raise(v + 1, ties.draw());
        order.put(v + 1)?;
    }
    Ok(order)
}

// Returns the first variable without a value.
fn first_open(trail: &Trail) -> Option<u64>
    ensures { VariableIs trail.now.clauses.vars (lits_of trail.now.entries) result }
{
    let vars = trail.clauses().vars() as u64;
    for i in 0..vars {
        if trail.value(i + 1).is_none() {
            return Some(i + 1);
        }
    }
    None
}
