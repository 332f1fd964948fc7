//! The plan of faults of a folder or sink in memory: which of its calls are to fail.
ghost use Rattle.std.specs.Prelude.{◌≡◌, ◌+◌, ◌-◌, ◌^◌, ◌≤◌, ◌↔◌, if◌then◌else◌, min, Contains, IsTrue};

/// The numbers of the calls that are to fail, and counts of the calls and of the faults so far.
#[derive(Debug, Drop)]
pub(crate) struct FaultPlan {
    failing: Vec<u64>,
    calls: u64,
    faults: u64,
}

impl FaultPlan {
    /// Returns the plan by which the calls with these numbers fail, counted from 1.
    pub(crate) fn new(failing: Vec<u64>) -> FaultPlan
        ensures failing { result.failing ≡ failing }
        ensures calls { result.calls ≡ 0 }
        ensures faults { result.faults ≡ 0 }
    {
        FaultPlan {
            failing,
            calls: 0,
            faults: 0,
        }
    }

    /// Counts one more call, and returns whether it fails. A failing call counts as a fault.
    pub(crate) fn next_fails(&mut self) -> bool
        ensures failing { self.new.failing ≡ self.old.failing }
        ensures calls { self.new.calls ≡ min (self.old.calls + 1) (2 ^ 64 - 1) }
        ensures planned { IsTrue result ↔ Contains self.old.failing.items self.new.calls }
        ensures faults { self.new.faults ≡ (if result then min (self.old.faults + 1) (2 ^ 64 - 1) else self.old.faults) }
        ensures later { self.old.faults ≤ self.new.faults }
    {
        self.calls = self.calls.saturating_add(1);
        let fails = self.failing.contains(&self.calls);
        if fails {
            self.count_fault();
        }
        fails
    }

    /// Counts one more fault.
    pub(crate) fn count_fault(&mut self)
        ensures failing { self.new.failing ≡ self.old.failing }
        ensures calls { self.new.calls ≡ self.old.calls }
        ensures faults { self.new.faults ≡ min (self.old.faults + 1) (2 ^ 64 - 1) }
        ensures later { self.old.faults ≤ self.new.faults }
    {
        self.faults = self.faults.saturating_add(1);
    }
}
