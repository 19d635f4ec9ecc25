//! Which calls of an object fail: each planned failure counts its calls down by itself.

ghost use Rattle.std.specs.Prelude.{◌≡◌, ◌-◌, ◌≤◌, ◌++◌, ◌∷◌, [], IfOk, OnOk, OnErr, map};
ghost use Rattle.std.specs.Bool.{OnTrue};
ghost use Rattle.page_dev.specs.Faults.{Rose};
ghost use Rattle.mem_dev.specs.Plan.{planned, fails_next, one_call_less, after_call, after_fault};

use page_base::NoMemory;
use std::alloc::Global;
use std::marker::Model;

/// The calls to come that fail, numbered from the next one as 1, and how many have failed.
#[derive(Debug, Drop)]
pub(crate) struct FaultPlan {
    due: Vec<u64>,
    failures: u64,
}

impl Model for FaultPlan {
    ghost use Rattle.mem_dev.specs.Plan.{Plan};

    ghost Value = { Plan };

    ghost view = { λ a. record { due = a.due.items; failures = a.failures } };
}

// One call less until each planned failure.
fn count_down(calls: &mut [u64])
    ensures { calls.new ≡ one_call_less calls.old }
{
    for call in calls.iter_mut() {
        *call = call.saturating_sub(1);
    }
}

impl FaultPlan {
    /// A plan by which the calls of these numbers fail.
    pub(crate) fn new(alloc: Global, calls: &[u64]) -> Result<FaultPlan, NoMemory>
        ensures { IfOk result (λ plan. plan ≡ planned calls.now) }
    {
        let due = Vec::from_slice(alloc, calls)?;
        Ok(FaultPlan { due, failures: 0 })
    }

    /// A plan by which these calls fail.
    pub(crate) fn of(due: Vec<u64>) -> FaultPlan
        ensures { result ≡ planned due.items }
    {
        FaultPlan { due, failures: 0 }
    }

    /// Adds a failing call. After want of memory the plan is as before.
    pub(crate) fn add(&mut self, call: u64) -> Result<(), NoMemory>
        ensures ok { OnOk result (self.new ≡ record self.old { due = self.old.due ++ call ∷ [] }) }
        ensures err { OnErr result (self.new ≡ self.old) }
    {
        self.due.push(call)?;
        Ok(())
    }

    /// The calls to come that fail.
    pub(crate) fn into_due(self) -> Vec<u64>
        ensures { result.items ≡ self.due }
    {
        let FaultPlan { due, failures: _ } = self;
        due
    }

    /// How many calls have failed.
    pub(crate) fn failures(&self) -> u64
        ensures { result ≡ self.now.failures }
    {
        self.failures
    }

    /// Counts a call, and answers whether it fails.
    pub(crate) fn meets_fault(&mut self) -> bool
        ensures fails { result ≡ fails_next self.old.due }
        ensures after { self.new ≡ after_call self.old }
        ensures later { self.old.failures ≤ self.new.failures }
        ensures rose { OnTrue result (Rose self.old.failures self.new.failures) }
    {
        let fails = self.due.contains(&1);
        count_down(&mut self.due);
        if fails {
            self.failures = self.failures.saturating_add(1);
        }
        fails
    }

    /// Counts a fault that was not planned.
    pub(crate) fn count_fault(&mut self)
        ensures after { self.new ≡ after_fault self.old }
        ensures rose { Rose self.old.failures self.new.failures }
    {
        self.failures = self.failures.saturating_add(1);
    }
}
