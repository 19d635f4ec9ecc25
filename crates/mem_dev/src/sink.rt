//! Sinks that keep what they take in memory.

ghost use Rattle.std.specs.Prelude.{◌≡◌, ◌<◌, ◌↔◌, IfOk, Some, [], length, IsTrue};
ghost use Rattle.std.specs.Io.{WritesAtMost};
ghost use Rattle.page_dev.specs.declared.sink.SinkRefusal.TheVariants.{Failed};
ghost use Rattle.page_dev.specs.Faults.{HasCauseOf};
ghost use Rattle.page_dev.specs.Sink.{Takes};
ghost use Rattle.mem_dev.specs.Plan.{planned, fails_next, after_call};
ghost use Rattle.mem_dev.specs.Streams.{TakesAll};

use crate::fault_plan::FaultPlan;
use page_base::NoMemory;
use page_dev::{Sink, SinkRefusal};
use std::alloc::Global;
use std::marker::Model;

// Takes all of a piece, or nothing where no memory is found.
fn take_in(taken: &mut Vec<u8>, piece: &[u8]) -> Result<usize, SinkRefusal>
    ensures all { TakesAll taken.old.items taken.new.items result piece.now }
    ensures sure { (result ≡ Err Failed) → ⊥ }
{
    match taken.extend_from_slice(piece) {
        Ok(()) => Ok(piece.len()),
        Err(_) => Err(SinkRefusal::Memory),
    }
}

/// Takes bytes into memory, and fails at chosen writes. It tells what it took. After `Failed` nothing was taken.
#[derive(Debug, Drop)]
pub struct MemSink {
    taken: Vec<u8>,
    plan: FaultPlan,
}

impl Model for MemSink {
    ghost use Rattle.mem_dev.specs.Streams.{Intake};

    ghost Value = { Intake };

    ghost view = { λ a. record { taken = a.taken.items; plan = a.plan } };
}

impl MemSink {
    /// A sink that has taken nothing. Its writes with the numbers in `fail`, the first being 1, fail.
    pub fn new(alloc: Global, fail: &[u64]) -> Result<MemSink, NoMemory>
        ensures taken { IfOk result (λ sink. sink.taken ≡ []) }
        ensures plan { IfOk result (λ sink. sink.plan ≡ planned fail.now) }
    {
        let plan = FaultPlan::new(alloc, fail)?;
        Ok(MemSink {
            taken: Vec::new(alloc),
            plan,
        })
    }

    /// The bytes taken so far.
    pub fn bytes(&self) -> &[u8]
        ensures { result.now ≡ self.now.taken }
    {
        &self.taken
    }
}

impl Sink for MemSink {
    ghost taken = { λ sink. Some sink.taken };

    ghost failures = { λ sink. sink.plan.failures };

    fn faults(&self) -> u64 {
        self.plan.failures()
    }

    fn write(&mut self, from: &[u8]) -> Result<usize, SinkRefusal>
        ensures bound { WritesAtMost result from.now }
        ensures some { 0 < length from.now → IfOk result (λ n. 0 < n) }
        ensures bytes { Takes (Some self.old.taken) (Some self.new.taken) result from.now }
        ensures cause { HasCauseOf Failed self.old.plan.failures self.new.plan.failures result }

        // all of the piece or nothing, and a failure exactly where this call was to fail
        ensures all { TakesAll self.old.taken self.new.taken result from.now }
        ensures fails { (result ≡ Err Failed) ↔ IsTrue (fails_next self.old.plan.due) }
        ensures plan { self.new.plan ≡ after_call self.old.plan }
    {
        if self.plan.meets_fault() {
            return Err(SinkRefusal::Failed);
        }
        take_in(&mut self.taken, from)
    }
}

/// Takes bytes into memory and never fails: its count of faults is the constant 0.
#[derive(Debug, Drop)]
pub struct SureSink {
    taken: Vec<u8>,
}

impl Model for SureSink {
    ghost use Rattle.std.specs.Prelude.{List, ℕ};

    ghost Value = { List ℕ };

    ghost view = { λ a. a.taken.items };
}

impl SureSink {
    /// A sink that has taken nothing.
    pub fn new(alloc: Global) -> Result<SureSink, NoMemory>
        ensures { IfOk result (λ sink. sink ≡ []) }
    {
        Ok(SureSink {
            taken: Vec::new(alloc),
        })
    }

    /// The bytes taken so far.
    pub fn bytes(&self) -> &[u8]
        ensures { result.now ≡ self.now }
    {
        &self.taken
    }
}

impl Sink for SureSink {
    ghost taken = { λ sink. Some sink };

    ghost failures = { λ _. 0 };

    fn faults(&self) -> u64 {
        0
    }

    fn write(&mut self, from: &[u8]) -> Result<usize, SinkRefusal>
        ensures bound { WritesAtMost result from.now }
        ensures some { 0 < length from.now → IfOk result (λ n. 0 < n) }
        ensures bytes { Takes (Some self.old) (Some self.new) result from.now }
        ensures cause { HasCauseOf Failed 0 0 result }

        // all of the piece or nothing
        ensures all { TakesAll self.old self.new result from.now }
    {
        take_in(&mut self.taken, from)
    }
}
