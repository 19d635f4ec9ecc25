//! Sources whose bytes lie in memory.

ghost use Rattle.std.specs.Prelude.{◌≡◌, IfOk, Some, length, min, take, drop, is_err};
ghost use Rattle.std.specs.Io.{ReadsAtMost};
ghost use Rattle.std.specs.Io.KnownBytes.{ReadConsumes};
ghost use Rattle.page_dev.specs.Faults.{HasCause};
ghost use Rattle.mem_dev.specs.Plan.{planned, fails_next, after_call};

use crate::fault_plan::FaultPlan;
use page_base::{Failed, NoMemory};
use page_dev::Source;
use std::alloc::Global;
use std::marker::Model;

/// Bytes that are handed out from the front.
#[derive(Debug, Drop)]
struct Rest {
    bytes: Vec<u8>,
    next: usize,
}

impl Model for Rest {
    ghost use Rattle.std.specs.Prelude.{◌≤◌, List, ℕ, drop, length};

    ghost Value = { List ℕ };

    ghost view = { λ a. drop a.next a.bytes.items };

    ghost invariant = { λ a. a.next ≤ length a.bytes.items };
}

impl Rest {
    fn new(alloc: Global, bytes: &[u8]) -> Result<Rest, NoMemory>
        ensures { IfOk result (λ rest. rest ≡ bytes.now) }
    {
        let bytes = Vec::from_slice(alloc, bytes)?;
        Ok(Rest { bytes, next: 0 })
    }

    // As many bytes as the piece has room for, and how many.
    fn give(&mut self, into: &mut [u8]) -> usize
        ensures count { result ≡ min (length self.old) (length into.new) }
        ensures bytes { take result into.new ≡ take result self.old }
        ensures rest { self.new ≡ drop result self.old }
    {
        let left = &self.bytes[self.next..];
        let count = left.len().min(into.len());
        into[..count].copy_from_slice(&left[..count]);
        self.next += count;
        count
    }
}

/// Bytes in memory, of which chosen reads fail. It tells what is left.
#[derive(Debug, Drop)]
pub struct MemSource {
    rest: Rest,
    plan: FaultPlan,
}

impl Model for MemSource {
    ghost use Rattle.mem_dev.specs.Streams.{Supply};

    ghost Value = { Supply };

    ghost view = { λ a. record { left = a.rest; plan = a.plan } };
}

impl MemSource {
    /// A source of these bytes. Its reads with the numbers in `fail`, the first being 1, fail.
    pub fn new(alloc: Global, bytes: &[u8], fail: &[u64]) -> Result<MemSource, NoMemory>
        ensures left { IfOk result (λ source. source.left ≡ bytes.now) }
        ensures plan { IfOk result (λ source. source.plan ≡ planned fail.now) }
    {
        let rest = Rest::new(alloc, bytes)?;
        let plan = FaultPlan::new(alloc, fail)?;
        Ok(MemSource { rest, plan })
    }
}

impl Source for MemSource {
    ghost left = { λ source. Some source.left };

    ghost failures = { λ source. source.plan.failures };

    fn faults(&self) -> u64 {
        self.plan.failures()
    }

    fn read(&mut self, into: &mut [u8]) -> Result<usize, Failed>
        ensures bound { ReadsAtMost result into.new }
        ensures bytes { ReadConsumes (Some self.old.left) (Some self.new.left) result into.new }
        ensures cause { HasCause self.old.plan.failures self.new.plan.failures result }

        // as many bytes as there is room for, and none exactly where this call was to fail
        ensures count { IfOk result (λ n. n ≡ min (length self.old.left) (length into.new)) }
        ensures fails { is_err result ≡ fails_next self.old.plan.due }
        ensures plan { self.new.plan ≡ after_call self.old.plan }
    {
        if self.plan.meets_fault() {
            return Err(Failed);
        }
        Ok(self.rest.give(into))
    }
}

/// Bytes in memory that never fail to come: its count of faults is the constant 0.
#[derive(Debug, Drop)]
pub struct SureSource {
    rest: Rest,
}

impl Model for SureSource {
    ghost use Rattle.std.specs.Prelude.{List, ℕ};

    ghost Value = { List ℕ };

    ghost view = { λ a. a.rest };
}

impl SureSource {
    /// A source of these bytes.
    pub fn new(alloc: Global, bytes: &[u8]) -> Result<SureSource, NoMemory>
        ensures { IfOk result (λ source. source ≡ bytes.now) }
    {
        let rest = Rest::new(alloc, bytes)?;
        Ok(SureSource { rest })
    }
}

impl Source for SureSource {
    ghost left = { λ source. Some source };

    ghost failures = { λ _. 0 };

    fn faults(&self) -> u64 {
        0
    }

    fn read(&mut self, into: &mut [u8]) -> Result<usize, Failed>
        ensures bound { ReadsAtMost result into.new }
        ensures bytes { ReadConsumes (Some self.old) (Some self.new) result into.new }
        ensures cause { HasCause 0 0 result }

        // as many bytes as there is room for
        ensures count { result ≡ Ok (min (length self.old) (length into.new)) }
    {
        Ok(self.rest.give(into))
    }
}
