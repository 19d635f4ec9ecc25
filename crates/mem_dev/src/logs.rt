//! Logs in memory.

ghost use Rattle.std.specs.Prelude.{◌≡◌, ◌↔◌, ◌≤◌, ◌<◌, ◌+◌, ◌-◌, ◌^◌, IsTrue, true, false, Err, OnOk, length, min, take, drop, is_err};
ghost use Rattle.std.specs.Io.{ReadsAtMost};
ghost use Rattle.page_dev.specs.Faults.{HasCause, HasCauseOf};
ghost use Rattle.page_dev.specs.LogFile.{ReadsAt, Appends};
ghost use Rattle.mem_dev.specs.Plan.{planned, fails_next, after_call};

use crate::fault_plan::FaultPlan;
use crate::file_rule::FileRule;
use page_base::Failed;
use page_dev::{LogFile, LogRefusal};
use std::marker::Model;

// As many bytes from a place as the piece holds and the file has, and how many.
fn read_from(file: &[u8], at: u64, into: &mut [u8]) -> usize
    ensures bound { result ≤ length into.new }
    ensures count { result ≡ min (length into.new) (length file.now - at) }
    ensures bytes { take result into.new ≡ take result (drop at file.now) }
{
    let start = at.min(file.len() as u64) as usize;
    let rest = &file[start..];
    let count = rest.len().min(into.len());
    into[..count].copy_from_slice(&rest[..count]);
    count
}

// Cuts a file at a place and puts the bytes there.
fn append_to(file: &mut Vec<u8>, end: u64, bytes: &[u8]) -> Result<(), LogRefusal>
    requires { end ≤ length file.old.items }
    ensures small { OnOk result (end + length bytes.now < 2 ^ 63) }
    ensures appended { Appends end bytes.now file.old.items file.new.items result }
    ensures sure { (result ≡ Err LogRefusal.Failed) → ⊥ }
{
    if file.reserve(bytes.len()).is_err() {
        return Err(LogRefusal::Memory);
    }
    file.truncate(end as usize);
    match file.extend_from_slice(bytes) {
        Ok(()) => Ok(()),
        Err(_) => Err(LogRefusal::Memory),
    }
}

/// A log in memory, of which chosen reads and writes fail. It tells its content.
#[derive(Debug, Drop)]
pub struct MemLog {
    bytes: Vec<u8>,
    // of no use to a log, and kept for its name
    limit: Option<u32>,
    plan: FaultPlan,
}

impl Model for MemLog {
    ghost use Rattle.mem_dev.specs.Store.{LogState};

    ghost Value = { LogState };

    ghost view = { λ a. record { bytes = a.bytes.items; limit = a.limit; plan = a.plan } };
}

impl MemLog {
    /// A log of these bytes that meets a rule.
    pub(crate) fn new(bytes: Vec<u8>, rule: FileRule) -> MemLog
        ensures { result ≡ record { bytes = bytes.items; limit = rule.limit; plan = planned rule.due } }
    {
        let (due, limit) = rule.into_parts();
        MemLog {
            bytes,
            limit,
            plan: FaultPlan::of(due),
        }
    }

    /// The bytes, and what is left of the rule.
    pub(crate) fn into_parts(self) -> (Vec<u8>, FileRule)
        ensures bytes { result.0.items ≡ self.bytes }
        ensures rule { result.1 ≡ record { due = self.plan.due; limit = self.limit } }
    {
        let MemLog { bytes, limit, plan } = self;
        (bytes, FileRule::new(plan.into_due(), limit))
    }
}

impl LogFile for MemLog {
    ghost tells = { λ _. true };

    ghost content = { λ file. file.bytes };

    ghost failures = { λ file. file.plan.failures };

    fn faults(&self) -> u64 {
        self.plan.failures()
    }

    fn read_at(&mut self, at: u64, into: &mut [u8]) -> Result<usize, Failed>
        ensures bound { ReadsAtMost result into.new }
        ensures read { ReadsAt self.old.bytes at into.new result }
        ensures cause { HasCause self.old.plan.failures self.new.plan.failures result }

        // the call fails exactly where it was to, and nothing else changes
        ensures fails { is_err result ≡ fails_next self.old.plan.due }
        ensures plan { self.new.plan ≡ after_call self.old.plan }
        ensures bytes { self.new.bytes ≡ self.old.bytes }
        ensures limit { self.new.limit ≡ self.old.limit }
    {
        if self.plan.meets_fault() {
            return Err(Failed);
        }
        Ok(read_from(&self.bytes, at, into))
    }

    fn append_at(&mut self, end: u64, bytes: &[u8]) -> Result<(), LogRefusal>
        requires { end ≤ length self.old.bytes }
        ensures small { OnOk result (end + length bytes.now < 2 ^ 63) }
        ensures appended { Appends end bytes.now self.old.bytes self.new.bytes result }
        ensures cause { HasCauseOf LogRefusal.Failed self.old.plan.failures self.new.plan.failures result }

        // the call fails exactly where it was to, and then nothing changed but the count
        ensures fails { (result ≡ Err LogRefusal.Failed) ↔ IsTrue (fails_next self.old.plan.due) }
        ensures plan { self.new.plan ≡ after_call self.old.plan }
        ensures failed { (result ≡ Err LogRefusal.Failed) → self.new.bytes ≡ self.old.bytes }
        ensures limit { self.new.limit ≡ self.old.limit }
    {
        if self.plan.meets_fault() {
            return Err(LogRefusal::Failed);
        }
        append_to(&mut self.bytes, end, bytes)
    }
}

/// A log in memory that never fails: its count of faults is the constant 0.
#[derive(Debug, Drop)]
pub struct SureLog {
    bytes: Vec<u8>,
}

impl Model for SureLog {
    ghost use Rattle.std.specs.Prelude.{List, ℕ};

    ghost Value = { List ℕ };

    ghost view = { λ a. a.bytes.items };
}

impl SureLog {
    /// A log of these bytes.
    pub(crate) fn new(bytes: Vec<u8>) -> SureLog
        ensures { result ≡ bytes.items }
    {
        SureLog { bytes }
    }

    /// The bytes.
    pub(crate) fn into_bytes(self) -> Vec<u8>
        ensures { result.items ≡ self }
    {
        let SureLog { bytes } = self;
        bytes
    }
}

impl LogFile for SureLog {
    ghost tells = { λ _. true };

    ghost content = { λ file. file };

    ghost failures = { λ _. 0 };

    fn faults(&self) -> u64 {
        0
    }

    fn read_at(&mut self, at: u64, into: &mut [u8]) -> Result<usize, Failed>
        ensures bound { ReadsAtMost result into.new }
        ensures read { ReadsAt self.old at into.new result }
        ensures bytes { self.new ≡ self.old }
        ensures sure { is_err result ≡ false }
    {
        Ok(read_from(&self.bytes, at, into))
    }

    fn append_at(&mut self, end: u64, bytes: &[u8]) -> Result<(), LogRefusal>
        requires { end ≤ length self.old }
        ensures small { OnOk result (end + length bytes.now < 2 ^ 63) }
        ensures appended { Appends end bytes.now self.old self.new result }
        ensures sure { (result ≡ Err LogRefusal.Failed) → ⊥ }
    {
        append_to(&mut self.bytes, end, bytes)
    }
}
