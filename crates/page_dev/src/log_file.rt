//! A file of bytes that grows at its end.

ghost use Rattle.std.specs.Prelude.{◌≡◌, ◌+◌, ◌<◌, ◌≤◌, ◌^◌, ℕ, Bool, IsTrue, List, length, OnOk};
ghost use Rattle.std.specs.Io.{ReadsAtMost};
ghost use Rattle.page_dev.specs.Faults.{HasCause, HasCauseOf};
ghost use Rattle.page_dev.specs.LogFile.{ReadsAt, Appends};

use page_base::Failed;
use thiserror::Error;

/// Why bytes weren't appended.
#[derive(Clone, Copy, Debug, PartialEq, Eq, Error)]
pub enum LogRefusal {
    /// When the file failed: its count of faults rose.
    #[error("the log failed")]
    Failed,
    /// When no memory was found.
    #[error("no memory was found")]
    Memory,
}

/// A file of bytes that grows at its end.
pub trait LogFile: Drop {
    /// Whether it tells its content. Clauses on bytes hold where it does.
    ghost tells: { Self → Bool };

    /// The bytes, where it tells.
    ghost content: { Self → List ℕ };

    /// How many faults it met. The count never falls.
    ghost failures: { Self → ℕ };

    /// How many faults it met.
    fn faults(&self) -> u64
        ensures { result ≡ failures self.now };

    /// Reads from the place `at` as many bytes as the piece holds and the file has, and answers how many. `Failed`
    /// only where the count of faults rose; no read, failed or not, changes the file.
    fn read_at(&mut self, at: u64, into: &mut [u8]) -> Result<usize, Failed>
        ensures bound { ReadsAtMost result into.new }
        ensures read { IsTrue (tells self.old) → ReadsAt (content self.old) at into.new result }
        ensures content { IsTrue (tells self.old) → content self.new ≡ content self.old }
        ensures tells { tells self.new ≡ tells self.old }
        ensures cause { HasCause (failures self.old) (failures self.new) result };

    /// Puts the bytes at the place `end`, after which nothing follows them. `Failed` only where the count of faults
    /// rose, and then the first `end` bytes stand; after `Memory` the file is as before.
    fn append_at(&mut self, end: u64, bytes: &[u8]) -> Result<(), LogRefusal>
        requires { IsTrue (tells self.old) → end ≤ length (content self.old) }
        ensures small { OnOk result (end + length bytes.now < 2 ^ 63) }
        ensures appended { IsTrue (tells self.old) → Appends end bytes.now (content self.old) (content self.new) result }
        ensures tells { tells self.new ≡ tells self.old }
        ensures cause { HasCauseOf LogRefusal.Failed (failures self.old) (failures self.new) result };
}
