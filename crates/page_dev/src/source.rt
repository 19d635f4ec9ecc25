//! Where bytes come from.

ghost use Rattle.std.specs.Prelude.{◌≡◌, List, ℕ, Option};
ghost use Rattle.std.specs.Io.{ReadsAtMost};
ghost use Rattle.std.specs.Io.KnownBytes.{ReadConsumes};
ghost use Rattle.page_dev.specs.Faults.{HasCause};

use page_base::Failed;

/// Bytes still to come.
pub trait Source {
    /// The bytes that are left, where the source tells.
    ghost left: { Self → Option (List ℕ) };

    /// How many faults it met. The count never falls.
    ghost failures: { Self → ℕ };

    /// How many faults it met.
    fn faults(&self) -> u64
        ensures { result ≡ failures self.now };

    /// Reads a piece and answers how many bytes it has. On a piece that isn't empty, 0 means the end.
    /// `Failed` only where the count rose.
    fn read(&mut self, into: &mut [u8]) -> Result<usize, Failed>
        ensures bound { ReadsAtMost result into.new }
        ensures bytes { ReadConsumes (left self.old) (left self.new) result into.new }
        ensures cause { HasCause (failures self.old) (failures self.new) result };
}
