//! Where bytes go.

ghost use Rattle.std.specs.Prelude.{◌≡◌, ◌<◌, List, ℕ, length, Option, IfOk};
ghost use Rattle.std.specs.Io.{WritesAtMost};
ghost use Rattle.page_dev.specs.declared.sink.SinkRefusal.TheVariants.{Failed};
ghost use Rattle.page_dev.specs.Faults.{HasCauseOf};
ghost use Rattle.page_dev.specs.Sink.{Takes};

use thiserror::Error;

/// Why a piece wasn't taken.
#[derive(Clone, Copy, Debug, PartialEq, Eq, Error)]
pub enum SinkRefusal {
    /// When the sink failed: its count of faults rose.
    #[error("the sink failed")]
    Failed,
    /// When no memory was found.
    #[error("no memory was found")]
    Memory,
}

/// Where bytes go.
pub trait Sink {
    /// The bytes taken, where the sink tells.
    ghost taken: { Self → Option (List ℕ) };

    /// How many faults it met. The count never falls.
    ghost failures: { Self → ℕ };

    /// How many faults it met.
    fn faults(&self) -> u64
        ensures { result ≡ failures self.now };

    /// Takes a front of the piece and answers how many bytes it has: at least one where the piece isn't empty.
    /// `Failed` only where the count rose, and then any front may be taken; after `Memory` nothing is.
    fn write(&mut self, from: &[u8]) -> Result<usize, SinkRefusal>
        ensures bound { WritesAtMost result from.now }
        ensures some { 0 < length from.now → IfOk result (λ n. 0 < n) }
        ensures bytes { Takes (taken self.old) (taken self.new) result from.now }
        ensures cause { HasCauseOf Failed (failures self.old) (failures self.new) result };
}
