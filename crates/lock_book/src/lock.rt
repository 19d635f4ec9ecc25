//! What a table lock is, which two conflict, and why one is refused.

ghost use Rattle.std.specs.Prelude.{◌≡◌, Option};
ghost use Rattle.page_base.specs.declared.numbers.Mode.{Mode};
ghost use Rattle.lock_book.specs.Modes.{conflicts, gains};

use page_base::{Mode, SessNo, TableNo};
use std::alloc::AllocFailed;

/// A lock: whose it is, on which table, and how.
#[derive(Clone, Copy, Debug, PartialEq, Eq)]
pub struct Lock {
    pub who: SessNo,
    pub table: TableNo,
    pub mode: Mode,
}

/// Why a lock isn't given.
#[derive(Clone, Copy, Debug, PartialEq, Eq)]
pub enum LockRefusal {
    /// When another session holds the table in a mode that conflicts: `by` is the lowest such session.
    Held { by: SessNo },
    /// When no memory was found.
    Memory,
}

impl<T: Drop> From<AllocFailed<T>> for LockRefusal {
    ghost use Rattle.std.specs.Prelude.{◌≡◌};
    ghost use Rattle.lock_book.specs.declared.lock.LockRefusal.TheVariants.{Memory};

    ghost from_gives = { λ _ refusal. refusal ≡ Memory };

    fn from(_: AllocFailed<T>) -> Self {
        LockRefusal::Memory
    }
}

// Whether two sessions cannot hold one table in these modes.
pub(crate) fn conflicts(held: Mode, wanted: Mode) -> bool
    ensures { result ≡ conflicts held wanted }
{
    match (held, wanted) {
        (Mode::S, Mode::S) => false,
        _ => true,
    }
}

// Whether a session that holds the table so gains anything by this mode.
pub(crate) fn gains(held: Mode, wanted: Mode) -> bool
    ensures { result ≡ gains (Some held) wanted }
{
    match (held, wanted) {
        (Mode::S, Mode::X) => true,
        _ => false,
    }
}
