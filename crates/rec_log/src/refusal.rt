//! Why bytes are not read as a log.

use std::alloc::AllocFailed;

/// Why bytes are not read as a log.
#[derive(Clone, Copy, Debug, PartialEq, Eq)]
pub enum LogForm {
    /// When the bytes are no log: `at` is the first byte of the first field that is wrong or cut short.
    Form { at: u64 },
    /// When no memory was found.
    Memory,
}

impl<T: Drop> From<AllocFailed<T>> for LogForm {
    ghost use Rattle.std.specs.Prelude.{◌≡◌};
    ghost use Rattle.rec_log.specs.declared.refusal.LogForm.TheVariants.{Memory};

    ghost from_gives = { λ _ refusal. refusal ≡ Memory };

    fn from(_: AllocFailed<T>) -> Self {
        LogForm::Memory
    }
}
