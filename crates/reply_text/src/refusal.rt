//! Why bytes aren't read as a history.

ghost use Rattle.std.specs.Prelude.{◌≡◌};
ghost use Rattle.reply_text.specs.declared.refusal.BookRefusal.TheVariants.{Memory};

use page_base::NoMemory;
use thiserror::Error;

/// Why bytes aren't read as a history.
#[derive(Clone, Copy, Debug, PartialEq, Eq, Error)]
pub enum BookRefusal {
    /// When a line, counted from 1, is the first that can't stand; one past the last line where rows are missing.
    #[error("line {0} can't stand")]
    Line(u32),
    /// When no memory was found.
    #[error("no memory was found")]
    Memory,
}

impl From<NoMemory> for BookRefusal {
    ghost from_gives = { λ _ e. e ≡ Memory };

    fn from(_: NoMemory) -> Self {
        BookRefusal::Memory
    }
}
