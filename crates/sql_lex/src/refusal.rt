//! Why a batch isn't read.

ghost use Rattle.std.specs.Prelude.{◌≡◌};
ghost use Rattle.sql_lex.specs.declared.refusal.ParseRefusal.TheVariants.{Memory};

use page_base::NoMemory;
use thiserror::Error;

/// Why a batch isn't read.
#[derive(Clone, Copy, Debug, PartialEq, Eq, Error)]
pub enum ParseRefusal {
    /// When the batch isn't in the grammar: the place of the first byte of the first token that can't stand, of the first
    /// token of the 65th part of a list, or of a text that names no file, or the batch's length where it ends too early.
    #[error("a token at {at} can't stand")]
    Syntax { at: u32 },
    /// When no memory was found.
    #[error("no memory was found")]
    Memory,
}

impl From<NoMemory> for ParseRefusal {
    ghost from_gives = { λ _ e. e ≡ Memory };

    fn from(_: NoMemory) -> Self {
        ParseRefusal::Memory
    }
}
