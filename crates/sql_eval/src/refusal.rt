//! Why an evaluation gives no value.

ghost use Rattle.std.specs.Prelude.{◌≡◌};
ghost use Rattle.sql_eval.specs.declared.refusal.EvalRefusal.TheVariants.{Memory};

use page_base::NoMemory;
use thiserror::Error;

/// Why an expression has no value over a row.
#[derive(Clone, Copy, Debug, PartialEq, Eq, Error)]
pub enum EvalRefusal {
    /// When a number is outside the type of its operator's result.
    #[error("a number is outside its type")]
    Overflow,
    /// When no memory was found for the copy of a text.
    #[error("no memory was found")]
    Memory,
}

impl From<NoMemory> for EvalRefusal {
    ghost from_gives = { λ _ refusal. refusal ≡ Memory };

    fn from(_: NoMemory) -> Self {
        EvalRefusal::Memory
    }
}
