//! Why the work on a row, or on all rows, ends early.

ghost use Rattle.std.specs.Prelude.{◌≡◌};
ghost use Rattle.sql_eval.specs.declared.refusal.EvalRefusal.{EvalRefusal};
ghost use Rattle.sql_eval.specs.declared.refusal.EvalRefusal.TheVariants as eval;
ghost use Rattle.stmt_eval.specs.Refusing.{from_eval};
ghost use Rattle.stmt_eval.specs.declared.refusal.RowRefusal.TheVariants as row;
ghost use Rattle.stmt_eval.specs.declared.refusal.Stop.TheVariants as stop;

use page_base::NoMemory;
use plain_model::Message;
use sql_eval::EvalRefusal;
use thiserror::Error;

/// Why nothing can be said of a row.
#[derive(Clone, Copy, Debug, PartialEq, Eq, Error)]
pub(crate) enum RowRefusal {
    /// When the row is refused, with the number of the message.
    #[error("the row is refused")]
    Refused(u32),
    /// When no memory was found.
    #[error("no memory was found")]
    Memory,
}

/// Why the rows weren't gone through.
#[derive(Clone, Copy, Debug, PartialEq, Eq, Error)]
pub(crate) enum Stop {
    /// When a row is refused: the message of the first.
    #[error("a row is refused")]
    Refused(Message),
    /// When no memory was found.
    #[error("no memory was found")]
    Memory,
}

impl From<NoMemory> for RowRefusal {
    ghost from_gives = { λ _ refusal. refusal ≡ row.Memory };

    fn from(_: NoMemory) -> Self {
        RowRefusal::Memory
    }
}

impl From<EvalRefusal> for RowRefusal {
    ghost from_gives = { λ why refusal. refusal ≡ from_eval why };

    fn from(why: EvalRefusal) -> Self {
        match why {
            EvalRefusal::Overflow => RowRefusal::Refused(Message::OVERFLOW),
            EvalRefusal::Memory => RowRefusal::Memory,
        }
    }
}

impl From<NoMemory> for Stop {
    ghost from_gives = { λ _ refusal. refusal ≡ stop.Memory };

    fn from(_: NoMemory) -> Self {
        Stop::Memory
    }
}
