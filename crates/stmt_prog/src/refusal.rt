//! Why a statement doesn't go on.

ghost use Rattle.std.specs.Prelude.{◌≡◌};
ghost use Rattle.plain_model.specs.Messages.{at_place};

use page_base::NoMemory;
use plain_model::{Carried, Message};
use std::alloc::{AllocError, AllocFailed};
use sys_cat::DescRefusal;
use table_walk::SeenRefusal;
use thiserror::Error;

/// Why a statement doesn't go on.
#[derive(Clone, Copy, Debug, PartialEq, Eq, Error)]
pub enum Refusal {
    /// When the statement is answered with this message: its shape isn't right, or a page that was read is damaged.
    #[error("the statement is refused")]
    Refused(Message),
    /// When no memory was found.
    #[error("no memory was found")]
    Memory,
}

// The message of a damaged place.
pub(crate) fn damaged(place: u64) -> Refusal
    ensures { result ≡ Refusal.Refused (at_place Message.DAMAGED place) }
{
    Refusal::Refused(Message {
        number: Message::DAMAGED,
        carried: Carried::Number(place),
    })
}

impl From<NoMemory> for Refusal {
    ghost use Rattle.std.specs.Prelude.{◌≡◌};
    ghost use Rattle.stmt_prog.specs.declared.refusal.Refusal.TheVariants.{Memory};

    ghost from_gives = { λ _ refusal. refusal ≡ Memory };

    fn from(_: NoMemory) -> Self {
        Refusal::Memory
    }
}

impl From<AllocError> for Refusal {
    ghost use Rattle.std.specs.Prelude.{◌≡◌};
    ghost use Rattle.stmt_prog.specs.declared.refusal.Refusal.TheVariants.{Memory};

    ghost from_gives = { λ _ refusal. refusal ≡ Memory };

    fn from(_: AllocError) -> Self {
        Refusal::Memory
    }
}

impl<T: Drop> From<AllocFailed<T>> for Refusal {
    ghost use Rattle.std.specs.Prelude.{◌≡◌};
    ghost use Rattle.stmt_prog.specs.declared.refusal.Refusal.TheVariants.{Memory};

    ghost from_gives = { λ _ refusal. refusal ≡ Memory };

    fn from(_: AllocFailed<T>) -> Self {
        Refusal::Memory
    }
}

impl From<SeenRefusal> for Refusal {
    ghost use Rattle.std.specs.Prelude.{◌≡◌};
    ghost use Rattle.stmt_prog.specs.Refusing.{of_seen};

    ghost from_gives = { λ why refusal. refusal ≡ of_seen why };

    fn from(why: SeenRefusal) -> Self {
        match why {
            SeenRefusal::Damaged { page: _, slot } => damaged(u64::from(slot)),
            SeenRefusal::Memory => Refusal::Memory,
        }
    }
}

impl From<DescRefusal> for Refusal {
    ghost use Rattle.std.specs.Prelude.{◌≡◌};
    ghost use Rattle.stmt_prog.specs.Refusing.{of_descs};

    ghost from_gives = { λ why refusal. refusal ≡ of_descs why };

    fn from(why: DescRefusal) -> Self {
        match why {
            DescRefusal::Form { row } => damaged(u64::from(row)),
            DescRefusal::Memory => Refusal::Memory,
        }
    }
}
