//! Why pages that were read are no table.

use page_base::{NoMemory, PageId};
use std::alloc::{AllocError, AllocFailed};
use thiserror::Error;

/// Why pages that were read are no table.
#[derive(Clone, Copy, Debug, PartialEq, Eq, Error)]
pub enum SeenRefusal {
    /// When this slot of this page is no row or address, or the address of a page that an earlier slot names.
    #[error("slot {slot} of page {} in file {} is no row or address of its table", page.page, page.file)]
    Damaged { page: PageId, slot: u16 },
    /// When no memory was found.
    #[error("no memory was found")]
    Memory,
}

impl From<NoMemory> for SeenRefusal {
    ghost use Rattle.std.specs.Prelude.{◌≡◌};
    ghost use Rattle.table_walk.specs.declared.refusal.SeenRefusal.TheVariants.{Memory};

    ghost from_gives = { λ _ refusal. refusal ≡ Memory };

    fn from(_: NoMemory) -> Self {
        SeenRefusal::Memory
    }
}

impl From<AllocError> for SeenRefusal {
    ghost use Rattle.std.specs.Prelude.{◌≡◌};
    ghost use Rattle.table_walk.specs.declared.refusal.SeenRefusal.TheVariants.{Memory};

    ghost from_gives = { λ _ refusal. refusal ≡ Memory };

    fn from(_: AllocError) -> Self {
        SeenRefusal::Memory
    }
}

impl<T: Drop> From<AllocFailed<T>> for SeenRefusal {
    ghost use Rattle.std.specs.Prelude.{◌≡◌};
    ghost use Rattle.table_walk.specs.declared.refusal.SeenRefusal.TheVariants.{Memory};

    ghost from_gives = { λ _ refusal. refusal ≡ Memory };

    fn from(_: AllocFailed<T>) -> Self {
        SeenRefusal::Memory
    }
}
