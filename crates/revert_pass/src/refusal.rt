//! Why a snapshot's page isn't gathered.

use buf_pool::FetchRefusal;
use page_base::NoMemory;
use std::alloc::AllocError;
use thiserror::Error;

/// Why a page of a snapshot isn't gathered.
#[derive(Clone, Copy, Debug, PartialEq, Eq, Error)]
pub enum RevertRefusal {
    /// When the source's page isn't brought in; or the bytes that were read of the sparse page are no page, which is
    /// `Damaged` too.
    #[error("a page isn't brought in")]
    Fetch(FetchRefusal),
    /// When the read of the sparse file failed.
    #[error("a sparse file failed")]
    Sparse,
    /// When no memory was found.
    #[error("no memory was found")]
    Memory,
}

impl From<FetchRefusal> for RevertRefusal {
    ghost use Rattle.std.specs.Prelude.{◌≡◌};
    ghost use Rattle.revert_pass.specs.declared.refusal.RevertRefusal.TheVariants.{Fetch};

    ghost from_gives = { λ inner refusal. refusal ≡ Fetch inner };

    fn from(inner: FetchRefusal) -> Self {
        RevertRefusal::Fetch(inner)
    }
}

impl From<NoMemory> for RevertRefusal {
    ghost use Rattle.std.specs.Prelude.{◌≡◌};
    ghost use Rattle.revert_pass.specs.declared.refusal.RevertRefusal.TheVariants.{Memory};

    ghost from_gives = { λ _ refusal. refusal ≡ Memory };

    fn from(_: NoMemory) -> Self {
        RevertRefusal::Memory
    }
}

impl From<AllocError> for RevertRefusal {
    ghost use Rattle.std.specs.Prelude.{◌≡◌};
    ghost use Rattle.revert_pass.specs.declared.refusal.RevertRefusal.TheVariants.{Memory};

    ghost from_gives = { λ _ refusal. refusal ≡ Memory };

    fn from(_: AllocError) -> Self {
        RevertRefusal::Memory
    }
}
