//! Why a page isn't brought in.

use page_base::NoMemory;
use std::alloc::AllocFailed;
use thiserror::Error;

/// Why a page isn't brought in.
#[derive(Clone, Copy, Debug, PartialEq, Eq, Error)]
pub enum FetchRefusal {
    /// When all frames hold pinned pages: `pins` is the number of frames.
    #[error("all {pins} frames are pinned")]
    AllPinned { pins: u32 },
    /// When a read or a write of a data file failed: `count` is the sum of the files' faults.
    #[error("a data file failed, at {count} faults")]
    DataFault { count: u64 },
    /// When the bytes that were read are no page, `at` the first place that is wrong.
    #[error("the bytes are no page from {at} on")]
    Damaged { at: u32 },
    /// When no memory was found.
    #[error("no memory was found")]
    Memory,
}

impl From<NoMemory> for FetchRefusal {
    ghost use Rattle.std.specs.Prelude.{◌≡◌};
    ghost use Rattle.buf_pool.specs.declared.refusal.FetchRefusal.TheVariants.{Memory};

    ghost from_gives = { λ _ refusal. refusal ≡ Memory };

    fn from(_: NoMemory) -> Self {
        FetchRefusal::Memory
    }
}

impl<T: Drop> From<AllocFailed<T>> for FetchRefusal {
    ghost use Rattle.std.specs.Prelude.{◌≡◌};
    ghost use Rattle.buf_pool.specs.declared.refusal.FetchRefusal.TheVariants.{Memory};

    ghost from_gives = { λ _ refusal. refusal ≡ Memory };

    fn from(_: AllocFailed<T>) -> Self {
        FetchRefusal::Memory
    }
}
