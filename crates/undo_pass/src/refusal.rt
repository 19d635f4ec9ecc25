//! Why a snapshot's page isn't healed.

use page_base::Failed;
use thiserror::Error;

/// Why a record isn't taken back from a snapshot's page.
#[derive(Clone, Copy, Debug, PartialEq, Eq, Error)]
pub enum HealRefusal {
    /// When a call on the sparse file failed.
    #[error("a sparse file failed")]
    Failed,
    /// When the bytes that were read are no page, `at` the first place that is wrong; or the slot has no room for what
    /// stood there, `at` the place of its offset.
    #[error("the sparse page is damaged at {at}")]
    Damaged { at: u32 },
}

impl From<Failed> for HealRefusal {
    ghost use Rattle.std.specs.Prelude.{◌≡◌};
    ghost use Rattle.undo_pass.specs.declared.refusal.HealRefusal.TheVariants.{Failed as FileFailed};

    ghost from_gives = { λ _ refusal. refusal ≡ FileFailed };

    fn from(_: Failed) -> Self {
        HealRefusal::Failed
    }
}
