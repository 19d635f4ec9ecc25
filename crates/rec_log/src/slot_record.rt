//! One slot's change, with what stood there before it.

ghost use Rattle.std.specs.Prelude.{◌≡◌, IfOk};
ghost use Rattle.rec_log.specs.Records.{IsRecord};

use page_base::{Bytes, NoMemory, PageId};
use std::alloc::Global;
use std::marker::Model;

/// The change of one slot of a page, from `before` to `after`; no bytes are an empty slot.
/// The slot is below 4,048 and each side has at most 8,094 bytes, as the page format allows.
#[derive(Debug, Drop)]
pub struct Rec {
    pub page: PageId,
    pub slot: u16,
    pub before: Bytes,
    pub after: Bytes,
}

impl Model for Rec {
    ghost use Rattle.rec_log.specs.Records.{Record, IsRecord};

    ghost Value = { Record };

    ghost view = { λ r. record { page = r.page; slot = r.slot; before = r.before; after = r.after } };

    ghost invariant = { λ r. IsRecord (record { page = r.page; slot = r.slot; before = r.before; after = r.after }) };
}

impl Rec {
    /// For proofs alone: what the type keeps of each record. Does nothing when it runs.
    pub fn keeps_limits(&self)
        ensures { IsRecord self.now }
    {
        let _page = self.page;
    }

    // The same record once more.
    pub(crate) fn copy(&self, alloc: Global) -> Result<Rec, NoMemory>
        ensures { IfOk result (λ copy. copy ≡ self.now) }
    {
        Ok(Rec {
            page: self.page,
            slot: self.slot,
            before: self.before.copy(alloc)?,
            after: self.after.copy(alloc)?,
        })
    }
}
