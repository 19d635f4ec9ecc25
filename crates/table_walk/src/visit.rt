//! A page that a walk comes to.

ghost use Rattle.std.specs.Prelude.{◌≡◌};
ghost use Rattle.table_walk.specs.Tables as spec;

use page_base::PageId;

/// A page, the slot that names it, and how many levels of pages stand below it: none are known of some roots, 0 below a
/// page of rows.
#[derive(Clone, Copy, Debug, PartialEq, Eq)]
pub struct Visit {
    pub page: PageId,
    pub from: PageId,
    pub slot: u16,
    pub level: Option<u32>,
}

/// Whether the page of a visit holds rows. Takes no memory.
pub fn is_leaf(visit: Visit) -> bool
    ensures { result ≡ spec.is_leaf visit }
{
    match visit.level {
        None => false,
        Some(level) => level == 0,
    }
}
