//! A plan of edits: which slot of which page gets which bytes.

use page_base::{Bytes, ListOf, PageId};

/// One slot of a page, below 4,048, is to have these bytes, at most 8,094.
#[derive(Debug, Drop)]
pub struct Edit {
    pub page: PageId,
    pub slot: u16,
    pub bytes: Bytes,
}

/// Edits, to be done in order.
pub type EditList = ListOf<Edit>;
