//! A child as its page names it, so that code and specifications speak of the same thing.

use page_base::{PageId, Row};

/// A child of a page: the least key that it may hold, none where it may hold every key below the next child's, its page,
/// and the slot that names it.
#[derive(Debug, Drop)]
pub struct Child {
    pub least: Option<Row>,
    pub page: PageId,
    pub slot: u16,
}
