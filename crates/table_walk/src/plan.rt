//! A plan: how many pages a table claims, and which slots are edited then.

use page_base::{Bytes, ListOf, PageId};

/// A page that is there, or one of those that the plan claims, counted from 0.
#[derive(Clone, Copy, Debug, PartialEq, Eq)]
pub enum Spot {
    Old(PageId),
    New(u32),
}

/// An edit of one slot. It writes the address of the claimed page that `names` counts, where it counts one, and then
/// `bytes`; where both are nothing the slot is emptied. `of_row` tells whether its page is one of those that hold rows.
#[derive(Debug, Drop)]
pub struct Edit {
    pub spot: Spot,
    pub slot: u16,
    pub names: Option<u32>,
    pub bytes: Bytes,
    pub of_row: bool,
}

/// Edits in the order in which they are done.
pub type EditList = ListOf<Edit>;

/// How many pages to claim, and what to edit then.
#[derive(Debug, Drop)]
pub struct Plan {
    pub new_pages: u32,
    pub edits: EditList,
}
