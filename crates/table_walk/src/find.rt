//! Which rows are asked for, and what is to be read for them.

use page_base::{PageId, RowList};

/// All rows of a table, or those of some keys. A key is a list of values in key order.
#[derive(Debug, Drop)]
pub enum Find {
    All,
    Keys(RowList),
}

/// The page to read next, and whether it holds rows; or that all was read.
#[derive(Clone, Copy, Debug, PartialEq, Eq)]
pub enum Wants {
    Page { page: PageId, rows: bool },
    Done,
}
