//! The columns of a table: their names, types and places in the key.

use crate::{ListOf, Name};

/// The type of a column: INT, BIGINT, or VARCHAR of at most `max` bytes, 1 to 8,000.
#[derive(Clone, Copy, Debug, PartialEq, Eq)]
pub enum ColType {
    Int,
    Big,
    Text { max: u16 },
}

/// A column; `key` is 0, or its place in the key from 1.
#[derive(Clone, Copy, Debug, PartialEq, Eq)]
pub struct Column {
    pub name: Name,
    pub kind: ColType,
    pub nullable: bool,
    pub key: u8,
}

/// The columns of a table, in order.
pub type Columns = ListOf<Column>;
