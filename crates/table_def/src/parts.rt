//! The parts of a table's definition, as they are written.

use page_base::{ListOf, Name};
use plain_model::Names;

/// A column's type as it is written: INT, BIGINT, or VARCHAR with any number for its length in bytes.
#[derive(Clone, Copy, Debug, PartialEq, Eq)]
pub enum WrittenType {
    Int,
    Bigint,
    Varchar(i64),
}

/// What stands behind a column's type: NULL, NOT NULL or PRIMARY KEY.
#[derive(Clone, Copy, Debug, PartialEq, Eq)]
pub enum ColumnOption {
    Null,
    NotNull,
    PrimaryKey,
}

/// What stands behind a column's type, in order, any of it any number of times.
pub type OptionList = ListOf<ColumnOption>;

/// A part that defines a column.
#[derive(Debug, Drop)]
pub struct ColumnPart {
    pub name: Name,
    pub kind: WrittenType,
    pub options: OptionList,
}

/// A part of a table's definition: a column, or a PRIMARY KEY with the names of its columns in the key's order.
#[derive(Debug, Drop)]
pub enum TablePart {
    Column(ColumnPart),
    Key(Names),
}

/// The parts of a table's definition, in order.
pub type TableParts = ListOf<TablePart>;
