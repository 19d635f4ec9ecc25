//! Which page, session, snapshot or table is meant, each by a type of its own.

/// A page: its data file, from 0, and its number in that file, from 0.
#[derive(Clone, Copy, Debug, PartialEq, Eq, PartialOrd, Ord, Hash)]
pub struct PageId {
    pub file: u8,
    pub page: u32,
}

/// A session, from 1 to 64.
#[derive(Clone, Copy, Debug, PartialEq, Eq, PartialOrd, Ord)]
pub struct SessNo(pub u8);

/// A snapshot's place in the catalog, from 0 to 7.
#[derive(Clone, Copy, Debug, PartialEq, Eq, PartialOrd, Ord)]
pub struct SnapNo(pub u8);

/// A table's number; 0 is the system table.
#[derive(Clone, Copy, Debug, PartialEq, Eq, PartialOrd, Ord)]
pub struct TableNo(pub u32);

/// The mode of a table lock: shared or exclusive.
#[derive(Clone, Copy, Debug, PartialEq, Eq)]
pub enum Mode {
    S,
    X,
}
