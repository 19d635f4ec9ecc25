//! A table as table 0 describes it.

use page_base::{Columns, ListOf, Name, NoMemory, PageId, TableNo};
use std::alloc::AllocFailed;
use thiserror::Error;

/// A table: its name, its number from 1, its root page and its columns.
#[derive(Debug, Drop)]
pub struct TableDesc {
    pub name: Name,
    pub number: TableNo,
    pub root: PageId,
    pub cols: Columns,
}

/// Tables, in ascending order of their names.
pub type DescList = ListOf<TableDesc>;

/// Why rows are not read as tables.
#[derive(Clone, Copy, Debug, PartialEq, Eq, Error)]
pub enum DescRefusal {
    /// When the rows are no list of tables: `row`, from 0, is the first such that the rows up to it begin none, or the
    /// number of rows where all begin one.
    #[error("row {row} is no part of a list of tables")]
    Form { row: u32 },
    /// When no memory was found.
    #[error("no memory was found")]
    Memory,
}

impl From<NoMemory> for DescRefusal {
    ghost use Rattle.std.specs.Prelude.{◌≡◌};
    ghost use Rattle.sys_cat.specs.declared.desc.DescRefusal.TheVariants.{Memory};

    ghost from_gives = { λ _ refusal. refusal ≡ Memory };

    fn from(_: NoMemory) -> Self {
        DescRefusal::Memory
    }
}

impl<T: Drop> From<AllocFailed<T>> for DescRefusal {
    ghost use Rattle.std.specs.Prelude.{◌≡◌};
    ghost use Rattle.sys_cat.specs.declared.desc.DescRefusal.TheVariants.{Memory};

    ghost from_gives = { λ _ refusal. refusal ≡ Memory };

    fn from(_: AllocFailed<T>) -> Self {
        DescRefusal::Memory
    }
}
