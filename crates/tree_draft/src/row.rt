//! A row with its bytes, so that no row is spelled twice.

ghost use Rattle.std.specs.Prelude.{◌≡◌, IfOk};
ghost use Rattle.row_fmt.specs.Rows.{row_bytes, FitsColumns};

use crate::parts::Takes;
use page_base::{Bytes, Columns, NoMemory, Row};
use row_fmt::encode;
use std::alloc::Global;
use std::marker::Model;
use table_walk::copy_row;

/// A row, and its bytes.
#[derive(Debug, Drop)]
pub struct SpelledRow {
    row: Row,
    bytes: Bytes,
}

impl Model for SpelledRow {
    ghost use Rattle.std.specs.Prelude.{◌≡◌};
    ghost use Rattle.row_fmt.specs.Rows.{row_bytes};
    ghost use Rattle.tree_laws.specs.Keys.{Key};

    ghost Value = { Key };

    ghost view = { λ a. a.row };

    ghost invariant = { λ a. a.bytes ≡ row_bytes a.row };
}

impl SpelledRow {
    /// A row of these columns.
    pub fn new(alloc: Global, cols: &Columns, row: Row) -> Result<Self, NoMemory>
        requires { FitsColumns cols.now row }
        ensures { IfOk result (λ spelled. spelled ≡ row) }
    {
        let bytes = encode(alloc, &row, cols)?;
        Ok(SpelledRow { row, bytes })
    }

    /// The row. Takes no memory.
    pub fn row(&self) -> &Row
        ensures { result.now ≡ self.now }
    {
        &self.row
    }

    /// Its bytes. Takes no memory.
    pub fn bytes(&self) -> &Bytes
        ensures { result.now ≡ row_bytes self.now }
    {
        &self.bytes
    }

    /// The same row once more.
    pub fn copy(&self, alloc: Global) -> Result<Self, NoMemory>
        ensures { IfOk result (λ copy. copy ≡ self.now) }
    {
        let row = copy_row(alloc, &self.row)?;
        let bytes = self.bytes.copy(alloc)?;
        Ok(SpelledRow { row, bytes })
    }
}

/// A row behind its key.
#[derive(Debug, Drop)]
pub struct KeyedRow {
    pub key: Row,
    pub row: SpelledRow,
}

impl Takes for KeyedRow {
    ghost use Rattle.tree_laws.specs.Laying.{row_size};

    ghost size = { λ k. row_size k.row };

    fn size(&self) -> usize {
        self.row.bytes().as_slice().len() + 2
    }
}
