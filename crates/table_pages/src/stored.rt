//! A table in memory: its rows in an ordered map by their keys.

ghost use Rattle.std.specs.Prelude.{◌≡◌, ◌↔◌, [], length, map, IsTrue, IfOk, OnOk, OnErr};
ghost use Rattle.std.specs.FinMap as finite;
ghost use Rattle.plain_model.specs.Tables.{IsTable, with_row, key_of, rows_of};

use page_base::{Columns, NoMemory, Row, RowList};
use std::alloc::Global;
use std::collections::BTreeMap;
use std::marker::Model;

/// A table: its columns, and its rows by their keys.
#[derive(Drop)]
pub struct StoredTable {
    cols: Columns,
    rows: BTreeMap<Row, Row>,
}

impl Model for StoredTable {
    ghost use Rattle.std.specs.FinMap as finite;
    ghost use Rattle.plain_model.specs.Tables.{Table, IsKeyed};
    ghost use Rattle.page_base.specs.contracts.value.Value as v;
    ghost use Rattle.std.specs.Coded.{codes};

    ghost Value = { Table };

    ghost coded = { Prim.hlevel (codes, finite.code, v.the_row.coded) };

    ghost view = { λ t. record { cols = t.cols; rows = finite.from_entries t.rows.entries } };

    ghost invariant = { λ t. IsKeyed (record { cols = t.cols; rows = finite.from_entries t.rows.entries }) };
}

impl StoredTable {
    /// A table without rows. Takes no memory.
    pub fn new(alloc: Global, cols: Columns) -> Self
        ensures { result ≡ record { cols = cols; rows = finite.empty } }
    {
        StoredTable {
            cols,
            rows: BTreeMap::new(alloc),
        }
    }

    /// Its columns.
    pub fn cols(&self) -> &Columns
        ensures { result.now ≡ self.now.cols }
    {
        &self.cols
    }

    /// How many rows there are.
    pub fn len(&self) -> usize
        ensures { result ≡ length (rows_of self.now) }
    {
        self.rows.len()
    }

    /// Whether there is no row.
    pub fn is_empty(&self) -> bool
        ensures { IsTrue result ↔ (rows_of self.now ≡ []) }
    {
        self.len() == 0
    }

    /// Whether a row of this key is there.
    pub fn has_key(&self, key: &Row) -> bool
        ensures { result ≡ finite.contains_key self.now.rows key.now }
    {
        self.rows.contains_key(key)
    }

    /// Puts a row in place of the one of its key. After want of memory the table is as before.
    pub fn put(&mut self, key: Row, row: Row) -> Result<(), NoMemory>
        requires { key ≡ key_of self.old.cols row }
        ensures ok { OnOk result (self.new ≡ with_row row self.old) }
        ensures err { OnErr result (self.new ≡ self.old) }
    {
        self.rows.insert(key, row)?;
        Ok(())
    }

    /// Its columns, and its rows in ascending order of keys.
    pub fn into_parts(self, alloc: Global) -> Result<(Columns, RowList), NoMemory>
        ensures { IfOk result (λ parts. IsTable parts.0 parts.1 self) }
    {
        let StoredTable { cols, rows } = self;
        let _count = rows.len();
        let mut list = RowList::new(alloc);
        for row in rows.into_values() {
            list.push(row)?;
        }
        Ok((cols, list))
    }
}
