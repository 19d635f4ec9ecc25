//! Rows by their keys, in memory.

ghost use Rattle.std.specs.Prelude.{◌≡◌, IfOk, OnOk, OnErr};
ghost use Rattle.std.specs.FinMap as finite;

use page_base::{NoMemory, Row, RowList};
use std::alloc::Global;
use std::collections::BTreeMap;
use std::marker::Model;

/// Rows by their keys, of which no two are the same.
#[derive(Drop)]
pub struct RowMap {
    rows: BTreeMap<Row, Row>,
}

impl Model for RowMap {
    ghost use Rattle.std.specs.FinMap as finite;
    ghost use Rattle.plain_model.specs.Tables.{Rows};
    ghost use Rattle.page_base.specs.contracts.value.Value as v;
    ghost use Rattle.std.specs.Coded.{codes};

    ghost Value = { Rows };

    ghost coded = { Prim.hlevel (codes, finite.code, v.the_row.coded) };

    ghost view = { λ t. finite.from_entries t.rows.entries };
}

impl RowMap {
    /// No rows. Takes no memory.
    pub fn new(alloc: Global) -> Self
        ensures { result ≡ finite.empty }
    {
        RowMap {
            rows: BTreeMap::new(alloc),
        }
    }

    /// Whether a row of this key is there. Takes no memory.
    pub fn has_key(&self, key: &Row) -> bool
        ensures { result ≡ finite.contains_key self.now key.now }
    {
        self.rows.contains_key(key)
    }

    /// Puts a row in place of the one of its key. After want of memory the rows are as before.
    pub fn put(&mut self, key: Row, row: Row) -> Result<(), NoMemory>
        ensures ok { OnOk result (self.new ≡ finite.insert self.old key row) }
        ensures err { OnErr result (self.new ≡ self.old) }
    {
        self.rows.insert(key, row)?;
        Ok(())
    }

    /// Takes a key's row out, and gives it. Takes no memory.
    pub fn take(&mut self, key: &Row) -> Option<Row>
        ensures row { result ≡ finite.get self.old key.now }
        ensures new { self.new ≡ finite.remove self.old key.now }
    {
        self.rows.remove(key)
    }

    /// All rows, in ascending order of their keys.
    pub fn into_list(self, alloc: Global) -> Result<RowList, NoMemory>
        ensures { IfOk result (λ rows. rows ≡ finite.values self) }
    {
        let mut list = RowList::new(alloc);
        for (_, row) in self.rows {
            list.push(row)?;
        }
        Ok(list)
    }
}
