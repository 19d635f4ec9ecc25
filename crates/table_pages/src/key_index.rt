//! Which slot the row of a key stands in.

ghost use Rattle.std.specs.Prelude.{◌≡◌, OnOk, OnErr};
ghost use Rattle.std.specs.FinMap as finite;

use page_base::{NoMemory, Row};
use std::alloc::Global;
use std::collections::BTreeMap;
use std::marker::Model;

// The slots of rows by their keys.
#[derive(Drop)]
pub(crate) struct KeyIndex {
    slots: BTreeMap<Row, u16>,
}

impl Model for KeyIndex {
    ghost use Rattle.std.specs.Prelude.{ℕ};
    ghost use Rattle.std.specs.FinMap as finite;
    ghost use Rattle.page_base.specs.Order.{key_cmp};
    ghost use Rattle.page_base.specs.contracts.value.Value as v;
    ghost use Rattle.std.specs.Coded.{codes};

    ghost Value = { finite.FinMap key_cmp ℕ };

    ghost coded = { Prim.hlevel (codes, finite.code, v.the_row.coded) };

    ghost view = { λ a. finite.from_entries a.slots.entries };
}

impl KeyIndex {
    // No rows.
    pub(crate) fn new(alloc: Global) -> Self
        ensures { result ≡ finite.empty }
    {
        KeyIndex {
            slots: BTreeMap::new(alloc),
        }
    }

    // The slot of a key.
    pub(crate) fn slot(&self, key: &Row) -> Option<u16>
        ensures { result ≡ finite.get self.now key.now }
    {
        self.slots.get(key).copied()
    }

    // Puts the slot of a key. After want of memory all is as before.
    pub(crate) fn put(&mut self, key: Row, slot: u16) -> Result<(), NoMemory>
        ensures ok { OnOk result (self.new ≡ finite.insert self.old key slot) }
        ensures err { OnErr result (self.new ≡ self.old) }
    {
        self.slots.insert(key, slot)?;
        Ok(())
    }

    // Takes a key out, and tells its slot.
    pub(crate) fn take(&mut self, key: &Row) -> Option<u16>
        ensures slot { result ≡ finite.get self.old key.now }
        ensures new { self.new ≡ finite.remove self.old key.now }
    {
        self.slots.remove(key)
    }
}
