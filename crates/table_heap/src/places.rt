//! Which slot of which leaf the row of a key stands in.

ghost use Rattle.std.specs.Prelude.{◌≡◌, OnOk, OnErr};
ghost use Rattle.std.specs.FinMap as finite;

use page_base::{NoMemory, Row};
use std::alloc::Global;
use std::collections::BTreeMap;
use std::marker::Model;

// A leaf, by its place in the list of leaves, and a slot of it.
#[derive(Clone, Copy, Debug, PartialEq, Eq)]
pub(crate) struct Place {
    pub leaf: usize,
    pub slot: usize,
}

// The places of rows by their keys.
#[derive(Drop)]
pub(crate) struct KeyPlaces {
    places: BTreeMap<Row, Place>,
}

impl Model for KeyPlaces {
    ghost use Rattle.std.specs.FinMap as finite;
    ghost use Rattle.page_base.specs.Order.{key_cmp};
    ghost use Rattle.page_base.specs.contracts.value.Value as v;
    ghost use Rattle.table_heap.specs.declared.places.Place.{Place};
    ghost use Rattle.std.specs.Coded.{codes};

    ghost Value = { finite.FinMap key_cmp Place };

    ghost coded = { Prim.hlevel (codes, finite.code, v.the_row.coded) };

    ghost view = { λ a. finite.from_entries a.places.entries };
}

impl KeyPlaces {
    // No rows.
    pub(crate) fn new(alloc: Global) -> Self
        ensures { result ≡ finite.empty }
    {
        KeyPlaces {
            places: BTreeMap::new(alloc),
        }
    }

    // The place of a key's row.
    pub(crate) fn place(&self, key: &Row) -> Option<Place>
        ensures { result ≡ finite.get self.now key.now }
    {
        self.places.get(key).copied()
    }

    // Puts the place of a key's row. After want of memory all is as before.
    pub(crate) fn put(&mut self, key: Row, place: Place) -> Result<(), NoMemory>
        ensures ok { OnOk result (self.new ≡ finite.insert self.old key place) }
        ensures err { OnErr result (self.new ≡ self.old) }
    {
        self.places.insert(key, place)?;
        Ok(())
    }

    // Takes a key out, and tells its row's place.
    pub(crate) fn take(&mut self, key: &Row) -> Option<Place>
        ensures place { result ≡ finite.get self.old key.now }
        ensures new { self.new ≡ finite.remove self.old key.now }
    {
        self.places.remove(key)
    }
}
