//! A draft of the leaves: keys are cut from them and rows put into them, before any page changes.

ghost use Rattle.std.specs.Prelude.{ℕ, List, [], true, false, Some, None, ◌≡◌, ◌≢◌, ◌<◌, ◌≤◌, ◌+◌, OnOk, IfOk, IfErr, IfSome, IfNone, All, length, map, slice_index_or, slice_set};
ghost use Rattle.std.specs.FinMap as finite;
ghost use Rattle.page_base.specs.declared.column.Column.{Column};
ghost use Rattle.page_base.specs.declared.value.Value.{Value};
ghost use Rattle.page_fmt.specs.Edits.{set_slot};
ghost use Rattle.page_fmt.specs.Seen.{Looked};
ghost use Rattle.page_fmt.specs.Spelling.{used, FitsPage};
ghost use Rattle.plain_model.specs.Tables.{key_of};
ghost use Rattle.row_fmt.specs.Rows.{row_bytes};
ghost use Rattle.std.specs.List.{Any};
ghost use Rattle.table_walk.specs.Answers.{IsAt, IsOn};
ghost use Rattle.table_walk.specs.Tables.{IsNoRow, MayPut};
ghost use Rattle.table_heap.specs.Leaves.{Leaf, slots_of, cut, cut_keys, put, put_rows, add, has_room};
ghost use Rattle.table_heap.specs.Places.{AreApart, AreRows, IsDraft, IsPlaceFor, IsSoFar, HasRoom};

use crate::leaf::LeafSlots;
use crate::places::{KeyPlaces, Place};
use page_base::{Bytes, Columns, NoMemory, Row};
use page_fmt::Seen;
use row_fmt::encode;
use std::alloc::Global;
use table_walk::{SeenRefusal, key_of, read_row};

// The leaves, the place of each row by its key, and which leaves were changed, in this order.
#[derive(Drop)]
pub(crate) struct Draft {
    leaves: Vec<LeafSlots>,
    places: KeyPlaces,
    changed: Vec<usize>,
}

// Puts the places of the rows of a leaf that was read to others.
fn add_places(
    alloc: Global,
    cols: &Columns,
    seen: &Seen,
    i: usize,
    leaf: usize,
    places: &mut KeyPlaces,
) -> Result<(), SeenRefusal>
    requires { i < length seen.now }
    ensures places { OnOk result ((d : Looked) (leaves : List Leaf) → slots_of (slice_index_or leaves leaf []) ≡ (slice_index_or seen.now i d).slots → AreRows cols.now leaves → AreApart cols.now leaves
        → IsSoFar cols.now leaves leaf 0 places.old → IsSoFar cols.now leaves (leaf + 1) 0 places.new) }
    ensures bad { IfErr result (λ e. (d : Looked) → IsOn (slice_index_or seen.now i d).page (IsNoRow cols.now (slice_index_or seen.now i d).slots) e) }
{
    let page = seen.page(i);
    for j in 0..seen.slots(i) {
        let bytes = seen.slot(i, j);
        if bytes.is_empty() {
            continue;
        }
        let row = read_row(alloc, cols, page, j, bytes)?;
        let key = key_of(alloc, cols.as_slice(), &row)?;
        let slot = usize::from(j);
        places.put(key, Place { leaf, slot })?;
    }
    Ok(())
}

impl Draft {
    // The leaves as they were read at these places.
    pub(crate) fn read(
        alloc: Global,
        cols: &Columns,
        seen: &Seen,
        pages: &[usize],
    ) -> Result<Self, SeenRefusal>
        requires { All (λ i. i < length seen.now) pages.now }
        ensures draft { IfOk result (λ draft. (d : Looked) (leaves : List Leaf) → map (λ i. (slice_index_or seen.now i d).slots) pages.now ≡ map slots_of leaves → AreRows cols.now leaves → AreApart cols.now leaves
            → IsDraft cols.now leaves draft.leaves.items draft.places) }
        ensures many { IfOk result (λ draft. length draft.leaves.items ≡ length pages.now) }
        ensures bad { IfErr result (λ e. (d : Looked) → IsAt (λ page slot. Any (λ i. ((slice_index_or seen.now i d).page ≡ page) × IsNoRow cols.now (slice_index_or seen.now i d).slots slot) pages.now) e) }
    {
        let mut leaves = Vec::new(alloc);
        let mut places = KeyPlaces::new(alloc);
        for (leaf, i) in pages.iter().enumerate() {
            leaves.push(LeafSlots::read(alloc, seen, *i)?)?;
            add_places(alloc, cols, seen, *i, leaf, &mut places)?;
        }
        Ok(Draft {
            leaves,
            places,
            changed: Vec::new(alloc),
        })
    }

    // How many leaves there are.
    pub(crate) fn len(&self) -> usize
        ensures { result ≡ length self.now.leaves.items }
    {
        self.leaves.len()
    }

    // The leaves that were changed, in this order, some more than once.
    pub(crate) fn changed(&self) -> &[usize] {
        self.changed.as_slice()
    }

    // The slots of a leaf.
    pub(crate) fn leaf(&self, leaf: usize) -> &[Bytes]
        requires { leaf < length self.now.leaves.items }
        ensures value { result.now ≡ slice_index_or self.now.leaves.items leaf [] }
        ensures fits { FitsPage result.now }
    {
        self.leaves[leaf].as_slice()
    }

    // Cuts a key.
    fn cut(&mut self, alloc: Global, key: &Row) -> Result<(), NoMemory>
        ensures draft { OnOk result ((cols : List Column) (leaves : List Leaf) → IsDraft cols leaves self.old.leaves.items self.old.places → IsDraft cols (cut cols key.now leaves) self.new.leaves.items self.new.places) }
        ensures places { self.new.places ≡ finite.remove self.old.places key.now }
    {
        let Some(place) = self.places.take(key) else {
            return Ok(());
        };
        if self.leaves.len() <= place.leaf {
            return Ok(());
        }
        self.changed.push(place.leaf)?;
        self.leaves[place.leaf].clear(alloc, place.slot);
        Ok(())
    }

    // Cuts all keys, in order.
    pub(crate) fn cut_all(&mut self, alloc: Global, keys: &[Row]) -> Result<(), NoMemory>
        ensures { OnOk result ((cols : List Column) (leaves : List Leaf) → IsDraft cols leaves self.old.leaves.items self.old.places → IsDraft cols (cut_keys cols keys.now leaves) self.new.leaves.items self.new.places) }
    {
        for key in keys {
            self.cut(alloc, key)?;
        }
        Ok(())
    }

    // Whether a row of so many bytes has room in the slot at a place.
    fn has_room(&self, place: Place, size: usize) -> bool
        ensures yes { result ≡ true → HasRoom self.now.leaves.items size place }
        ensures no { result ≡ false → place.leaf < length self.now.leaves.items → place.slot < length (slice_index_or self.now.leaves.items place.leaf [])
            → (x : List ℕ) → length x ≡ size → 8192 < used (set_slot (slice_index_or self.now.leaves.items place.leaf []) place.slot x) }
    {
        match self.leaves.get(place.leaf) {
            Some(leaf) => leaf.has_room(place.slot, size),
            None => false,
        }
    }

    // The place of the row of a key, where another row of so many bytes has room in its slot.
    fn room(&self, key: &Row, size: usize) -> Option<Place>
        ensures place { IfSome result (λ p. finite.get self.now.places key.now ≡ Some p) }
        ensures room { IfSome result (HasRoom self.now.leaves.items size) }
        ensures none { IfNone result ((cols : List Column) (leaves : List Leaf) (row : List Value) → IsDraft cols leaves self.now.leaves.items self.now.places → key.now ≡ key_of cols row → length (row_bytes row) ≡ size → has_room cols key.now row leaves ≡ false) }
    {
        let Some(place) = self.places.place(key) else {
            return None;
        };
        if !self.has_room(place, size) {
            return None;
        }
        Some(place)
    }

    // Where a new row of so many bytes goes: to the first leaf that has room, else to a new one at the end.
    fn place_for(&mut self, alloc: Global, size: usize) -> Result<Place, NoMemory>
        requires { size ≤ 8060 }
        ensures place { IfOk result (IsPlaceFor self.old.leaves.items self.new.leaves.items size) }
        ensures places { self.new.places ≡ self.old.places }
    {
        for (leaf, slots) in self.leaves.iter().enumerate() {
            if let Some(slot) = slots.slot_for(size) {
                return Ok(Place { leaf, slot });
            }
        }
        let leaf = self.leaves.len();
        self.leaves.push(LeafSlots::new(alloc))?;
        Ok(Place { leaf, slot: 0 })
    }

    // Writes a row to a place where it has room.
    fn write(&mut self, place: Place, bytes: Bytes) -> Result<(), NoMemory>
        requires leaf { place.leaf < length self.old.leaves.items }
        requires slot { place.slot ≤ length (slice_index_or self.old.leaves.items place.leaf []) }
        requires some { bytes ≢ [] }
        requires room { used (set_slot (slice_index_or self.old.leaves.items place.leaf []) place.slot bytes) ≤ 8192 }
        ensures leaves { OnOk result (self.new.leaves.items ≡ slice_set self.old.leaves.items place.leaf (set_slot (slice_index_or self.old.leaves.items place.leaf []) place.slot bytes)) }
        ensures places { self.new.places ≡ self.old.places }
    {
        self.changed.push(place.leaf)?;
        self.leaves[place.leaf].set(place.slot, bytes)
    }

    // Adds a new row.
    fn add(&mut self, alloc: Global, key: Row, bytes: Bytes) -> Result<(), NoMemory>
        requires some { bytes ≢ [] }
        requires small { length bytes ≤ 8060 }
        ensures { OnOk result ((cols : List Column) (leaves : List Leaf) (row : List Value) → IsDraft cols leaves self.old.leaves.items self.old.places → MayPut cols row → key ≡ key_of cols row → bytes ≡ row_bytes row
            → finite.get self.old.places key ≡ None → IsDraft cols (add row leaves) self.new.leaves.items self.new.places) }
    {
        let place = self.place_for(alloc, bytes.len())?;
        self.write(place, bytes)?;
        self.places.put(key, place)
    }

    // Puts a row.
    fn put(&mut self, alloc: Global, cols: &Columns, row: &Row) -> Result<(), NoMemory>
        requires { MayPut cols.now row.now }
        ensures { OnOk result ((leaves : List Leaf) → IsDraft cols.now leaves self.old.leaves.items self.old.places → IsDraft cols.now (put cols.now row.now leaves) self.new.leaves.items self.new.places) }
    {
        let key = key_of(alloc, cols.as_slice(), row)?;
        let bytes = encode(alloc, row, cols)?;
        match self.room(&key, bytes.len()) {
            Some(place) => self.write(place, bytes),
            None => {
                self.cut(alloc, &key)?;
                self.add(alloc, key, bytes)
            }
        }
    }

    // Puts all rows, in order.
    pub(crate) fn put_all(
        &mut self,
        alloc: Global,
        cols: &Columns,
        rows: &[Row],
    ) -> Result<(), NoMemory>
        requires { All (MayPut cols.now) rows.now }
        ensures { OnOk result ((leaves : List Leaf) → IsDraft cols.now leaves self.old.leaves.items self.old.places → IsDraft cols.now (put_rows cols.now rows.now leaves) self.new.leaves.items self.new.places) }
    {
        for row in rows {
            self.put(alloc, cols, row)?;
        }
        Ok(())
    }
}
