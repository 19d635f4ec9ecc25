//! A draft of a table's page: keys are cut from it and rows put into it, before the page itself changes.

ghost use Rattle.std.specs.Prelude.{◌≡◌, ◌≢◌, ◌<◌, ◌≤◌, ℕ, List, [], length, true, false, Some, None, All, IfOk, OnOk, IfSome, MatchOption, MatchBool};
ghost use Rattle.std.specs.FinMap as finite;
ghost use Rattle.page_base.specs.declared.column.Column.{Column};
ghost use Rattle.page_base.specs.declared.value.Value.{Value};
ghost use Rattle.page_fmt.specs.Content.{content, IsPage};
ghost use Rattle.page_fmt.specs.Edits.{edited, slot_at};
ghost use Rattle.page_fmt.specs.Spelling.{used};
ghost use Rattle.row_fmt.specs.Rows.{FitsColumns};
ghost use Rattle.plain_model.specs.Tables.{Rows, key_of};
ghost use Rattle.table_pages.specs.Rows.{row_of};
ghost use Rattle.table_pages.specs.Layout.{rows_in};
ghost use Rattle.table_pages.specs.Drafts.{Cuts, Goes, IsFirstEmpty, Puts, Drafts};
ghost use Rattle.table_pages.specs.Drafting.{IsIndex, IsDraft, AreFull, cut_rows, IsCut, PutsRow, FindsNoRoom, ArePut, IsDrafted};

use crate::key::key_of;
use crate::key_index::KeyIndex;
use crate::page::read_row;
use crate::planning::LONGEST;
use page_base::{Columns, Image, NoMemory, Row, RowList};
use page_fmt::{clear_slot, put_slot, slot, slots};
use row_fmt::{encode, fits};
use std::alloc::Global;

// A draft: its page, the slots of its rows by their keys, and how many slots behind slot 0 are known to be full.
#[derive(Drop)]
pub(crate) struct Draft {
    page: Image,
    index: KeyIndex,
    full: u16,
}

// Puts the key of a slot's row into the index, unless the slot is empty.
fn index_slot(
    alloc: Global,
    index: &mut KeyIndex,
    cols: &Columns,
    i: u16,
    bytes: &[u8],
) -> Result<(), NoMemory>
    requires { length bytes.now < 4294967295 }
    ensures empty { OnOk result (bytes.now ≡ [] → index.new ≡ index.old) }
    ensures row { OnOk result ((row : List Value) → bytes.now ≢ [] → row_of cols.now bytes.now ≡ Some row → index.new ≡ finite.insert index.old (key_of cols.now row) i) }
{
    if bytes.is_empty() {
        return Ok(());
    }
    let Some(row) = read_row(alloc, cols, bytes)? else {
        return Ok(());
    };
    index.put(key_of(alloc, cols.as_slice(), &row)?, i)
}

// The index of a page's rows.
fn index_of(alloc: Global, image: &Image, cols: &Columns) -> Result<KeyIndex, NoMemory>
    requires { IsPage image.now }
    ensures { IfOk result (λ index. (rows : Rows) → rows_in cols.now (slot_at (content image.now)) ≡ Some rows → IsIndex cols.now (content image.now) index) }
{
    let mut index = KeyIndex::new(alloc);
    for i in 1..slots(image) {
        index_slot(alloc, &mut index, cols, i, slot(image, i))?;
    }
    Ok(index)
}

// Sets a slot, where there is room.
fn write(page: &mut Image, slot: u16, bytes: &[u8]) -> bool
    requires { IsPage page.old }
    ensures page { IsPage page.new }
    ensures done { result ≡ true → (content page.new ≡ edited (content page.old) slot bytes.now) × (used (edited (content page.old) slot bytes.now) ≤ 8192) × (bytes.now ≢ []) }
    ensures kept { result ≡ false → page.new ≡ page.old }
    ensures lacks { result ≡ false → slot < 4048 → bytes.now ≢ [] → 8192 < used (edited (content page.old) slot bytes.now) }
{
    if slot >= 4048 {
        return false;
    }
    if bytes.is_empty() {
        return false;
    }
    if bytes.len() > LONGEST {
        return false;
    }
    put_slot(page, slot, bytes).is_ok()
}

impl Draft {
    // A draft of this page.
    pub(crate) fn new(alloc: Global, image: &Image, cols: &Columns) -> Result<Self, NoMemory>
        requires { IsPage image.now }
        ensures page { IfOk result (λ draft. draft.page ≡ image.now) }
        ensures full { IfOk result (λ draft. AreFull (content draft.page) draft.full) }
        ensures index { IfOk result (λ draft. (rows : Rows) → 0 < length cols.now → rows_in cols.now (slot_at (content image.now)) ≡ Some rows → IsDraft cols.now draft.page draft.index rows) }
    {
        let index = index_of(alloc, image, cols)?;
        let mut page = Image::blank(alloc)?;
        page.set(image);
        Ok(Draft {
            page,
            index,
            full: 0,
        })
    }

    // The page.
    pub(crate) fn into_page(self) -> Image
        ensures { result ≡ self.page }
    {
        let Draft {
            page,
            index: _,
            full: _,
        } = self;
        page
    }

    // Cuts a key.
    fn cut(&mut self, key: &Row)
        requires page { IsPage self.old.page }
        requires full { AreFull (content self.old.page) self.old.full }
        ensures page { IsPage self.new.page }
        ensures full { AreFull (content self.new.page) self.new.full }
        ensures draft { (cols : List Column) (rows : Rows) → IsDraft cols self.old.page self.old.index rows → IsDraft cols self.new.page self.new.index (finite.remove rows key.now) }
        ensures cuts { (cols : List Column) (rows : Rows) → IsDraft cols self.old.page self.old.index rows → Cuts cols (content self.old.page) key.now (content self.new.page) }
        ensures front { (cols : List Column) (rows : Rows) → IsDraft cols self.old.page self.old.index rows → slot_at (content self.new.page) 0 ≡ slot_at (content self.old.page) 0 }
    {
        if let Some(slot) = self.index.take(key) {
            clear_slot(&mut self.page, slot);
            self.full = self.full.min(slot.saturating_sub(1));
        }
    }

    // Cuts all keys.
    pub(crate) fn cut_all(&mut self, keys: &[Row])
        requires page { IsPage self.old.page }
        requires full { AreFull (content self.old.page) self.old.full }
        ensures page { IsPage self.new.page }
        ensures full { AreFull (content self.new.page) self.new.full }
        ensures draft { (cols : List Column) (rows : Rows) → IsDraft cols self.old.page self.old.index rows → IsDraft cols self.new.page self.new.index (cut_rows keys.now rows) }
        ensures cuts { (cols : List Column) (rows : Rows) → IsDraft cols self.old.page self.old.index rows → IsCut cols keys.now (content self.old.page) (content self.new.page) }
    {
        for key in keys {
            self.cut(key);
        }
    }

    // The first empty slot behind slot 0.
    fn empty_slot(&mut self) -> u16
        requires page { IsPage self.old.page }
        requires full { AreFull (content self.old.page) self.old.full }
        ensures full { AreFull (content self.old.page) self.new.full }
        ensures page { self.new.page ≡ self.old.page }
        ensures index { self.new.index ≡ self.old.index }
        ensures slot { IsFirstEmpty (content self.old.page) result }
        ensures few { result < 4048 }
    {
        let count = slots(&self.page);
        for i in self.full + 1..count {
            if slot(&self.page, i).is_empty() {
                return i;
            }
            self.full = i;
        }
        count.max(1)
    }

    // Where a row of this key goes.
    fn slot_for(&mut self, key: &Row) -> u16
        requires page { IsPage self.old.page }
        requires full { AreFull (content self.old.page) self.old.full }
        ensures full { AreFull (content self.old.page) self.new.full }
        ensures page { self.new.page ≡ self.old.page }
        ensures index { self.new.index ≡ self.old.index }
        ensures goes { (cols : List Column) (row : List Value) → IsIndex cols (content self.old.page) self.old.index → key.now ≡ key_of cols row → Goes cols (content self.old.page) row result }
        ensures few { (cols : List Column) → IsIndex cols (content self.old.page) self.old.index → result < 4048 }
    {
        match self.index.slot(key) {
            Some(slot) => slot,
            None => self.empty_slot(),
        }
    }

    // Puts a row; false where there is no room.
    fn put(&mut self, alloc: Global, cols: &Columns, row: &Row) -> Result<bool, NoMemory>
        requires page { IsPage self.old.page }
        requires full { AreFull (content self.old.page) self.old.full }
        requires fits { FitsColumns cols.now row.now }
        ensures page { IsPage self.new.page }
        ensures full { AreFull (content self.new.page) self.new.full }
        ensures put { IfOk result (λ room. (rows : Rows) → room ≡ true → IsDraft cols.now self.old.page self.old.index rows →
            PutsRow cols.now (content self.old.page) row.now (content self.new.page) × IsDraft cols.now self.new.page self.new.index (finite.insert rows (key_of cols.now row.now) row.now)) }
        ensures lacks { IfOk result (λ room. (rows : Rows) → room ≡ false → IsDraft cols.now self.old.page self.old.index rows → FindsNoRoom cols.now (content self.old.page) row.now) }
    {
        let key = key_of(alloc, cols.as_slice(), row)?;
        let bytes = encode(alloc, row, cols)?;
        let slot = self.slot_for(&key);
        if !write(&mut self.page, slot, bytes.as_slice()) {
            return Ok(false);
        }
        self.index.put(key, slot)?;
        Ok(true)
    }

    // Puts all rows; false where one of them finds no room.
    pub(crate) fn put_all(
        &mut self,
        alloc: Global,
        cols: &Columns,
        rows: &[Row],
    ) -> Result<bool, NoMemory>
        requires page { IsPage self.old.page }
        requires full { AreFull (content self.old.page) self.old.full }
        ensures page { OnOk result (IsPage self.new.page) }
        ensures put { IfOk result (λ room. (old : Rows) → IsDraft cols.now self.old.page self.old.index old → All (FitsColumns cols.now) rows.now → MatchBool room
            (ArePut cols.now rows.now (content self.old.page) old (content self.new.page))
            (Puts cols.now rows.now (content self.old.page) None)) }
    {
        for row in rows {
            if !fits(row, cols) {
                return Ok(false);
            }
            if !self.put(alloc, cols, row)? {
                return Ok(false);
            }
        }
        Ok(true)
    }
}

/// The page with the keys cut, and then the rows put into it; none where a row finds no room in its turn.
pub(crate) fn drafted(
    alloc: Global,
    image: &Image,
    cols: &Columns,
    put: &RowList,
    cut: &RowList,
) -> Result<Option<Image>, NoMemory>
    requires { IsPage image.now }
    ensures page { IfOk result (λ draft. IfSome draft IsPage) }
    ensures draft { IfOk result (λ draft. (rows : Rows) → 0 < length cols.now → rows_in cols.now (slot_at (content image.now)) ≡ Some rows → All (FitsColumns cols.now) put.now →
        MatchOption draft (Drafts cols.now cut.now put.now (content image.now) None) (λ page. IsDrafted cols.now cut.now put.now (content image.now) rows (content page))) }
{
    let mut draft = Draft::new(alloc, image, cols)?;
    draft.cut_all(cut.as_slice());
    if !draft.put_all(alloc, cols, put.as_slice())? {
        return Ok(None);
    }
    Ok(Some(draft.into_page()))
}
