//! The table of one page: whether there is one, its name, its columns and its rows.

ghost use Rattle.std.specs.Prelude.{◌≡◌, ◌≢◌, ◌↔◌, ◌<◌, ℕ, List, [], length, IsTrue, IfOk, OnOk, IfSome, Some};
ghost use Rattle.std.specs.FinMap as finite;
ghost use Rattle.std.specs.Str.{bytes_eq};
ghost use Rattle.page_fmt.specs.Content.{content, IsPage};
ghost use Rattle.page_fmt.specs.Edits.{slot_at};
ghost use Rattle.page_base.specs.declared.value.Value.{Value};
ghost use Rattle.row_fmt.specs.Rows.{FitsColumns};
ghost use Rattle.plain_model.specs.Tables.{Table, key_of, with_row};
ghost use Rattle.table_pages.specs.Rows.{row_of, HoldsFitting};
ghost use Rattle.table_pages.specs.Carried.{Holds};

use crate::StoredTable;
use crate::key::key_of;
use crate::reader::Reader;
use page_base::{Columns, Image, Name, NoMemory, Row};
use page_fmt::{slot, slots};
use row_fmt::{RowRefusal, decode};
use std::alloc::Global;

/// Whether the page holds no table. Takes no memory.
pub fn is_blank(image: &Image) -> bool
    ensures { IsTrue result ↔ (slot_at (content image.now) 0 ≡ []) }
{
    slot(image, 0).is_empty()
}

/// Whether the page's table has this name; any answer where the page holds none. Takes no memory.
pub fn is_named(image: &Image, name: &Name) -> bool
    ensures { (held : List ℕ) (t : Table) → Holds image.now held t → result ≡ bytes_eq held name.now }
{
    match Reader::new(slot(image, 0)).name() {
        Some(held) => held.is_same(name),
        None => false,
    }
}

/// The columns of the page's table; any where the page holds none.
pub fn columns(alloc: Global, image: &Image) -> Result<Columns, NoMemory>
    ensures { IfOk result (λ cols. (held : List ℕ) (t : Table) → Holds image.now held t → cols ≡ t.cols) }
{
    let mut reader = Reader::new(slot(image, 0));
    match reader.name() {
        Some(_) => reader.columns(alloc),
        None => Ok(Columns::new(alloc)),
    }
}

// The row that bytes are, or none.
pub(crate) fn read_row(alloc: Global, cols: &Columns, bytes: &[u8]) -> Result<Option<Row>, NoMemory>
    requires { length bytes.now < 4294967295 }
    ensures row { IfOk result (λ read. (row : List Value) → row_of cols.now bytes.now ≡ Some row → read ≡ Some row) }
    ensures fits { IfOk result (λ read. IfSome read (FitsColumns cols.now)) }
{
    match decode(alloc, bytes, cols) {
        Ok(row) => Ok(Some(row)),
        Err(RowRefusal::Form { .. }) => Ok(None),
        Err(RowRefusal::Memory) => Err(NoMemory),
    }
}

// Puts the row of a slot into the table, unless the slot is empty.
fn take_row(alloc: Global, table: &mut StoredTable, bytes: &[u8]) -> Result<(), NoMemory>
    requires { length bytes.now < 4294967295 }
    ensures empty { OnOk result (bytes.now ≡ [] → table.new ≡ table.old) }
    ensures row { OnOk result ((row : List Value) → bytes.now ≢ [] → row_of table.old.cols bytes.now ≡ Some row → table.new ≡ with_row row table.old) }
    ensures cols { OnOk result (table.new.cols ≡ table.old.cols) }
    ensures fits { OnOk result (HoldsFitting table.old → HoldsFitting table.new) }
{
    if bytes.is_empty() {
        return Ok(());
    }
    let Some(row) = read_row(alloc, table.cols(), bytes)? else {
        return Ok(());
    };
    let key = key_of(alloc, table.cols().as_slice(), &row)?;
    table.put(key, row)
}

/// The page's table; any where the page holds none. Its columns may hold each of its rows.
pub fn read_table(alloc: Global, image: &Image) -> Result<StoredTable, NoMemory>
    requires { IsPage image.now }
    ensures table { IfOk result (λ table. (held : List ℕ) (t : Table) → Holds image.now held t → table ≡ t) }
    ensures fits { IfOk result HoldsFitting }
{
    let mut table = StoredTable::new(alloc, columns(alloc, image)?);
    for i in 1..slots(image) {
        take_row(alloc, &mut table, slot(image, i))?;
    }
    Ok(table)
}

/// Whether the page's table has a row with the key of this row; any answer where the page holds none, or a table of
/// other columns.
pub fn has_key(alloc: Global, image: &Image, cols: &Columns, row: &Row) -> Result<bool, NoMemory>
    requires { IsPage image.now }
    ensures { IfOk result (λ there. (held : List ℕ) (t : Table) → Holds image.now held t → cols.now ≡ t.cols → there ≡ finite.contains_key t.rows (key_of t.cols row.now)) }
{
    let table = read_table(alloc, image)?;
    let key = key_of(alloc, cols.as_slice(), row)?;
    Ok(table.has_key(&key))
}
