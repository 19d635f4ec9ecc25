//! The rows of a table whose pages were all read.

ghost use Rattle.std.specs.Prelude.{List, ℕ, true, ◌≡◌, ◌<◌, ◌++◌, [], IfOk, OnOk, IfErr, length, slice_index_or};
ghost use Rattle.std.specs.FinMap as finite;
ghost use Rattle.std.specs.List.{Any, list_any};
ghost use Rattle.std.specs.Ordering.{eq_by_cmp};
ghost use Rattle.page_base.specs.declared.value.Value.{Value};
ghost use Rattle.page_base.specs.Order.{key_cmp};
ghost use Rattle.page_fmt.specs.Seen.{Looked, Saw, look};
ghost use Rattle.plain_model.specs.Tables.{Rows, key_of};
ghost use Rattle.row_fmt.specs.Rows.{IsRow};
ghost use Rattle.table_walk.specs.declared.visit.Visit.{Visit};
ghost use Rattle.table_walk.specs.Walk.{IsSeenWalk, IsDone};
ghost use Rattle.table_walk.specs.Tables.{Gathers, AreRows, IsSomeRow, IsNoRow, IsNoRowOf, IsBadRow, full, cells, cells_of};
ghost use Rattle.table_walk.specs.Answers.{IsAt, IsOn, asks, asked};
ghost use Rattle.table_walk.specs.Index.{Indexes};
ghost use Rattle.table_walk.specs.Sought.{knows, with_asked, IsSought};

use crate::find::Find;
use crate::index::{page_index, place};
use crate::key::{copy_row, key_of};
use crate::layout::{Layout, walk, walk_with};
use crate::refusal::SeenRefusal;
use crate::row_map::RowMap;
use crate::visit::{Visit, is_leaf};
use page_base::{Columns, NoMemory, PageId, Row, RowList};
use page_fmt::Seen;
use row_fmt::{RowRefusal, decode};
use std::alloc::Global;
use std::collections::BTreeMap;

// The keys in a list, each once.
fn key_set(alloc: Global, keys: &[Row]) -> Result<RowMap, NoMemory>
    ensures { IfOk result (λ set. (key : List Value) → finite.contains_key set key ≡ list_any (eq_by_cmp key_cmp key) keys.now) }
{
    let mut set = RowMap::new(alloc);
    for key in keys {
        set.put(copy_row(alloc, key)?, Row::new(alloc))?;
    }
    Ok(set)
}

// The keys that are asked for, none where all are.
fn asked_keys(alloc: Global, find: &Find) -> Result<Option<RowMap>, NoMemory>
    ensures { IfOk result (λ keys. (key : List Value) → knows keys key ≡ asks find.now key) }
{
    match find {
        Find::All => Ok(None),
        Find::Keys(keys) => Ok(Some(key_set(alloc, keys.as_slice())?)),
    }
}

// Whether a key is asked for.
fn is_asked(keys: &Option<RowMap>, key: &Row) -> bool
    ensures { result ≡ knows keys.now key.now }
{
    match keys {
        None => true,
        Some(keys) => keys.has_key(key),
    }
}

// Puts a row at its key, where that is asked for.
fn put_asked(
    alloc: Global,
    cols: &Columns,
    keys: &Option<RowMap>,
    row: Row,
    rows: &mut RowMap,
) -> Result<(), NoMemory>
    ensures { OnOk result (rows.new ≡ with_asked keys.now (key_of cols.now row) row rows.old) }
{
    let key = key_of(alloc, cols.as_slice(), &row)?;
    if !is_asked(keys, &key) {
        return Ok(());
    }
    rows.put(key, row)
}

/// The row that a slot is.
pub fn read_row(
    alloc: Global,
    cols: &Columns,
    page: PageId,
    slot: u16,
    bytes: &[u8],
) -> Result<Row, SeenRefusal>
    requires { length bytes.now < 4294967295 }
    ensures row { IfOk result (λ row. IsRow cols.now bytes.now row) }
    ensures bad { IfErr result (IsOn page (λ s. (s ≡ slot) × (¬ IsSomeRow cols.now bytes.now))) }
{
    match decode(alloc, bytes, cols) {
        Ok(row) => Ok(row),
        Err(RowRefusal::Form { at: _ }) => Err(SeenRefusal::Damaged { page, slot }),
        Err(RowRefusal::Memory) => Err(SeenRefusal::Memory),
    }
}

// The rows of a page, put to others.
fn add_page(
    alloc: Global,
    cols: &Columns,
    keys: &Option<RowMap>,
    seen: &Seen,
    i: usize,
    rows: &mut RowMap,
) -> Result<(), SeenRefusal>
    requires { i < length seen.now }
    ensures rows { OnOk result ((d : Looked) (old : List (List ℕ)) → IsSought cols.now keys.now old rows.old → IsSought cols.now keys.now (old ++ full (slice_index_or seen.now i d).slots) rows.new) }
    ensures are { OnOk result ((d : Looked) → AreRows cols.now (full (slice_index_or seen.now i d).slots)) }
    ensures bad { IfErr result (λ e. (d : Looked) → IsOn (slice_index_or seen.now i d).page (IsNoRow cols.now (slice_index_or seen.now i d).slots) e) }
{
    let page = seen.page(i);
    for j in 0..seen.slots(i) {
        let bytes = seen.slot(i, j);
        if bytes.is_empty() {
            continue;
        }
        let row = read_row(alloc, cols, page, j, bytes)?;
        put_asked(alloc, cols, keys, row, rows)?;
    }
    Ok(())
}

// The rows of a visit, put to others.
fn add_visit(
    alloc: Global,
    cols: &Columns,
    keys: &Option<RowMap>,
    visit: Visit,
    places: &BTreeMap<PageId, usize>,
    seen: &Seen,
    rows: &mut RowMap,
) -> Result<(), SeenRefusal>
    requires saw { Saw seen.now visit.page }
    requires places { Indexes places.now seen.now }
    ensures rows { OnOk result ((old : List (List ℕ)) → IsSought cols.now keys.now old rows.old → IsSought cols.now keys.now (old ++ cells_of (look seen.now) visit) rows.new) }
    ensures are { OnOk result (AreRows cols.now (cells_of (look seen.now) visit)) }
    ensures bad { IfErr result (IsAt (λ page slot. IsNoRowOf cols.now seen.now page slot visit)) }
{
    if !is_leaf(visit) {
        return Ok(());
    }
    match place(places, seen, visit.page) {
        Some(i) => add_page(alloc, cols, keys, seen, i, rows),
        None => Ok(()),
    }
}

// The rows of all visits.
fn gathered(
    alloc: Global,
    cols: &Columns,
    keys: &Option<RowMap>,
    done: &[Visit],
    places: &BTreeMap<PageId, usize>,
    seen: &Seen,
) -> Result<RowMap, SeenRefusal>
    requires places { Indexes places.now seen.now }
    requires saw { (k : ℕ) (d : Visit) → k < length done.now → Saw seen.now (slice_index_or done.now k d).page }
    ensures rows { IfOk result (IsSought cols.now keys.now (cells (look seen.now) done.now)) }
    ensures are { OnOk result (AreRows cols.now (cells (look seen.now) done.now)) }
    ensures bad { IfErr result (IsAt (λ page slot. Any (IsNoRowOf cols.now seen.now page slot) done.now)) }
{
    let mut rows = RowMap::new(alloc);
    for visit in done {
        add_visit(alloc, cols, keys, *visit, places, seen, &mut rows)?;
    }
    Ok(rows)
}

/// The rows that are asked for, in ascending order of their keys, over pages that were all read. Damaged only where a
/// slot of a page of rows is no row.
pub fn rows_of<L: Layout>(
    alloc: Global,
    layout: &L,
    start: Visit,
    cols: &Columns,
    find: &Find,
    seen: &Seen,
) -> Result<RowList, SeenRefusal>
    requires { IsDone (L.kids layout.now) seen.now start }
    ensures rows { IfOk result (λ r. (done : List Visit) (all : Rows) → IsSeenWalk (L.kids layout.now) seen.now start done [] → Gathers cols.now (cells (look seen.now) done) all → r ≡ finite.values (asked find.now all)) }
    ensures are { OnOk result ((done : List Visit) → IsSeenWalk (L.kids layout.now) seen.now start done [] → AreRows cols.now (cells (look seen.now) done)) }
    ensures bad { IfErr result (IsAt (IsBadRow (L.kids layout.now) cols.now seen.now start)) }
{
    let walked = walk(alloc, layout, start, seen)?;
    let keys = asked_keys(alloc, find)?;
    let places = page_index(alloc, seen)?;
    let rows = gathered(alloc, cols, &keys, walked.done.as_slice(), &places, seen)?;
    Ok(rows.into_list(alloc)?)
}

// One key, as those that are asked for.
fn one_key(alloc: Global, key: &Row) -> Result<Option<RowMap>, NoMemory>
    ensures { IfOk result (λ keys. knows keys key.now ≡ true) }
{
    let mut set = RowMap::new(alloc);
    set.put(copy_row(alloc, key)?, Row::new(alloc))?;
    Ok(Some(set))
}

/// The row of a key, over pages that were all read, of which `places` has the place of each; a layout may name only the
/// pages on which that row may stand. Damaged only where a slot of a page of rows is no row.
pub fn row_of<L: Layout>(
    alloc: Global,
    layout: &L,
    start: Visit,
    cols: &Columns,
    key: &Row,
    places: &BTreeMap<PageId, usize>,
    seen: &Seen,
) -> Result<Option<Row>, SeenRefusal>
    requires places { Indexes places.now seen.now }
    requires done { IsDone (L.kids layout.now) seen.now start }
    ensures row { IfOk result (λ r. (done : List Visit) (all : Rows) → IsSeenWalk (L.kids layout.now) seen.now start done [] → Gathers cols.now (cells (look seen.now) done) all → r ≡ finite.get all key.now) }
    ensures are { OnOk result ((done : List Visit) → IsSeenWalk (L.kids layout.now) seen.now start done [] → AreRows cols.now (cells (look seen.now) done)) }
    ensures bad { IfErr result (IsAt (IsBadRow (L.kids layout.now) cols.now seen.now start)) }
{
    let walked = walk_with(alloc, layout, start, places, seen)?;
    let keys = one_key(alloc, key)?;
    let mut rows = gathered(alloc, cols, &keys, walked.done.as_slice(), places, seen)?;
    Ok(rows.take(key))
}
