//! The rows of a leaf: which slot a row takes, and the rows in key order.

ghost use Rattle.std.specs.Prelude.{ℕ, List, Option, Some, None, false, ◌≡◌, ◌≤◌, ◌<◌, ◌-◌, ◌∷◌, ◌++◌, [], IfOk, true, map, length, slice_index_or};
ghost use Rattle.page_base.specs.declared.value.Value.{Value};
ghost use Rattle.table_walk.specs.Leaves.{has, holds, changed, added, trimmed};
ghost use Rattle.tree_laws.specs.Puts as spec;
ghost use Rattle.tree_draft.specs.Leaves.{IsFirstEmpty};

use crate::row::{KeyedRow, SpelledRow};
use page_base::{Columns, NoMemory, Row};
use std::alloc::Global;
use table_walk::key_of;

// Whether a slot holds the row of a key.
fn has(
    alloc: Global,
    cols: &Columns,
    key: &Row,
    slot: &Option<SpelledRow>,
) -> Result<bool, NoMemory>
    ensures { IfOk result (λ yes. yes ≡ has cols.now key.now slot.now) }
{
    match slot {
        Some(row) => Ok(key_of(alloc, cols.as_slice(), row.row())?.cmp(key).is_eq()),
        None => Ok(false),
    }
}

// Whether a leaf does.
fn holds(
    alloc: Global,
    cols: &Columns,
    key: &Row,
    leaf: &[Option<SpelledRow>],
) -> Result<bool, NoMemory>
    ensures { IfOk result (λ yes. yes ≡ holds cols.now key.now leaf.now) }
{
    for slot in leaf {
        if has(alloc, cols, key, slot)? {
            return Ok(true);
        }
    }
    Ok(false)
}

// The leaf with another row in the slot of a key's row.
fn swapped(
    alloc: Global,
    cols: &Columns,
    key: &Row,
    row: &SpelledRow,
    leaf: Vec<Option<SpelledRow>>,
) -> Result<Vec<Option<SpelledRow>>, NoMemory>
    ensures { IfOk result (λ new. new.items ≡ changed cols.now key.now (Some row.now) leaf.items) }
{
    let mut new = Vec::new(alloc);
    for slot in leaf {
        if has(alloc, cols, key, &slot)? {
            new.push(Some(row.copy(alloc)?))?;
            continue;
        }
        new.push(slot)?;
    }
    Ok(new)
}

// The leaf with an empty slot in place of a key's row.
fn emptied(
    alloc: Global,
    cols: &Columns,
    key: &Row,
    leaf: Vec<Option<SpelledRow>>,
) -> Result<Vec<Option<SpelledRow>>, NoMemory>
    ensures { IfOk result (λ new. new.items ≡ changed cols.now key.now None leaf.items) }
{
    let mut new = Vec::new(alloc);
    for slot in leaf {
        if has(alloc, cols, key, &slot)? {
            new.push(None)?;
            continue;
        }
        new.push(slot)?;
    }
    Ok(new)
}

// The first empty slot, or the one behind the last.
fn first_empty(leaf: &[Option<SpelledRow>]) -> usize
    ensures { IsFirstEmpty leaf.now result }
{
    for (i, slot) in leaf.iter().enumerate() {
        if slot.is_none() {
            return i;
        }
    }
    leaf.len()
}

// The leaf with a new row in its first empty slot.
fn added(
    row: SpelledRow,
    leaf: Vec<Option<SpelledRow>>,
) -> Result<Vec<Option<SpelledRow>>, NoMemory>
    ensures { IfOk result (λ new. new.items ≡ added row leaf.items) }
{
    let mut leaf = leaf;
    let i = first_empty(leaf.as_slice());
    if i < leaf.len() {
        leaf[i] = Some(row);
        return Ok(leaf);
    }
    leaf.push(Some(row))?;
    Ok(leaf)
}

/// The leaf with a row: it takes the slot of the row of its key, else the first empty one.
pub fn with_row(
    alloc: Global,
    cols: &Columns,
    row: SpelledRow,
    leaf: Vec<Option<SpelledRow>>,
) -> Result<Vec<Option<SpelledRow>>, NoMemory>
    ensures { IfOk result (λ new. new.items ≡ spec.with_row cols.now row leaf.items) }
{
    let key = key_of(alloc, cols.as_slice(), row.row())?;
    if holds(alloc, cols, &key, leaf.as_slice())? {
        return swapped(alloc, cols, &key, &row, leaf);
    }
    added(row, leaf)
}

// Whether the last slot is empty.
fn ends_empty(leaf: &[Option<SpelledRow>]) -> bool
    ensures yes { result ≡ true → 0 < length leaf.now }
    ensures none { result ≡ true → (d : Option (List Value)) → slice_index_or leaf.now (length leaf.now - 1) d ≡ None }
    ensures no { result ≡ false → trimmed leaf.now ≡ leaf.now }
{
    if leaf.is_empty() {
        return false;
    }
    leaf[leaf.len() - 1].is_none()
}

// The leaf without the empty slots at its end.
fn trimmed(leaf: Vec<Option<SpelledRow>>) -> Vec<Option<SpelledRow>>
    ensures { result.items ≡ trimmed leaf.items }
{
    let mut leaf = leaf;
    while ends_empty(leaf.as_slice()) {
        let _ = leaf.pop();
    }
    leaf
}

/// The leaf without the row of a key.
pub fn cut_row(
    alloc: Global,
    cols: &Columns,
    key: &Row,
    leaf: Vec<Option<SpelledRow>>,
) -> Result<Vec<Option<SpelledRow>>, NoMemory>
    ensures { IfOk result (λ new. new.items ≡ trimmed (changed cols.now key.now None leaf.items)) }
{
    Ok(trimmed(emptied(alloc, cols, key, leaf)?))
}
