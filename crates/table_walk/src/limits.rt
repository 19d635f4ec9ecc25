//! Which rows a plan may put.

ghost use Rattle.std.specs.Prelude.{◌↔◌, IsTrue, All, IfOk};
ghost use Rattle.table_walk.specs.Tables.{MayPut};

use page_base::{Columns, MAX_KEY_BYTES, MAX_ROW_BYTES, NoMemory, Row, RowList};
use row_fmt::{encode, fits, key_size};
use std::alloc::Global;

// Whether a plan may put this row.
fn may_put_row(alloc: Global, cols: &Columns, row: &Row) -> Result<bool, NoMemory>
    ensures { IfOk result (λ yes. IsTrue yes ↔ MayPut cols.now row.now) }
{
    if row.is_empty() {
        return Ok(false);
    }
    if !fits(row, cols) {
        return Ok(false);
    }
    let bytes = encode(alloc, row, cols)?;
    if MAX_ROW_BYTES < bytes.len() {
        return Ok(false);
    }
    Ok(key_size(row, cols) <= MAX_KEY_BYTES as u64)
}

/// Whether a plan may put these rows: each is one of these columns, of which there are some, within the limits.
pub fn may_put(alloc: Global, cols: &Columns, rows: &RowList) -> Result<bool, NoMemory>
    ensures { IfOk result (λ yes. IsTrue yes ↔ All (MayPut cols.now) rows.now) }
{
    for row in rows.as_slice() {
        if !may_put_row(alloc, cols, row)? {
            return Ok(false);
        }
    }
    Ok(true)
}
