//! The order of rows by the columns of ORDER BY.

ghost use Rattle.std.specs.Prelude.{◌≡◌, IfOk, slice_index_or};
ghost use Rattle.page_base.specs.declared.value.Value.TheVariants.{Null};
ghost use Rattle.plain_model.specs.Cells.{cell, cell_at, place_of};
ghost use Rattle.plain_model.specs.Sorting.{directed, row_cmp, ordered};

use crate::values::place_of;
use page_base::{Columns, NoMemory, Row, RowList, Value};
use plain_model::{OrderItem, OrderList};
use std::cmp::Ordering;

// The order of two values, or the other way round.
fn directed(down: bool, a: &Value, b: &Value) -> Ordering
    ensures { result ≡ directed down a.now b.now }
{
    if down { b.compare(a) } else { a.compare(b) }
}

// The order of two rows by the values at a place, of which one that isn't there counts as NULL.
fn compare_at(down: bool, a: &Row, b: &Row, place: usize) -> Ordering
    ensures { result ≡ directed down (slice_index_or a.now place Null) (slice_index_or b.now place Null) }
{
    match (a.as_slice().get(place), b.as_slice().get(place)) {
        (Some(a), Some(b)) => directed(down, a, b),
        (Some(a), None) => directed(down, a, &Value::Null),
        (None, Some(b)) => directed(down, &Value::Null, b),
        (None, None) => Ordering::Equal,
    }
}

// The order of two rows by one column.
fn compare_by(cols: &Columns, item: &OrderItem, a: &Row, b: &Row) -> Ordering
    ensures { result ≡ directed item.now.down (cell cols.now a.now item.now.col) (cell cols.now b.now item.now.col) }
{
    match place_of(cols, &item.col) {
        Some(place) => compare_at(item.down, a, b, place),
        None => Ordering::Equal,
    }
}

/// The order of two rows by the first ORDER BY column in which they differ. Takes no memory.
pub fn compare_rows(cols: &Columns, by: &[OrderItem], a: &Row, b: &Row) -> Ordering
    ensures { result ≡ row_cmp cols.now by.now a.now b.now }
{
    match by {
        [] => Ordering::Equal,
        [item, rest @ ..] => match compare_by(cols, item, a, b) {
            Ordering::Equal => compare_rows(cols, rest, a, b),
            order => order,
        },
    }
}

/// The rows in the order of ORDER BY: NULL is the least value, and rows that don't differ stand as they stood.
pub fn order_rows(rows: RowList, cols: &Columns, by: &OrderList) -> Result<RowList, NoMemory>
    ensures { IfOk result (λ list. list ≡ ordered cols.now by.now rows) }
{
    let mut sorted = rows.into_vec();
    sorted.sort_by(|a, b| compare_rows(cols, by.as_slice(), a, b))?;
    Ok(RowList::from(sorted))
}
