//! How many bytes a row and its key take, told without spelling them.

ghost use Rattle.std.specs.Prelude.{◌≡◌, ◌-◌, ◌^◌, min, length};
ghost use Rattle.std.specs.List.{concat};
ghost use Rattle.row_fmt.specs.Rows.{null_bytes, value_field, row_bytes};
ghost use Rattle.row_fmt.specs.Keys.{key_bytes};

use page_base::{Columns, Row, Value};

// How many bytes tell which of so many columns are NULL: one for each eight begun.
pub(crate) fn null_bytes(columns: usize) -> usize
    ensures { result ≡ null_bytes columns }
{
    columns.div_ceil(8)
}

// How many bytes the field of a value has, none that of NULL.
#[tactic(auto, using(crate::proofs::SizeLemmas::int_size, crate::proofs::SizeLemmas::big_size, crate::proofs::SizeLemmas::text_size))]
fn value_size(value: &Value) -> u64
    ensures { result ≡ length (concat (value_field value.now)) }
{
    match value {
        Value::Null => 0,
        Value::Int(_) => 4,
        Value::Big(_) => 8,
        Value::Text(text) => 2 + text.as_slice().len() as u64,
    }
}

/// How many bytes a row has; a number that 64 bits can't hold is told as their last value.
pub fn size(row: &Row, cols: &Columns) -> u64
    requires { length row.now ≡ length cols.now }
    ensures { result ≡ min (length (row_bytes row.now)) (2 ^ 64 - 1) }
{
    let mut size = null_bytes(cols.len()) as u64;
    for value in row.as_slice() {
        size = size.saturating_add(value_size(value));
    }
    size
}

/// How many bytes the key of a row has; a number that 64 bits can't hold is told as their last value.
pub fn key_size(row: &Row, cols: &Columns) -> u64
    requires { length row.now ≡ length cols.now }
    ensures { result ≡ min (length (key_bytes cols.now row.now)) (2 ^ 64 - 1) }
{
    let mut size = 0u64;
    for (i, column) in cols.as_slice().iter().enumerate() {
        if column.key != 0 {
            size = size.saturating_add(value_size(row.at(i)));
        }
    }
    size
}
