//! Storing values in the columns of a row, and what refuses a row by itself.

ghost use Rattle.std.specs.Prelude.{◌≡◌, ◌+◌, ◌<◌, nat_le, MatchOption};
ghost use Rattle.plain_model.specs.Sizes.{size_of_value, size_of_values, size_of_row};
ghost use Rattle.plain_model.specs.Storing.{kept_as, is_null, lacks, is_longer_than, overflows, some_cell, row_fault, key_fault, new_row_fault};
ghost use Rattle.plain_model.specs.Tables.{key_of};

use page_base::{ColType, Column, MAX_KEY_BYTES, MAX_ROW_BYTES, Row, Value};
use plain_model::Message;
use sql_eval::{number_in, stored};

/// The value as a column of this type keeps it; None is a number that INT doesn't hold.
pub(crate) fn kept_as(kind: ColType, value: Value) -> Option<Value>
    ensures { result ≡ kept_as kind value }
{
    match (kind, number_in(&value)) {
        (ColType::Int, Some(number)) => stored(false, number),
        (ColType::Big, Some(number)) => stored(true, number),
        _ => Some(value),
    }
}

fn is_null(value: &Value) -> bool
    ensures { result ≡ is_null value.now }
{
    matches!(value, Value::Null)
}

// Whether the value is NULL and the column may not be.
fn lacks(column: &Column, value: &Value) -> bool
    ensures { result ≡ lacks column.now value.now }
{
    is_null(value) && !column.nullable
}

// Whether the value is a text longer than the column.
fn overflows(column: &Column, value: &Value) -> bool
    ensures { result ≡ overflows column.now value.now }
{
    match (column.kind, value) {
        (ColType::Text { max }, Value::Text(bytes)) => usize::from(max) < bytes.len(),
        _ => false,
    }
}

// Whether a NULL stands where none may.
fn some_lacks(cols: &[Column], row: &[Value]) -> bool
    ensures { result ≡ some_cell lacks cols.now row.now }
{
    match cols {
        [] => false,
        [column, cols @ ..] => match row {
            [] => false,
            [value, row @ ..] => lacks(column, value) || some_lacks(cols, row),
        },
    }
}

// Whether a text is longer than its column.
fn some_overflows(cols: &[Column], row: &[Value]) -> bool
    ensures { result ≡ some_cell overflows cols.now row.now }
{
    match cols {
        [] => false,
        [column, cols @ ..] => match row {
            [] => false,
            [value, row @ ..] => overflows(column, value) || some_overflows(cols, row),
        },
    }
}

// What is left of so many bytes behind the value; None where they aren't enough.
fn left_behind(limit: usize, value: &Value) -> Option<usize>
    ensures { MatchOption result (limit < size_of_value value.now) (λ left. left + size_of_value value.now ≡ limit) }
{
    match value {
        Value::Null => Some(limit),
        Value::Int(_) => limit.checked_sub(4),
        Value::Big(_) => limit.checked_sub(8),
        Value::Text(bytes) => limit.checked_sub(2)?.checked_sub(bytes.len()),
    }
}

// Whether the values take at most so many bytes.
fn fit(limit: usize, values: &[Value]) -> bool
    ensures { result ≡ nat_le (size_of_values values.now) limit }
{
    match values {
        [] => true,
        [value, rest @ ..] => match left_behind(limit, value) {
            Some(left) => fit(left, rest),
            None => false,
        },
    }
}

// Whether a row takes at most so many bytes.
fn row_fits(limit: usize, row: &Row) -> bool
    ensures { result ≡ nat_le (size_of_row row.now) limit }
{
    match limit.checked_sub(row.len().div_ceil(8)) {
        Some(left) => fit(left, row.as_slice()),
        None => false,
    }
}

/// What refuses a row by itself: `NULL_VALUE` for a NULL where none may stand, `TEXT_TOO_LONG` for a text longer than
/// its column, `ROW_TOO_LONG` for more than 8,060 bytes.
pub(crate) fn row_fault(cols: &[Column], row: &Row) -> Option<u32>
    ensures { result ≡ row_fault cols.now row.now }
{
    if some_lacks(cols, row.as_slice()) {
        return Some(Message::NULL_VALUE);
    }
    if some_overflows(cols, row.as_slice()) {
        return Some(Message::TEXT_TOO_LONG);
    }
    if !row_fits(MAX_ROW_BYTES, row) {
        return Some(Message::ROW_TOO_LONG);
    }
    None
}

/// What refuses a new row of this key by itself: first as a row, then `KEY_TOO_LONG` for a key of more than 900 bytes.
pub(crate) fn new_row_fault(cols: &[Column], row: &Row, key: &Row) -> Option<u32>
    requires { key.now ≡ key_of cols.now row.now }
    ensures { result ≡ new_row_fault cols.now row.now }
{
    match row_fault(cols, row) {
        Some(number) => Some(number),
        None if !fit(MAX_KEY_BYTES, key.as_slice()) => Some(Message::KEY_TOO_LONG),
        None => None,
    }
}
