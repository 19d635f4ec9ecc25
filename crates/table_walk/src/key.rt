//! The key of a row, and a row once more.

ghost use Rattle.std.specs.Prelude.{◌≡◌, IfOk};
ghost use Rattle.plain_model.specs.Tables.{key_cell, key_of, key_size};

use page_base::{Column, NoMemory, Row, Value};
use std::alloc::Global;

// A copy of the value in the column that has this place in the key.
fn key_cell(alloc: Global, cols: &[Column], row: &[Value], place: usize) -> Result<Value, NoMemory>
    ensures { IfOk result (λ value. value ≡ key_cell cols.now row.now place) }
{
    for (i, column) in cols.iter().enumerate() {
        if usize::from(column.key) == place {
            return match row.get(i) {
                Some(value) => value.copy(alloc),
                None => Ok(Value::Null),
            };
        }
    }
    Ok(Value::Null)
}

/// How many columns the key has. Takes no memory.
pub fn key_size(cols: &[Column]) -> usize
    ensures { result ≡ key_size cols.now }
{
    cols.iter().filter(|column| 1 <= column.key).count()
}

/// The key of a row: its values in the columns of the key, in the key's order.
pub fn key_of(alloc: Global, cols: &[Column], row: &Row) -> Result<Row, NoMemory>
    ensures { IfOk result (λ key. key ≡ key_of cols.now row.now) }
{
    let mut key = Row::new(alloc);
    for i in 0..key_size(cols) {
        key.push(key_cell(alloc, cols, row.as_slice(), i + 1)?)?;
    }
    Ok(key)
}

/// The same row once more.
pub fn copy_row(alloc: Global, row: &Row) -> Result<Row, NoMemory>
    ensures { IfOk result (λ copy. copy ≡ row.now) }
{
    let mut copy = Row::new(alloc);
    for value in row.as_slice() {
        copy.push(value.copy(alloc)?)?;
    }
    Ok(copy)
}
