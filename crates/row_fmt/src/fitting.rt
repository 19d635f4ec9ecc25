//! Whether some columns may hold a row.

ghost use Rattle.std.specs.Prelude.{◌↔◌, IsTrue};
ghost use Rattle.row_fmt.specs.Rows.{IsText, MayStand, FitsColumns};

use crate::reader::is_text;
use page_base::{ColType, Column, Columns, Row, Value};

// Whether a column of at most so many bytes may hold a text.
fn may_hold(max: u16, text: &[u8]) -> bool
    ensures { IsTrue result ↔ IsText max text.now }
{
    is_text(max, text)
}

// Whether a value may stand in a column.
fn may_stand(column: &Column, value: &Value) -> bool
    ensures { IsTrue result ↔ MayStand column.now value.now }
{
    match (value, column.kind) {
        (Value::Null, _) => column.nullable,
        (Value::Int(_), ColType::Int) => true,
        (Value::Big(_), ColType::Big) => true,
        (Value::Text(text), ColType::Text { max }) => may_hold(max, text.as_slice()),
        _ => false,
    }
}

// Whether the values may stand in the columns, one for each.
fn fits_columns(columns: &[Column], row: &[Value]) -> bool
    ensures { IsTrue result ↔ FitsColumns columns.now row.now }
{
    match columns {
        [] => row.is_empty(),
        [column, columns @ ..] => match row {
            [] => false,
            [value, row @ ..] => may_stand(column, value) && fits_columns(columns, row),
        },
    }
}

/// Whether these columns may hold a row. Takes no memory.
pub fn fits(row: &Row, cols: &Columns) -> bool
    ensures { IsTrue result ↔ FitsColumns cols.now row.now }
{
    fits_columns(cols.as_slice(), row.as_slice())
}
