//! Keys as bytes: what an entry of a page holds behind its address.

ghost use Rattle.std.specs.Prelude.{option_to_list, ◌≡◌, ◌≤◌, length, IfOk};
ghost use Rattle.tree_laws.specs.Keys.{key_column, key_columns, key_at};

use page_base::{Column, Columns, NoMemory, Row};
use row_fmt::{RowRefusal, decode};
use std::alloc::Global;
use table_walk::key_size;

// The column of a place in the key, as one that is never NULL.
fn key_column(cols: &[Column], place: usize) -> Option<Column>
    ensures { option_to_list result ≡ key_column cols.now place }
{
    for column in cols {
        if usize::from(column.key) == place {
            return Some(Column {
                name: column.name,
                kind: column.kind,
                nullable: false,
                key: column.key,
            });
        }
    }
    None
}

// The columns of the key, in the key's order.
pub(crate) fn key_columns(alloc: Global, cols: &[Column]) -> Result<Columns, NoMemory>
    ensures columns { IfOk result (λ keys. keys ≡ key_columns cols.now) }
    ensures few { IfOk result (λ keys. length keys ≤ 255) }
{
    let mut keys = Columns::new(alloc);
    for i in 0..key_size(cols).min(255) {
        match key_column(cols, i + 1) {
            Some(column) => keys.push(column)?,
            None => {}
        }
    }
    Ok(keys)
}

// The key of these columns that the bytes spell; None exactly where they spell none.
pub(crate) fn decode_key(
    alloc: Global,
    keys: &Columns,
    bytes: &[u8],
) -> Result<Option<Row>, NoMemory>
    requires few { length keys.now ≤ 255 }
    requires short { length bytes.now ≤ 8192 }
    ensures { IfOk result (λ key. key ≡ key_at keys.now bytes.now) }
{
    let mut row = vec![in alloc; 0u8; keys.len().div_ceil(8)]?;
    row.extend_from_slice(bytes)?;
    match decode(alloc, row.as_slice(), keys) {
        Ok(key) => Ok(Some(key)),
        Err(RowRefusal::Form { at: _ }) => Ok(None),
        Err(RowRefusal::Memory) => Err(NoMemory),
    }
}
