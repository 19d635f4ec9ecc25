//! The columns that a definition gives its table.

ghost use Rattle.std.specs.Prelude.{◌≡◌, ◌≤◌, true, false, map, length, IfOk};
ghost use Rattle.plain_model.specs.Sound.{are_columns};
ghost use Rattle.table_def.specs.Parts.{written};
ghost use Rattle.table_def.specs.Keys.{key_of};
ghost use Rattle.table_def.specs.Kinds.{has_length};
ghost use Rattle.table_def.specs.Faults.{has_bad_length};
ghost use Rattle.table_def.specs.Defined.{column_of, columns_of};

use crate::faults::is_bad;
use crate::keys::{key_of, place_in};
use crate::kinds::kind_of;
use crate::names::names_of;
use crate::options::says_not_null;
use crate::{ColumnPart, TablePart, TableParts};
use page_base::{Column, Columns, Name, NoMemory};
use std::alloc::Global;

// The column that a part defines, beside this key.
fn column_of(key: &[Name], part: &ColumnPart) -> Column
    requires size { length key.now ≤ 16 }
    requires length { has_length part.now.kind ≡ true }
    ensures { result ≡ column_of key.now part.now }
{
    let place = place_in(key, &part.name);
    Column {
        name: part.name,
        kind: kind_of(part.kind),
        nullable: !(says_not_null(part) || place > 0),
        key: place,
    }
}

// The columns beside this key, in order.
fn columns_beside(alloc: Global, key: &[Name], parts: &TableParts) -> Result<Columns, NoMemory>
    requires size { length key.now ≤ 16 }
    requires lengths { has_bad_length (written parts.now) ≡ false }
    ensures { IfOk result (λ cols. cols ≡ map (column_of key.now) (written parts.now)) }
{
    let mut cols = Columns::new(alloc);
    for part in parts.as_slice() {
        match part {
            TablePart::Column(part) => cols.push(column_of(key, part))?,
            TablePart::Key(_) => {}
        }
    }
    Ok(cols)
}

/// The columns that the parts define, in order; none where the definition is a bad one. At most 64 parts may be columns;
/// PRIMARY KEY parts and their names may be any number.
pub fn columns_of(alloc: Global, parts: &TableParts) -> Result<Columns, NoMemory>
    requires { length (written parts.now) ≤ 64 }
    ensures columns { IfOk result (λ cols. cols ≡ columns_of parts.now) }
    ensures good { IfOk result (λ cols. are_columns cols ≡ true) }
{
    let names = names_of(alloc, parts)?;
    if is_bad(parts, names.as_slice()) {
        return Ok(Columns::new(alloc));
    }
    columns_beside(alloc, key_of(parts), parts)
}
