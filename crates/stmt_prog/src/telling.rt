//! The row that tells a new table, once its root is known.

ghost use Rattle.std.specs.Prelude.{◌≡◌, IfOk, IfSome, IsTrue};
ghost use Rattle.row_fmt.specs.Rows.{row_bytes};
ghost use Rattle.sys_cat.specs.Lists.{IsDesc};
ghost use Rattle.sys_cat.specs.Rows.{table_row};
ghost use Rattle.table_walk.specs.declared.plan.Edit.{Edit};
ghost use Rattle.table_walk.specs.declared.plan.Spot.{Spot};
ghost use Rattle.table_walk.specs.Differences.{edit_at};
ghost use Rattle.stmt_prog.specs.Placing.{IsPlacedAt};

use page_base::{Bytes, NoMemory, PageId};
use row_fmt::encode;
use std::alloc::Global;
use sys_cat::{TableDesc, rows_of, zero_columns};
use table_walk::Edit;

// A description once more, with another root.
fn rooted(alloc: Global, desc: &TableDesc, root: PageId) -> Result<TableDesc, NoMemory>
    ensures { IfOk result (λ d. d ≡ record desc.now { root = root }) }
{
    Ok(TableDesc {
        name: desc.name,
        number: desc.number,
        root,
        cols: desc.cols.copy(alloc)?,
    })
}

/// The bytes of the row that tells a table with this root.
pub(crate) fn row_told(alloc: Global, desc: &TableDesc, root: PageId) -> Result<Bytes, NoMemory>
    requires { IsDesc desc.now }
    ensures { IfOk result (λ bytes. bytes ≡ row_bytes (table_row (record desc.now { root = root }))) }
{
    if root.page >= 2_147_483_648 {
        return Err(NoMemory);
    }
    let told = rooted(alloc, desc, root)?;
    let rows = rows_of(alloc, &told)?;
    let cols = zero_columns(alloc)?;
    encode(alloc, rows.at(0), &cols)
}

// Whether an edit is of a row, and writes these bytes alone.
fn is_of(edit: &Edit, bytes: &[u8]) -> bool
    ensures { IsTrue result → edit.now ≡ edit_at edit.now.spot (edit.now.slot, bytes.now) }
{
    edit.of_row && edit.names.is_none() && edit.bytes.as_slice() == bytes
}

/// The place of the first edit of a row that writes these bytes, if there is one.
pub(crate) fn place_of(edits: &[Edit], bytes: &[u8]) -> Option<usize>
    ensures { IfSome result (IsPlacedAt edits.now bytes.now) }
{
    for (i, edit) in edits.iter().enumerate() {
        if is_of(edit, bytes) {
            return Some(i);
        }
    }
    None
}
