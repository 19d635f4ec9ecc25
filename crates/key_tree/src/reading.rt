//! What is still to be read of a tree, and its rows.

ghost use Rattle.std.specs.Prelude.{Bool, true, List, ◌≡◌, ◌≤◌, IfOk, IfErr, OnOk, [], length, All};
ghost use Rattle.std.specs.FinMap as finite;
ghost use Rattle.std.specs.List.{Any};
ghost use Rattle.page_base.specs.declared.numbers.PageId.{PageId};
ghost use Rattle.page_fmt.specs.Seen.{SlotsAt, Shows, look};
ghost use Rattle.plain_model.specs.Tables.{Rows};
ghost use Rattle.table_walk.specs.declared.find.Find.TheVariants.{Keys};
ghost use Rattle.table_walk.specs.declared.visit.Visit.{Visit};
ghost use Rattle.table_walk.specs.Tables.{AreRows, cells};
ghost use Rattle.table_walk.specs.Answers.{IsAt, IsMemory, OfPage, asked};
ghost use Rattle.tree_laws.specs.Keys.{key_columns};
ghost use Rattle.tree_laws.specs.Kids.{first};
ghost use Rattle.tree_laws.specs.LookUps.{TellsFor, IsBadFor, IsRead, IsWalkFor, IsNoRowFor};
ghost use Rattle.tree_laws.specs.Order.{RowsAt};

use crate::keys::key_columns;
use crate::layout::Tree;
use page_base::{Columns, PageId, Row, RowList};
use page_fmt::Seen;
use std::alloc::Global;
use table_walk::{
    Find, RowMap, SeenRefusal, Visit, Wants, copy_row, is_leaf, page_index, row_of, rows_of,
    walk_with, wants_of,
};

// The visit of the root, whose level its page tells.
fn first(root: PageId) -> Visit
    ensures { result ≡ first root }
{
    Visit {
        page: root,
        from: root,
        slot: 0,
        level: None,
    }
}

// The next page to read for some keys.
fn wants_of_keys(
    alloc: Global,
    root: PageId,
    cols: &Columns,
    keys: &[Row],
    seen: &Seen,
) -> Result<Wants, SeenRefusal>
    ensures tells { IfOk result (TellsFor cols.now seen.now root (Keys keys.now)) }
    ensures bad { IfErr result (IsAt (IsBadFor cols.now seen.now root (Keys keys.now))) }
{
    let mut tree = Tree::whole(key_columns(alloc, cols.as_slice())?);
    let places = page_index(alloc, seen)?;
    for key in keys {
        tree.look_for(copy_row(alloc, key)?);
        let walked = walk_with(alloc, &tree, first(root), &places, seen)?;
        match walked.lacks {
            Some(visit) => return Ok(Wants::Page {
                page: visit.page,
                rows: is_leaf(visit),
            }),
            None => {}
        }
    }
    Ok(Wants::Done)
}

/// The next page to read, and whether it holds rows; Done where all that the rows asked for may stand on was read. Of all
/// rows a page comes before those below it, and these in key order; of keys the pages of one look-up after the other, in
/// the order of the keys. Damaged exactly names a slot that is no level or address, or that of a page already come to;
/// never where the pages are a table.
pub fn wants(
    alloc: Global,
    root: PageId,
    cols: &Columns,
    find: &Find,
    seen: &Seen,
) -> Result<Wants, SeenRefusal>
    // What is named wasn't read, and Done says that all was.
    ensures tells { IfOk result (TellsFor cols.now seen.now root find.now) }
    ensures bad { IfErr result (IsAt (IsBadFor cols.now seen.now root find.now)) }
    // Over pages that are a table, what is named is one of its pages, and no slot is damaged.
    ensures owned { (at : SlotsAt) (owns : PageId → Bool) (rows : Rows) → RowsAt cols.now at owns root rows → Shows seen.now at → IfOk result (OfPage (λ p. owns p ≡ true)) }
    ensures whole { (at : SlotsAt) (owns : PageId → Bool) (rows : Rows) → RowsAt cols.now at owns root rows → Shows seen.now at → IfErr result IsMemory }
{
    match find {
        Find::All => {
            let keys = key_columns(alloc, cols.as_slice())?;
            wants_of(alloc, &Tree::whole(keys), first(root), seen)
        }
        Find::Keys(keys) => wants_of_keys(alloc, root, cols, keys.as_slice(), seen),
    }
}

// The rows of some keys.
fn rows_of_keys(
    alloc: Global,
    root: PageId,
    cols: &Columns,
    keys: &[Row],
    seen: &Seen,
) -> Result<RowMap, SeenRefusal>
    requires { IsRead cols.now seen.now root (Keys keys.now) }
    ensures rows { (at : SlotsAt) (owns : PageId → Bool) (all : Rows) → RowsAt cols.now at owns root all → Shows seen.now at → IfOk result (λ rows. rows ≡ asked (Keys keys.now) all) }
    ensures are { OnOk result ((done : List Visit) → IsWalkFor cols.now seen.now root (Keys keys.now) done → AreRows cols.now (cells (look seen.now) done)) }
    ensures bad { IfErr result (IsAt (IsNoRowFor cols.now seen.now root (Keys keys.now))) }
{
    let mut tree = Tree::whole(key_columns(alloc, cols.as_slice())?);
    let places = page_index(alloc, seen)?;
    let mut rows = RowMap::new(alloc);
    for key in keys {
        tree.look_for(copy_row(alloc, key)?);
        match row_of(alloc, &tree, first(root), cols, key, &places, seen)? {
            Some(row) => rows.put(copy_row(alloc, key)?, row)?,
            None => {}
        }
    }
    Ok(rows)
}

/// The rows that are asked for, in ascending order of their keys, of the tree with this root, of which all pages on which
/// they may stand were read. Damaged only where a slot of a leaf is no row; never where the pages are a table.
pub fn rows(
    alloc: Global,
    root: PageId,
    cols: &Columns,
    find: &Find,
    seen: &Seen,
) -> Result<RowList, SeenRefusal>
    requires { IsRead cols.now seen.now root find.now }
    // Over pages that are a table, they are its rows.
    ensures rows { (at : SlotsAt) (owns : PageId → Bool) (all : Rows) → RowsAt cols.now at owns root all → Shows seen.now at → IfOk result (λ r. r ≡ finite.values (asked find.now all)) }
    ensures whole { (at : SlotsAt) (owns : PageId → Bool) (all : Rows) → RowsAt cols.now at owns root all → Shows seen.now at → IfErr result IsMemory }
    // Over the pages that were read for them, no slot that is no row is passed over.
    ensures are { OnOk result ((done : List Visit) → IsWalkFor cols.now seen.now root find.now done → AreRows cols.now (cells (look seen.now) done)) }
    ensures bad { IfErr result (IsAt (IsNoRowFor cols.now seen.now root find.now)) }
{
    match find {
        Find::All => {
            let keys = key_columns(alloc, cols.as_slice())?;
            rows_of(alloc, &Tree::whole(keys), first(root), cols, find, seen)
        }
        Find::Keys(keys) => {
            let rows = rows_of_keys(alloc, root, cols, keys.as_slice(), seen)?;
            Ok(rows.into_list(alloc)?)
        }
    }
}
