//! What is still to be read of a heap, and its rows.

ghost use Rattle.std.specs.Prelude.{Bool, true, List, ◌≡◌, IfOk, IfErr, OnOk, []};
ghost use Rattle.std.specs.FinMap as finite;
ghost use Rattle.page_base.specs.declared.numbers.PageId.{PageId};
ghost use Rattle.page_fmt.specs.Seen.{SlotsAt, Shows, look};
ghost use Rattle.plain_model.specs.Tables.{Rows};
ghost use Rattle.table_walk.specs.declared.visit.Visit.{Visit};
ghost use Rattle.table_walk.specs.Walk.{IsBad, IsDone, IsSeenWalk};
ghost use Rattle.table_walk.specs.Tables.{AreRows, IsBadRow, cells};
ghost use Rattle.table_walk.specs.Answers.{Tells, IsAt, IsMemory, OfPage, asked};
ghost use Rattle.table_heap.specs.Heap.{heap_kids, first, RowsAt};

use crate::layout::Heap;
use page_base::{Columns, PageId, RowList};
use page_fmt::Seen;
use std::alloc::Global;
use table_walk::{Find, SeenRefusal, Visit, Wants, rows_of, wants_of};

// The visit of the first root page.
pub(crate) fn first(root: PageId) -> Visit
    ensures { result ≡ first root }
{
    Visit {
        page: root,
        from: root,
        slot: 0,
        level: Some(1),
    }
}

/// The next page to read, and whether it holds rows; Done where all pages of the heap with this root were read, whatever
/// rows are asked for. Root pages come before their leaves, and leaves in the order in which they are named. Damaged
/// exactly names a slot that is no address, or that of a page already come to; never where the pages are a table.
pub fn wants(
    alloc: Global,
    root: PageId,
    cols: &Columns,
    find: &Find,
    seen: &Seen,
) -> Result<Wants, SeenRefusal>
    // What is named wasn't read, and Done says that all was.
    ensures tells { IfOk result (Tells heap_kids seen.now (first root)) }
    ensures bad { IfErr result (IsAt (IsBad heap_kids seen.now (first root))) }
    // Over pages that are a table, what is named is one of its pages, and no slot is damaged.
    ensures owned { (at : SlotsAt) (owns : PageId → Bool) (rows : Rows) → RowsAt cols.now at owns root rows → Shows seen.now at → IfOk result (OfPage (λ p. owns p ≡ true)) }
    ensures whole { (at : SlotsAt) (owns : PageId → Bool) (rows : Rows) → RowsAt cols.now at owns root rows → Shows seen.now at → IfErr result IsMemory }
{
    wants_of(alloc, &Heap, first(root), seen)
}

/// The rows that are asked for, in ascending order of their keys, of the heap with this root, of which all pages were
/// read. Damaged only where a slot of a leaf is no row; never where the pages are a table.
pub fn rows(
    alloc: Global,
    root: PageId,
    cols: &Columns,
    find: &Find,
    seen: &Seen,
) -> Result<RowList, SeenRefusal>
    requires { IsDone heap_kids seen.now (first root) }
    // Over pages that are a table, they are its rows.
    ensures rows { (at : SlotsAt) (owns : PageId → Bool) (all : Rows) → RowsAt cols.now at owns root all → Shows seen.now at → IfOk result (λ r. r ≡ finite.values (asked find.now all)) }
    ensures whole { (at : SlotsAt) (owns : PageId → Bool) (all : Rows) → RowsAt cols.now at owns root all → Shows seen.now at → IfErr result IsMemory }
    // Over all pages, no slot that is no row is passed over.
    ensures are { OnOk result ((done : List Visit) → IsSeenWalk heap_kids seen.now (first root) done [] → AreRows cols.now (cells (look seen.now) done)) }
    ensures bad { IfErr result (IsAt (IsBadRow heap_kids cols.now seen.now (first root))) }
{
    rows_of(alloc, &Heap, first(root), cols, find, seen)
}
