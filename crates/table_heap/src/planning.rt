//! The edits that cut keys from a heap and put rows into it, and how many pages are claimed for them.

ghost use Rattle.std.specs.Prelude.{Bool, ℕ, List, [], ◌≡◌, ◌<◌, IfOk, IfErr, length, map, slice_index_or};
ghost use Rattle.std.specs.List.{All, Any};
ghost use Rattle.page_base.specs.declared.numbers.PageId.{PageId};
ghost use Rattle.page_fmt.specs.Seen.{SlotsAt, Looked, Shows, Saw, look, place_of};
ghost use Rattle.plain_model.specs.Tables.{Rows};
ghost use Rattle.table_walk.specs.Index.{Indexes};
ghost use Rattle.table_walk.specs.Walk.{IsDone, IsSeenWalk};
ghost use Rattle.table_walk.specs.Tables.{IsBadRow, IsNoRow, MayPut};
ghost use Rattle.table_walk.specs.Answers.{IsAt, IsMemory};
ghost use Rattle.table_heap.specs.Emission.{read_slots, last_or, IsPlanned};
ghost use Rattle.table_heap.specs.Heap.{heap_kids, first, RowsAt};
ghost use Rattle.table_heap.specs.Leaves.{Leaf, slots_of, cut_keys, put_rows};
ghost use Rattle.table_heap.specs.Places.{AreApart, AreRows, IsDraft};
ghost use Rattle.table_heap.specs.Planning.{Promises};
ghost use Rattle.table_heap.specs.Shape.{leaves_in, roots_in};

use crate::draft::Draft;
use crate::emission::edits_in;
use crate::growing::{SLOTS, grown};
use crate::layout::Heap;
use crate::reading::first;
use crate::turns::{in_turn, uses};
use page_base::{Columns, NoMemory, PageId, RowList};
use page_fmt::Seen;
use std::alloc::Global;
use std::collections::BTreeMap;
use table_walk::{Plan, SeenRefusal, Visit, is_leaf, page_index, place, walk};

// The walk over all pages.
fn whole_walk(alloc: Global, root: PageId, seen: &Seen) -> Result<Vec<Visit>, SeenRefusal>
    requires { IsDone heap_kids seen.now (first root) }
    ensures done { IfOk result (λ done. IsSeenWalk heap_kids seen.now (first root) done.items []) }
    ensures memory { IfErr result IsMemory }
{
    let walked = walk(alloc, &Heap, first(root), seen)?;
    Ok(walked.done)
}

// Where the leaves of a walk were read, in order.
fn leaf_places(
    alloc: Global,
    done: &[Visit],
    places: &BTreeMap<PageId, usize>,
    seen: &Seen,
) -> Result<Vec<usize>, NoMemory>
    requires places { Indexes places.now seen.now }
    requires saw { All (λ v. Saw seen.now v.page) done.now }
    ensures { IfOk result (λ found. found.items ≡ map (place_of seen.now) (leaves_in done.now)) }
{
    let mut found = Vec::new(alloc);
    for visit in done {
        if !is_leaf(*visit) {
            continue;
        }
        let Some(i) = place(places, seen, visit.page) else {
            continue;
        };
        found.push(i)?;
    }
    Ok(found)
}

// The last root page of a walk from a root page on.
fn last_root(root: PageId, done: &[Visit]) -> PageId
    ensures { result ≡ last_or root (roots_in done.now) }
{
    let mut last = root;
    for visit in done {
        if is_leaf(*visit) {
            continue;
        }
        last = visit.page;
    }
    last
}

// How many slots were read of a page.
fn slots_read(places: &BTreeMap<PageId, usize>, seen: &Seen, page: PageId) -> usize
    requires { Indexes places.now seen.now }
    ensures { result ≡ length (look seen.now page) }
{
    match place(places, seen, page) {
        Some(i) => usize::from(seen.slots(i)),
        None => 0,
    }
}

// The leaves that were read, without some keys and with some rows.
fn drafted(
    alloc: Global,
    cols: &Columns,
    cut: &RowList,
    put: &RowList,
    places: &[usize],
    seen: &Seen,
) -> Result<Draft, SeenRefusal>
    requires within { All (λ i. i < length seen.now) places.now }
    requires put { All (MayPut cols.now) put.now }
    ensures draft { IfOk result (λ draft. (d : Looked) (leaves : List Leaf) → read_slots seen.now d places.now ≡ map slots_of leaves → AreRows cols.now leaves → AreApart cols.now leaves
        → IsDraft cols.now (put_rows cols.now put.now (cut_keys cols.now cut.now leaves)) draft.leaves.items draft.places) }
    ensures bad { IfErr result (λ e. (d : Looked) → IsAt (λ page slot. Any (λ i. ((slice_index_or seen.now i d).page ≡ page) × IsNoRow cols.now (slice_index_or seen.now i d).slots slot) places.now) e) }
{
    let mut draft = Draft::read(alloc, cols, seen, places)?;
    draft.cut_all(alloc, cut.as_slice())?;
    draft.put_all(alloc, cols, put.as_slice())?;
    Ok(draft)
}

// The edits that make the leaves of a draft of those that a walk came to.
fn planned(
    alloc: Global,
    root: PageId,
    done: &[Visit],
    index: &BTreeMap<PageId, usize>,
    places: &[usize],
    draft: &Draft,
    seen: &Seen,
) -> Result<Plan, NoMemory>
    requires index { Indexes index.now seen.now }
    requires done { IsSeenWalk heap_kids seen.now (first root) done.now [] }
    requires within { All (λ i. i < length seen.now) places.now }
    ensures { IfOk result (λ plan. IsPlanned seen.now root done.now places.now draft.now.leaves.items plan.new_pages plan.edits) }
{
    let last = last_root(root, done);
    let slots = slots_read(index, seen, last);
    let more = draft.len().saturating_sub(places.len());
    let growth = grown(alloc, last, slots, more)?;
    let wanted = uses(
        alloc,
        draft.changed(),
        places.len(),
        draft.len(),
        SLOTS.saturating_sub(slots),
    )?;
    let Some(count) = growth.pages(draft.len()) else {
        return Err(NoMemory);
    };
    let order = in_turn(alloc, wanted.as_slice(), count)?;
    let edits = edits_in(alloc, seen, places, draft, &growth, order.as_slice())?;
    Ok(Plan {
        new_pages: growth.claims,
        edits,
    })
}

/// The edits that cut keys from the heap with this root, of which all pages were read, and then put rows into it, one at a
/// time in the order given. A row whose key is there takes that row's slot where it fits, and goes as a new one where it
/// doesn't; a new row goes into the first leaf that has room, else into a new leaf at the end. Damaged only where a slot of
/// a leaf is no row; never where the pages are a table.
pub fn plan(
    alloc: Global,
    root: PageId,
    cols: &Columns,
    cut: &RowList,
    put: &RowList,
    seen: &Seen,
) -> Result<Plan, SeenRefusal>
    requires done { IsDone heap_kids seen.now (first root) }
    requires put { All (MayPut cols.now) put.now }
    // Over pages that are a table, the edits carry it to its rows without those that are cut and with those that are put.
    ensures promises { IfOk result (λ plan. Promises cols.now seen.now root cut.now put.now plan.new_pages plan.edits) }
    ensures whole { (at : SlotsAt) (owns : PageId → Bool) (rows : Rows) → RowsAt cols.now at owns root rows → Shows seen.now at → IfErr result IsMemory }
    ensures bad { IfErr result (IsAt (IsBadRow heap_kids cols.now seen.now (first root))) }
{
    let done = whole_walk(alloc, root, seen)?;
    let index = page_index(alloc, seen)?;
    let places = leaf_places(alloc, done.as_slice(), &index, seen)?;
    let draft = drafted(alloc, cols, cut, put, places.as_slice(), seen)?;
    let done = done.as_slice();
    Ok(planned(alloc, root, done, &index, places.as_slice(), &draft, seen)?)
}
