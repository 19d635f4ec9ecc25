//! The edits of the pages that a plan changes, page by page in an order.

ghost use Rattle.std.specs.Prelude.{ℕ, List, [], ◌∷◌, ◌++◌, ◌≡◌, ◌≤◌, ◌<◌, ◌+◌, OnOk, IfOk, length, map, slice_index_or};
ghost use Rattle.std.specs.List.{All};
ghost use Rattle.page_fmt.specs.Seen.{Looked};
ghost use Rattle.page_fmt.specs.Spelling.{FitsPage};
ghost use Rattle.table_walk.specs.declared.plan.Spot.{Spot};
ghost use Rattle.table_walk.specs.declared.plan.Spot.TheVariants.{Old};
ghost use Rattle.table_walk.specs.Differences.{AddsPage};
ghost use Rattle.table_heap.specs.Emission.{read_pages, read_slots, leaf_spots, Adds, MakesAll};
ghost use Rattle.table_heap.specs.Growth.{pages_in, slots_made};

use crate::draft::Draft;
use crate::growing::Growth;
use crate::leaf::copied;
use crate::root_edits::add_root;
use page_base::{Bytes, NoMemory};
use page_fmt::Seen;
use std::alloc::Global;
use table_walk::{EditList, Spot, add_differences};

// The edits of a leaf that was read at a place.
fn add_old_leaf(
    alloc: Global,
    seen: &Seen,
    place: usize,
    new: &[Bytes],
    edits: &mut EditList,
) -> Result<(), NoMemory>
    requires there { place < length seen.now }
    requires fits { FitsPage new.now }
    ensures { OnOk result ((d : Looked) → AddsPage (Old (slice_index_or seen.now place d).page) (slice_index_or seen.now place d).slots new.now edits.old edits.new) }
{
    let old = copied(alloc, seen, place)?;
    add_differences(
        alloc,
        Spot::Old(seen.page(place)),
        old.as_slice(),
        new,
        edits,
    )
}

// The edits of a leaf.
fn add_leaf(
    alloc: Global,
    seen: &Seen,
    places: &[usize],
    claims: &[u32],
    leaf: usize,
    new: &[Bytes],
    edits: &mut EditList,
) -> Result<(), NoMemory>
    requires within { All (λ i. i < length seen.now) places.now }
    requires there { leaf < length places.now + length claims.now }
    requires fits { FitsPage new.now }
    ensures { OnOk result ((d : Looked) (s : Spot) → AddsPage (slice_index_or (leaf_spots (read_pages seen.now d places.now) claims.now) leaf s) (slice_index_or (read_slots seen.now d places.now) leaf []) new.now edits.old edits.new) }
{
    if leaf < places.len() {
        return add_old_leaf(alloc, seen, places[leaf], new, edits);
    }
    let spot = Spot::New(claims[leaf - places.len()]);
    add_differences(alloc, spot, &[], new, edits)
}

// The edits of a page.
fn add_page(
    alloc: Global,
    seen: &Seen,
    places: &[usize],
    draft: &Draft,
    growth: &Growth,
    page: usize,
    edits: &mut EditList,
) -> Result<(), NoMemory>
    requires within { All (λ i. i < length seen.now) places.now }
    requires leaves { length draft.now.leaves.items ≤ length places.now + length growth.now.leaves }
    requires short { All (λ r. slots_made r ≤ 1001) (pages_in growth.now) }
    requires page { page < length draft.now.leaves.items + length (pages_in growth.now) }
    ensures { OnOk result ((d : Looked) → Adds (leaf_spots (read_pages seen.now d places.now) growth.now.leaves) (read_slots seen.now d places.now) draft.now.leaves.items (pages_in growth.now) page edits.old edits.new) }
{
    if page < draft.len() {
        let claims = growth.leaves.as_slice();
        return add_leaf(alloc, seen, places, claims, page, draft.leaf(page), edits);
    }
    add_root(alloc, growth.root(page - draft.len()), edits)
}

/// The edits of pages in this order.
pub(crate) fn edits_in(
    alloc: Global,
    seen: &Seen,
    places: &[usize],
    draft: &Draft,
    growth: &Growth,
    order: &[usize],
) -> Result<EditList, NoMemory>
    requires within { All (λ i. i < length seen.now) places.now }
    requires leaves { length draft.now.leaves.items ≤ length places.now + length growth.now.leaves }
    requires short { All (λ r. slots_made r ≤ 1001) (pages_in growth.now) }
    requires order { All (λ i. i < length draft.now.leaves.items + length (pages_in growth.now)) order.now }
    ensures { IfOk result (λ edits. (d : Looked) → MakesAll (leaf_spots (read_pages seen.now d places.now) growth.now.leaves) (read_slots seen.now d places.now) draft.now.leaves.items (pages_in growth.now) order.now edits) }
{
    let mut edits = EditList::new(alloc);
    for page in order {
        add_page(alloc, seen, places, draft, growth, *page, &mut edits)?;
    }
    Ok(edits)
}
