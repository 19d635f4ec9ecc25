//! The edits that make drafted pages of what was read, one for each slot that differs.

ghost use Rattle.std.specs.Prelude.{true, ℕ, List, [], ◌≡◌, ◌++◌, ◌<◌, ◌≤◌, ◌+◌, IfOk, OnOk, IfSome, Option, length, slice_index_or};
ghost use Rattle.page_fmt.specs.Seen.{Looked};
ghost use Rattle.page_fmt.specs.Spelling.{FitsPage};
ghost use Rattle.table_walk.specs.Index.{Indexes};
ghost use Rattle.page_draft.specs.Drafts.{fits_in, ends_full, cell_at, is_due, dues, edit_of, page_edits, edits_in, old_of, turns};
ghost use Rattle.page_draft.specs.Made.{HaveRoom};
ghost use Rattle.page_draft.specs.Reading.{read_slots, IsPlace};

use crate::page::{Cell, Page};
use page_base::{Bytes, NoMemory, PageId};
use page_fmt::Seen;
use std::alloc::Global;
use std::collections::BTreeMap;
use table_walk::{Edit, EditList, Spot, page_index, place};

// The claimed page that a slot is to name, none past the last one.
fn names_at(cells: &[Cell], i: usize) -> Option<u32>
    ensures { result ≡ (cell_at cells.now i).names }
{
    match cells.get(i) {
        Some(cell) => cell.names,
        None => None,
    }
}

// The bytes of a slot's cell.
fn bytes_at(cells: &[Cell], i: usize) -> &[u8]
    ensures { result.now ≡ (cell_at cells.now i).bytes }
{
    match cells.get(i) {
        Some(cell) => cell.bytes.as_slice(),
        None => &[],
    }
}

// Whether a slot that changes does so in this round.
fn turns(grows: bool, longer: bool) -> bool
    ensures { result ≡ turns grows longer }
{
    if longer { grows } else { !grows }
}

// Whether a slot changes, and grows or doesn't.
fn is_due(grows: bool, old: &[u8], names: Option<u32>, bytes: &[u8]) -> bool
    ensures { result ≡ is_due grows old.now names bytes.now }
{
    match names {
        Some(_) => turns(grows, old.len() < 5 || old.len() - 5 < bytes.len()),
        None => {
            if old == bytes {
                return false;
            }
            turns(grows, old.len() < bytes.len())
        }
    }
}

// Where a page was read; a page that will be claimed wasn't.
fn read_at(places: &BTreeMap<PageId, usize>, seen: &Seen, spot: Spot) -> Option<usize>
    requires { Indexes places.now seen.now }
    ensures { IsPlace seen.now spot result }
{
    match spot {
        Spot::Old(page) => place(places, seen, page),
        Spot::New(_) => None,
    }
}

// How many slots were read at a place.
fn slots_at(seen: &Seen, place: Option<usize>) -> u16
    requires { IfSome place (λ i. i < length seen.now) }
    ensures count { (d : Looked) → result ≡ length (read_slots seen.now place d) }
    ensures fits { (d : Looked) → FitsPage (read_slots seen.now place d) }
{
    match place {
        Some(i) => seen.slots(i),
        None => 0,
    }
}

// The bytes of a slot that was read there.
fn slot_at(seen: &Seen, place: Option<usize>, j: u16) -> &[u8]
    requires { IfSome place (λ i. i < length seen.now) }
    ensures { (d : Looked) → result.now ≡ slice_index_or (read_slots seen.now place d) j [] }
{
    match place {
        Some(i) => seen.slot(i, j),
        None => &[],
    }
}

// The edit of a slot.
fn edit(alloc: Global, page: &Page, slot: u16) -> Result<Edit, NoMemory>
    ensures { IfOk result (λ e. e ≡ edit_of page.now slot) }
{
    let cells = page.cells.as_slice();
    let bytes = bytes_at(cells, usize::from(slot));
    Ok(Edit {
        spot: page.spot,
        slot,
        names: names_at(cells, usize::from(slot)),
        bytes: Bytes::from(Vec::from_slice(alloc, bytes)?),
        of_row: page.rows,
    })
}

// The edits of one round, put behind others.
fn add_round(
    alloc: Global,
    seen: &Seen,
    place: Option<usize>,
    page: &Page,
    grows: bool,
    edits: &mut EditList,
) -> Result<(), NoMemory>
    requires { IfSome place (λ i. i < length seen.now) }
    ensures edits { OnOk result ((d : Looked) → edits.new ≡ edits.old ++ dues grows page.now (read_slots seen.now place d) 0 (length (read_slots seen.now place d) + length page.now.cells)) }
    ensures fits { OnOk result ((d : Looked) → FitsPage (read_slots seen.now place d)) }
{
    let cells = page.cells.as_slice();
    let count = usize::from(slots_at(seen, place)) + cells.len();
    for i in 0..count as u16 {
        let bytes = bytes_at(cells, usize::from(i));
        let names = names_at(cells, usize::from(i));
        if !is_due(grows, slot_at(seen, place, i), names, bytes) {
            continue;
        }
        edits.push(edit(alloc, page, i)?)?;
    }
    Ok(())
}

// The edits of a page, put behind others.
fn add_page(
    alloc: Global,
    seen: &Seen,
    places: &BTreeMap<PageId, usize>,
    page: &Page,
    edits: &mut EditList,
) -> Result<(), NoMemory>
    requires { Indexes places.now seen.now }
    ensures edits { OnOk result (edits.new ≡ edits.old ++ page_edits page.now (old_of seen.now page.now.spot)) }
    ensures room { OnOk result ((fits_in 8096 page.now.cells ≡ true) × (ends_full page.now.cells ≡ true) × FitsPage (old_of seen.now page.now.spot)) }
{
    let at = read_at(places, seen, page.spot);
    add_round(alloc, seen, at, page, false, edits)?;
    add_round(alloc, seen, at, page, true, edits)
}

/// The edits that make drafted pages of what was read, page by page: one for each slot that differs, those that don't grow first.
/// What they do, whatever pages are claimed, `drafts_are_made` says.
pub fn edits_of(alloc: Global, seen: &Seen, pages: &[Page]) -> Result<EditList, NoMemory>
    ensures edits { IfOk result (λ edits. edits ≡ edits_in seen.now pages.now) }
    ensures room { IfOk result (λ edits. HaveRoom seen.now pages.now) }
{
    let places = page_index(alloc, seen)?;
    let mut edits = EditList::new(alloc);
    for page in pages {
        add_page(alloc, seen, &places, page, &mut edits)?;
    }
    Ok(edits)
}
