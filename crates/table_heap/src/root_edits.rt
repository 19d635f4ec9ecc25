//! The edits of root pages that are to name more.

ghost use Rattle.std.specs.Prelude.{ℕ, List, [], ◌∷◌, ◌++◌, ◌≡◌, ◌≤◌, ◌<◌, ◌+◌, false, None, Some, OnOk, length, max};
ghost use Rattle.table_heap.specs.Growth.{slots_made, front_edits, name_edits, root_edits};

use crate::growing::RootPage;
use page_base::{Bytes, NoMemory};
use std::alloc::Global;
use table_walk::{Edit, EditList, Spot};

// The edit of a slot that names a claimed page.
fn naming(alloc: Global, spot: Spot, slot: u16, claim: u32) -> Edit
    ensures { result ≡ record { spot = spot; slot = slot; names = Some claim; bytes = []; of_row = false } }
{
    Edit {
        spot,
        slot,
        names: Some(claim),
        bytes: Bytes::new(alloc),
        of_row: false,
    }
}

// The edit of slot 0 of a claimed page that no other follows.
fn add_none(alloc: Global, spot: Spot, slots: usize, edits: &mut EditList) -> Result<(), NoMemory>
    ensures { OnOk result (edits.new ≡ edits.old ++ front_edits spot slots None) }
{
    if slots != 0 {
        return Ok(());
    }
    let bytes = Bytes::from(Vec::from_slice(alloc, &[0, 0, 0, 0, 0])?);
    edits.push(Edit {
        spot,
        slot: 0,
        names: None,
        bytes,
        of_row: false,
    })
}

// The edit of a root page's slot 0, where it changes.
fn add_front(alloc: Global, page: &RootPage, edits: &mut EditList) -> Result<(), NoMemory>
    ensures { OnOk result (edits.new ≡ edits.old ++ front_edits page.now.spot page.now.slots page.now.next) }
{
    match page.next {
        Some(next) => edits.push(naming(alloc, page.spot, 0, next)),
        None => add_none(alloc, page.spot, page.slots, edits),
    }
}

// The edits that name leaves in slots from one on.
fn add_names(
    alloc: Global,
    spot: Spot,
    first: usize,
    names: &[u32],
    edits: &mut EditList,
) -> Result<(), NoMemory>
    requires { first + length names.now ≤ 1001 }
    ensures { OnOk result (edits.new ≡ edits.old ++ name_edits spot first names.now) }
{
    for (i, claim) in names.iter().enumerate() {
        edits.push(naming(alloc, spot, (first + i) as u16, *claim))?;
    }
    Ok(())
}

/// Puts behind others the edits of a root page.
pub(crate) fn add_root(alloc: Global, page: &RootPage, edits: &mut EditList) -> Result<(), NoMemory>
    requires { slots_made page.now ≤ 1001 }
    ensures { OnOk result (edits.new ≡ edits.old ++ root_edits page.now) }
{
    add_front(alloc, page, edits)?;
    let first = page.slots.max(1);
    add_names(alloc, page.spot, first, page.names.as_slice(), edits)
}
