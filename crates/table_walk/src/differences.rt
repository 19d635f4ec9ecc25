//! The edits that make one page of rows of another.

ghost use Rattle.std.specs.Prelude.{◌≡◌, ◌++◌, ◌<◌, ◌+◌, [], OnOk, map, length, slice_index_or};
ghost use Rattle.page_fmt.specs.Spelling.{FitsPage};
ghost use Rattle.table_walk.specs.Differences.{AddsPage, is_wanted, changes_at, edit_at};

use crate::plan::{Edit, EditList, Spot};
use page_base::{Bytes, NoMemory};
use std::alloc::Global;

// The bytes of a slot, none past the last one.
fn slot_at(slots: &[Bytes], i: usize) -> &[u8]
    ensures { result.now ≡ slice_index_or slots.now i [] }
{
    match slots.get(i) {
        Some(bytes) => bytes.as_slice(),
        None => &[],
    }
}

// Whether a slot changes, and grows or doesn't.
fn is_wanted(grows: bool, old: &[u8], new: &[u8]) -> bool
    ensures { result ≡ is_wanted grows old.now new.now }
{
    if old == new {
        return false;
    }
    if old.len() < new.len() { grows } else { !grows }
}

// The edits of one kind, put behind others.
fn add_changes(
    alloc: Global,
    spot: Spot,
    grows: bool,
    old: &[Bytes],
    new: &[Bytes],
    edits: &mut EditList,
) -> Result<(), NoMemory>
    requires { length old.now + length new.now < 65536 }
    ensures { OnOk result (edits.new ≡ edits.old ++ map (edit_at spot) (changes_at grows old.now new.now 0 (length old.now + length new.now))) }
{
    for i in 0..old.len() + new.len() {
        let bytes = slot_at(new, i);
        if !is_wanted(grows, slot_at(old, i), bytes) {
            continue;
        }
        edits.push(Edit {
            spot,
            slot: i as u16,
            names: None,
            bytes: Bytes::from(Vec::from_slice(alloc, bytes)?),
            of_row: true,
        })?;
    }
    Ok(())
}

/// Puts behind others the edits that make the new slots of a page of rows of the old ones: one for each slot that differs, those
/// that don't grow first.
pub fn add_differences(
    alloc: Global,
    spot: Spot,
    old: &[Bytes],
    new: &[Bytes],
    edits: &mut EditList,
) -> Result<(), NoMemory>
    requires old { FitsPage old.now }
    requires new { FitsPage new.now }
    ensures { OnOk result (AddsPage spot old.now new.now edits.old edits.new) }
{
    add_changes(alloc, spot, false, old, new, edits)?;
    add_changes(alloc, spot, true, old, new, edits)
}
