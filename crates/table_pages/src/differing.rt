//! The edits that lead from a page to another: those that don't grow their slots come first.

ghost use Rattle.std.specs.Prelude.{◌≡◌, ◌↔◌, ◌<◌, IsTrue, true, false, length, IfOk, OnOk};
ghost use Rattle.page_base.specs.declared.numbers.PageId.{PageId};
ghost use Rattle.page_fmt.specs.Content.{content, IsPage};
ghost use Rattle.page_fmt.specs.Edits.{slot_at};
ghost use Rattle.table_pages.specs.Drafting.{Adds, Differs};
ghost use Rattle.table_pages.specs.Passes.{IsPass};

use crate::{Edit, EditList};
use page_base::{Bytes, Image, NoMemory, PageId};
use page_fmt::{slot, slots};
use std::alloc::Global;

fn are_same(a: &[u8], b: &[u8]) -> bool
    ensures { IsTrue result ↔ (a.now ≡ b.now) }
{
    a == b
}

// Plans the edit of a slot that changes, in the pass of those that grow or in that of the others.
fn add_edit(
    alloc: Global,
    edits: &mut EditList,
    page: PageId,
    slot: u16,
    before: &[u8],
    after: &[u8],
    growing: bool,
) -> Result<(), NoMemory>
    ensures { OnOk result (Adds edits.old edits.new (record { page = page; slot = slot; bytes = after.now }) before.now growing) }
{
    if (before.len() < after.len()) != growing {
        return Ok(());
    }
    if are_same(after, before) {
        return Ok(());
    }
    let bytes = Bytes::from(Vec::from_slice(alloc, after)?);
    edits.push(Edit { page, slot, bytes })
}

// Plans the edits of one pass.
fn add_edits(
    alloc: Global,
    edits: &mut EditList,
    page: PageId,
    before: &Image,
    after: &Image,
    growing: bool,
) -> Result<(), NoMemory>
    requires before { IsPage before.now }
    requires after { IsPage after.now }
    ensures { OnOk result (IsPass page (content before.now) (content after.now) growing 1 edits.old → IsPass page (content before.now) (content after.now) growing 4096 edits.new) }
{
    let count = slots(before).max(slots(after)).max(1);
    for s in 1..count {
        add_edit(
            alloc,
            edits,
            page,
            s,
            slot(before, s),
            slot(after, s),
            growing,
        )?;
    }
    Ok(())
}

/// The edits that lead from a page to another: one for each slot that changes behind slot 0.
pub(crate) fn differences(
    alloc: Global,
    page: PageId,
    before: &Image,
    after: &Image,
) -> Result<EditList, NoMemory>
    requires before { IsPage before.now }
    requires after { IsPage after.now }
    ensures { IfOk result (λ edits. slot_at (content after.now) 0 ≡ slot_at (content before.now) 0 → Differs page (content before.now) (content after.now) edits) }
{
    let mut edits = EditList::new(alloc);
    add_edits(alloc, &mut edits, page, before, after, false)?;
    add_edits(alloc, &mut edits, page, before, after, true)?;
    Ok(edits)
}
