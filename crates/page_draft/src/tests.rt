//! A page that is there and one that will be claimed, and the edits that make them.

ghost use Rattle.std.specs.Prelude.{IfOk};
ghost use Rattle.page_fmt.specs.Content.{IsPage};

use crate::{Cell, Page, edits_of};
use page_base::{Bytes, Image, NoMemory, PageId};
use page_fmt::{Seen, check, put_slot};
use std::alloc::Global;
use std::test::Fail;
use table_walk::{EditList, Spot};

const THERE: PageId = PageId { file: 0, page: 7 };

// The cell of these bytes behind the address of a claimed page, where one is named.
fn cell(alloc: Global, names: Option<u32>, bytes: &[u8]) -> Result<Cell, NoMemory> {
    Ok(Cell {
        names,
        bytes: Bytes::from(Vec::from_slice(alloc, bytes)?),
    })
}

fn page(alloc: Global, slots: &[&[u8]]) -> Result<Image, Fail>
    ensures { IfOk result IsPage }
{
    let mut image = Image::blank(alloc)?;
    check(&image)?;
    for (i, bytes) in slots.iter().enumerate() {
        if i < 100 && !bytes.is_empty() && bytes.len() < 100 {
            put_slot(&mut image, i as u16, bytes)?;
        }
    }
    Ok(image)
}

// A page whose second slot is to name the claimed page, and the third to shrink; and the claimed page with one row.
fn drafts(alloc: Global) -> Result<Vec<Page>, Fail> {
    let mut there = Vec::new(alloc);
    there.push(cell(alloc, None, b"aa")?)?;
    there.push(cell(alloc, Some(0), b"k")?)?;
    there.push(cell(alloc, None, b"c")?)?;
    let mut new = Vec::new(alloc);
    new.push(cell(alloc, None, b"z")?)?;
    let mut pages = Vec::new(alloc);
    for (spot, rows, cells) in [(Spot::Old(THERE), false, there), (Spot::New(0), true, new)] {
        if let Some(page) = Page::new(spot, rows, cells) {
            pages.push(page)?;
        }
    }
    Ok(pages)
}

// Whether an edit is this one.
fn is(edits: &EditList, i: usize, spot: Spot, slot: u16, names: Option<u32>, bytes: &[u8]) -> bool {
    match edits.as_slice().get(i) {
        Some(edit) => {
            edit.spot == spot
                && edit.slot == slot
                && edit.names == names
                && edit.bytes.as_slice() == bytes
        }
        None => false,
    }
}

#[test]
fn drafts_are_edited(rt: HostRuntime) -> Result<(), Fail> {
    let alloc = rt.alloc();
    let mut seen = Seen::new(alloc)?;
    let image = page(alloc, &[b"aa", b"bbb", b"cc"])?;
    seen.add(alloc, THERE, &image)?;
    let pages = drafts(alloc)?;
    let edits = edits_of(alloc, &seen, pages.as_slice())?;
    assert_eq!(rt; edits.len(), 3);
    assert!(rt; is(&edits, 0, Spot::Old(THERE), 2, None, b"c"));
    assert!(rt; is(&edits, 1, Spot::Old(THERE), 1, Some(0), b"k"));
    assert!(rt; is(&edits, 2, Spot::New(0), 0, None, b"z"));
    Ok(())
}

#[test]
fn a_page_without_room_is_none(rt: HostRuntime) -> Result<(), Fail> {
    let alloc = rt.alloc();
    let mut long = Vec::new(alloc);
    long.push(cell(alloc, Some(0), &[1; 8089])?)?;
    assert!(rt; Page::new(Spot::New(0), false, long).is_some());
    let mut longer = Vec::new(alloc);
    longer.push(cell(alloc, Some(0), &[1; 8090])?)?;
    assert!(rt; Page::new(Spot::New(0), false, longer).is_none());
    let mut ends = Vec::new(alloc);
    ends.push(cell(alloc, None, b"")?)?;
    assert!(rt; Page::new(Spot::New(0), false, ends).is_none());
    Ok(())
}
