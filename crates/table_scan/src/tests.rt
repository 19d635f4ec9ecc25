//! A small heap that is read page by page, and a leaf that is named twice.

ghost use Rattle.std.specs.Prelude.{IfOk};
ghost use Rattle.page_fmt.specs.Content.{IsPage};

use crate::Scan;
use page_base::{Image, PageId};
use page_fmt::{check, put_slot};
use std::alloc::Global;
use std::process::Abort;
use std::test::Fail;
use table_walk::SeenRefusal;

const ROOT: PageId = PageId { file: 0, page: 7 };

// The slots of the root page: no next root, and two leaves.
const ROOT_SLOTS: [&[u8]; 3] = [b"\0\0\0\0\0", b"\x01\x2c\x01\0\0", b"\0\x09\0\0\0"];

// The same leaf twice.
const TWICE: [&[u8]; 3] = [b"\0\0\0\0\0", b"\x01\x2c\x01\0\0", b"\x01\x2c\x01\0\0"];

fn page(alloc: Global, slots: &[&[u8]]) -> Result<Image, Fail>
    ensures { IfOk result IsPage }
{
    let mut image = Image::blank(alloc)?;
    check(&image)?;
    for (i, bytes) in slots.iter().enumerate() {
        if i < 100 && !bytes.is_empty() && bytes.len() < 100 {
            put_slot(&mut image, i as u16, bytes)?;
        }
    }
    Ok(image)
}

// The page that comes next is this one.
fn comes(rt: &impl Abort, scan: &Scan, page: PageId, is_root: bool) {
    let next = scan
        .next()
        .map(|visit| (visit.page, visit.level == Some(1)));
    assert_eq!(rt; next, Some((page, is_root)));
}

#[test]
fn a_heap_is_read(rt: HostRuntime) -> Result<(), Fail> {
    let alloc = rt.alloc();
    let mut scan = Scan::new(alloc, ROOT)?;
    let pages = [
        (ROOT, true, ROOT_SLOTS.as_slice()),
        (PageId { file: 1, page: 300 }, false, &[]),
        (PageId { file: 0, page: 9 }, false, &[]),
    ];
    for (id, is_root, slots) in pages {
        comes(&rt, &scan, id, is_root);
        if scan.next().is_none() {
            return Ok(());
        }
        scan = scan.read(alloc, &page(alloc, slots)?)?;
    }
    assert!(rt; scan.next().is_none());
    assert_eq!(rt; scan.seen().len(), 3);
    Ok(())
}

#[test]
fn a_leaf_is_named_twice(rt: HostRuntime) -> Result<(), Fail> {
    let alloc = rt.alloc();
    let scan = Scan::new(alloc, ROOT)?.read(alloc, &page(alloc, &TWICE)?)?;
    if scan.next().is_none() {
        return Ok(());
    }
    match scan.read(alloc, &page(alloc, &[])?) {
        Err(refused) => assert_eq!(rt;
            refused,
            SeenRefusal::Damaged {
                page: ROOT,
                slot: 2
            }
        ),
        Ok(_) => assert!(rt; false),
    }
    Ok(())
}
