//! A small heap page by page: what is read next, its rows, and damaged slots.

ghost use Rattle.std.specs.Prelude.{IfOk};
ghost use Rattle.page_fmt.specs.Content.{IsPage};

use crate::{rows, wants};
use page_base::{ColType, Column, Columns, Image, Name, NoMemory, PageId, Row, RowList, Value};
use page_fmt::{Seen, check, put_slot};
use std::alloc::Global;
use std::process::Abort;
use std::test::Fail;
use table_walk::{Find, SeenRefusal, Wants};

const ROOT: PageId = PageId { file: 0, page: 7 };

const LEAF: PageId = PageId { file: 1, page: 300 };

// The slots of the root page: no next root, and the leaf.
const ROOT_SLOTS: [&[u8]; 2] = [b"\0\0\0\0\0", b"\x01\x2c\x01\0\0"];

// The slots of the leaf: the rows of the keys 2 and 1, in this order.
const LEAF_SLOTS: [&[u8]; 2] = [b"\0\x02\0\0\0\x14\0\0\0", b"\0\x01\0\0\0\x0a\0\0\0"];

fn page(alloc: Global, slots: &[&[u8]]) -> Result<Image, Fail>
    ensures { IfOk result IsPage }
{
    let mut image = Image::blank(alloc)?;
    check(&image)?;
    for (i, bytes) in slots.iter().enumerate() {
        if i < 100 && !bytes.is_empty() && bytes.len() < 100 {
            put_slot(&mut image, i as u16, bytes)?;
        }
    }
    Ok(image)
}

// A key and another INT, none NULL.
fn columns(alloc: Global) -> Result<Columns, Fail> {
    let mut columns = Columns::new(alloc);
    for (name, key) in [(b"k".as_slice(), 1), (b"v", 0)] {
        columns.push(Column {
            name: Name::read(name)?,
            kind: ColType::Int,
            nullable: false,
            key,
        })?;
    }
    Ok(columns)
}

fn ints(alloc: Global, numbers: &[i32]) -> Result<Row, NoMemory> {
    let mut row = Row::new(alloc);
    for number in numbers {
        row.push(Value::Int(*number))?;
    }
    Ok(row)
}

// The page that is read next, and whether it holds rows.
fn next_page(
    alloc: Global,
    cols: &Columns,
    seen: &Seen,
) -> Result<Option<(PageId, bool)>, SeenRefusal> {
    match wants(alloc, ROOT, cols, &Find::All, seen)? {
        Wants::Page { page, rows } => Ok(Some((page, rows))),
        Wants::Done => Ok(None),
    }
}

// The small heap, read page by page.
fn small_heap(rt: &impl Abort, alloc: Global, cols: &Columns) -> Result<Seen, Fail> {
    let mut seen = Seen::new(alloc)?;
    for (id, slots, rows) in [(ROOT, ROOT_SLOTS, false), (LEAF, LEAF_SLOTS, true)] {
        assert_eq!(rt; next_page(alloc, cols, &seen)?, Some((id, rows)));
        seen.add(alloc, id, &page(alloc, &slots)?)?;
    }
    Ok(seen)
}

#[test]
fn a_small_heap_is_read(rt: HostRuntime) -> Result<(), Fail> {
    let alloc = rt.alloc();
    let cols = columns(alloc)?;
    let seen = small_heap(&rt, alloc, &cols)?;
    let found = all_rows(alloc, &cols, &Find::All, &seen)?;
    assert_eq!(rt; found.len(), 2);
    assert_eq!(rt;
        found.at(0).as_slice(),
        [Value::Int(1), Value::Int(10)].as_slice()
    );
    let mut keys = RowList::new(alloc);
    keys.push(ints(alloc, &[2])?)?;
    keys.push(ints(alloc, &[3])?)?;
    let found = all_rows(alloc, &cols, &Find::Keys(keys), &seen)?;
    assert_eq!(rt; found.len(), 1);
    Ok(())
}

#[test]
fn damaged_roots_are_named(rt: HostRuntime) -> Result<(), Fail> {
    let alloc = rt.alloc();
    let cols = columns(alloc)?;
    for (slots, slot) in [
        ([].as_slice(), 0),
        (&[b"\0\0\0\0".as_slice()], 0),
        (&[b"\x01\x2c\x01\0\0"], 0),
        (&[b"\0\0\0\0\0", b"\0\0\0\0\0"], 1),
        (&[b"\0\0\0\0\0", b"\0\x07\0\0\0"], 1),
        (&[b"\0\0\0\0\0", b"\x01\x01\0\0\0", b"\x01\x01"], 2),
    ] {
        let mut seen = Seen::new(alloc)?;
        seen.add(alloc, ROOT, &page(alloc, slots)?)?;
        let refused = wants(alloc, ROOT, &cols, &Find::All, &seen);
        assert_eq!(rt; refused, Err(SeenRefusal::Damaged { page: ROOT, slot }));
    }
    Ok(())
}

// The rows, where all pages were read.
fn all_rows(
    alloc: Global,
    cols: &Columns,
    find: &Find,
    seen: &Seen,
) -> Result<RowList, SeenRefusal> {
    match wants(alloc, ROOT, cols, find, seen)? {
        Wants::Page { page, rows: _ } => Err(SeenRefusal::Damaged { page, slot: 0 }),
        Wants::Done => rows(alloc, ROOT, cols, find, seen),
    }
}
