//! A small tree page by page: what is read next for all rows and for keys, its rows, and damaged slots.

ghost use Rattle.std.specs.Prelude.{IfOk};
ghost use Rattle.page_fmt.specs.Content.{IsPage};

use crate::{rows, wants};
use page_base::{ColType, Column, Columns, Image, Name, NoMemory, PageId, Row, RowList, Value};
use page_fmt::{Seen, check, put_slot};
use std::alloc::Global;
use std::process::Abort;
use std::test::Fail;
use table_walk::{Find, SeenRefusal, Wants};

const ROOT: PageId = PageId { file: 0, page: 7 };

const LOW: PageId = PageId { file: 1, page: 300 };

const HIGH: PageId = PageId { file: 1, page: 301 };

// The slots of the root: its level, the leaf of the keys from 3 on, and the leaf of those below.
const ROOT_SLOTS: [&[u8]; 3] = [
    b"\x01\0\0\0",
    b"\x01\x2d\x01\0\0\x03\0\0\0",
    b"\x01\x2c\x01\0\0",
];

// The slots of both leaves: the rows of the keys 2 and 1, and of the key 3.
const LOW_SLOTS: [&[u8]; 2] = [b"\0\x02\0\0\0\x14\0\0\0", b"\0\x01\0\0\0\x0a\0\0\0"];

const HIGH_SLOTS: [&[u8]; 2] = [b"", b"\0\x03\0\0\0\x1e\0\0\0"];

fn page(alloc: Global, slots: &[&[u8]]) -> Result<Image, Fail>
    ensures { IfOk result IsPage }
{
    let mut image = Image::blank(alloc)?;
    check(&image)?;
    for (i, bytes) in slots.iter().enumerate() {
        if i < 100 && !bytes.is_empty() && bytes.len() < 100 {
            put_slot(&mut image, i as u16, bytes)?;
        }
    }
    Ok(image)
}

// A key and another INT, none NULL.
fn columns(alloc: Global) -> Result<Columns, Fail> {
    let mut columns = Columns::new(alloc);
    for (name, key) in [(b"k".as_slice(), 1), (b"v", 0)] {
        columns.push(Column {
            name: Name::read(name)?,
            kind: ColType::Int,
            nullable: false,
            key,
        })?;
    }
    Ok(columns)
}

// Keys of one INT each.
fn keys(alloc: Global, numbers: &[i32]) -> Result<Find, NoMemory> {
    let mut keys = RowList::new(alloc);
    for number in numbers {
        let mut key = Row::new(alloc);
        key.push(Value::Int(*number))?;
        keys.push(key)?;
    }
    Ok(Find::Keys(keys))
}

// The page that is read next, and whether it holds rows.
fn next_page(
    alloc: Global,
    cols: &Columns,
    find: &Find,
    seen: &Seen,
) -> Result<Option<(PageId, bool)>, SeenRefusal> {
    match wants(alloc, ROOT, cols, find, seen)? {
        Wants::Page { page, rows } => Ok(Some((page, rows))),
        Wants::Done => Ok(None),
    }
}

// How many rows are asked for, where all pages for them were read.
fn count(alloc: Global, cols: &Columns, find: &Find, seen: &Seen) -> Result<usize, SeenRefusal> {
    match wants(alloc, ROOT, cols, find, seen)? {
        Wants::Page { page, rows: _ } => Err(SeenRefusal::Damaged { page, slot: 0 }),
        Wants::Done => Ok(rows(alloc, ROOT, cols, find, seen)?.len()),
    }
}

#[test]
fn a_small_tree_is_read(rt: HostRuntime) -> Result<(), Fail> {
    let alloc = rt.alloc();
    let cols = columns(alloc)?;
    let high = keys(alloc, &[3, 5])?;
    let both = keys(alloc, &[5, 2, 0])?;
    let mut seen = Seen::new(alloc)?;
    assert_eq!(rt; next_page(alloc, &cols, &high, &seen)?, Some((ROOT, false)));
    seen.add(alloc, ROOT, &page(alloc, &ROOT_SLOTS)?)?;
    assert_eq!(rt; next_page(alloc, &cols, &high, &seen)?, Some((HIGH, true)));
    assert_eq!(rt;
        next_page(alloc, &cols, &Find::All, &seen)?,
        Some((LOW, true))
    );
    seen.add(alloc, HIGH, &page(alloc, &HIGH_SLOTS)?)?;
    assert_eq!(rt; count(alloc, &cols, &high, &seen)?, 1);
    assert_eq!(rt; next_page(alloc, &cols, &both, &seen)?, Some((LOW, true)));
    seen.add(alloc, LOW, &page(alloc, &LOW_SLOTS)?)?;
    assert_eq!(rt; count(alloc, &cols, &both, &seen)?, 1);
    assert_eq!(rt; count(alloc, &cols, &Find::All, &seen)?, 3);
    Ok(())
}

#[test]
fn damaged_roots_are_named(rt: HostRuntime) -> Result<(), Fail> {
    let alloc = rt.alloc();
    let cols = columns(alloc)?;
    for (slots, slot) in [
        ([].as_slice(), 0),
        (&[b"\0\0\0\0".as_slice()], 0),
        (&[b"\x02\0\0\0"], 0),
        (&[b"\x01\0\0\0", b"\0\0\0\0\0"], 1),
        (&[b"\x01\0\0\0", b"", b"\x01\x2c\x01\0\0\x03\0\0"], 2),
        (&[b"\x01\0\0\0", b"\0\x07\0\0\0"], 1),
    ] {
        let mut seen = Seen::new(alloc)?;
        seen.add(alloc, ROOT, &page(alloc, slots)?)?;
        let refused = wants(alloc, ROOT, &cols, &Find::All, &seen);
        assert_eq!(rt; refused, Err(SeenRefusal::Damaged { page: ROOT, slot }));
    }
    Ok(())
}
