//! Plans of heaps that are carried out on pages in memory: how many pages they claim, and the rows that are there then.

ghost use Rattle.std.specs.Prelude.{◌≡◌, IfOk, List};
ghost use Rattle.page_fmt.specs.Content.{IsPage};

use crate::{may_put, plan, rows, wants};
use page_base::{
    Bytes, ColType, Column, Columns, Image, Name, NoMemory, PageId, Row, RowList, Value,
};
use page_fmt::{Seen, check, edit};
use row_fmt::{encode, fits};
use std::alloc::Global;
use std::test::Fail;
use table_walk::{Edit, Find, Plan, SeenRefusal, Spot, Wants, address};

const ROOT: PageId = PageId { file: 0, page: 7 };

// A page and its image.
#[derive(Drop)]
struct Page {
    id: PageId,
    image: Image,
}

// The page that a plan claims as number `i`, where so many were claimed before.
fn claimed(before: u32, i: u32) -> PageId {
    PageId {
        file: 1,
        page: before.saturating_add(i).saturating_add(1),
    }
}

// The bytes that an edit writes.
fn bytes_of(alloc: Global, before: u32, edit: &Edit) -> Result<Vec<u8>, NoMemory> {
    let mut bytes = Vec::new(alloc);
    if let Some(i) = edit.names {
        bytes.extend_from_slice(&address(claimed(before, i)))?;
    }
    bytes.extend_from_slice(edit.bytes.as_slice())?;
    Ok(bytes)
}

// Whether an edit was done.
fn write(image: &mut Image, slot: u16, bytes: &[u8]) -> bool {
    check(image).is_ok() && slot < 4048 && bytes.len() <= 8094 && edit(image, slot, bytes).is_ok()
}

// The place of a page among the root page and those that were claimed.
fn place(before: u32, spot: Spot) -> usize {
    match spot {
        Spot::Old(page) if page == ROOT => 0,
        Spot::Old(page) => page.page as usize,
        Spot::New(i) => claimed(before, i).page as usize,
    }
}

// Blank pages behind those that are there.
fn claim(alloc: Global, before: u32, count: u32, pages: &mut Vec<Page>) -> Result<(), NoMemory> {
    for i in 0..count {
        pages.push(Page {
            id: claimed(before, i),
            image: Image::blank(alloc)?,
        })?;
    }
    Ok(())
}

// Carries a plan out; false where an edit can't be done.
fn carry(alloc: Global, before: u32, plan: &Plan, pages: &mut Vec<Page>) -> Result<bool, NoMemory> {
    claim(alloc, before, plan.new_pages, pages)?;
    for edit in plan.edits.as_slice() {
        let bytes = bytes_of(alloc, before, edit)?;
        let i = place(before, edit.spot);
        if i >= pages.len() || !write(&mut pages[i].image, edit.slot, bytes.as_slice()) {
            return Ok(false);
        }
    }
    Ok(true)
}

// All pages, read; none where one is damaged.
fn read(alloc: Global, pages: &[Page]) -> Result<Option<Seen>, NoMemory> {
    let mut seen = Seen::new(alloc)?;
    for page in pages {
        if check(&page.image).is_err() {
            return Ok(None);
        }
        seen.add(alloc, page.id, &page.image)?;
    }
    Ok(Some(seen))
}

// A key, and a text.
fn columns(alloc: Global) -> Result<Columns, Fail> {
    let mut columns = Columns::new(alloc);
    columns.push(Column {
        name: Name::read(b"k")?,
        kind: ColType::Int,
        nullable: false,
        key: 1,
    })?;
    columns.push(Column {
        name: Name::read(b"v")?,
        kind: ColType::Text { max: 8100 },
        nullable: false,
        key: 0,
    })?;
    Ok(columns)
}

fn row(alloc: Global, key: i32, length: usize) -> Result<Row, NoMemory> {
    let mut text = Vec::new(alloc);
    for _ in 0..length {
        text.push(b'a')?;
    }
    let mut row = Row::new(alloc);
    row.push(Value::Int(key))?;
    row.push(Value::Text(Bytes::from(text)))?;
    Ok(row)
}

// The rows of the heap; none where its pages are no heap.
fn all_rows(alloc: Global, cols: &Columns, pages: &[Page]) -> Result<Option<RowList>, SeenRefusal> {
    let Some(seen) = read(alloc, pages)? else {
        return Ok(None);
    };
    match wants(alloc, ROOT, cols, &Find::All, &seen)? {
        Wants::Page { page: _, rows: _ } => Ok(None),
        Wants::Done => Ok(Some(rows(alloc, ROOT, cols, &Find::All, &seen)?)),
    }
}

// A plan over these pages; none where they are no heap, or where the rows may not be put.
fn planned(
    alloc: Global,
    cols: &Columns,
    put: &RowList,
    pages: &[Page],
) -> Result<Option<Plan>, SeenRefusal> {
    let Some(seen) = read(alloc, pages)? else {
        return Ok(None);
    };
    if !may_put(alloc, cols, put)? {
        return Ok(None);
    }
    match wants(alloc, ROOT, cols, &Find::All, &seen)? {
        Wants::Page { page: _, rows: _ } => Ok(None),
        Wants::Done => Ok(Some(plan(alloc, ROOT, cols, &RowList::new(alloc), put, &seen)?)),
    }
}

fn new_heap(alloc: Global) -> Result<Vec<Page>, NoMemory> {
    let mut image = Image::blank(alloc)?;
    write(&mut image, 0, &[0, 0, 0, 0, 0]);
    let mut pages = Vec::new(alloc);
    pages.push(Page { id: ROOT, image })?;
    Ok(pages)
}

// Puts one row; how many pages were claimed, none where the plan wasn't carried out.
fn put_one(
    alloc: Global,
    cols: &Columns,
    before: u32,
    row: Row,
    pages: &mut Vec<Page>,
) -> Result<Option<u32>, SeenRefusal> {
    let mut put = RowList::new(alloc);
    put.push(row)?;
    let Some(plan) = planned(alloc, cols, &put, pages.as_slice())? else {
        return Ok(None);
    };
    if !carry(alloc, before, &plan, pages)? {
        return Ok(None);
    }
    Ok(Some(plan.new_pages))
}

// How many rows there are, none where the pages are no heap.
fn count(alloc: Global, cols: &Columns, pages: &[Page]) -> Result<Option<usize>, SeenRefusal> {
    match all_rows(alloc, cols, pages)? {
        Some(rows) => Ok(Some(rows.len())),
        None => Ok(None),
    }
}

#[test]
fn a_row_that_grows_leaves_its_leaf(rt: HostRuntime) -> Result<(), Fail> {
    let alloc = rt.alloc();
    let cols = columns(alloc)?;
    let mut pages = new_heap(alloc)?;
    for (before, key, length, claims, rows) in [
        (0, 1, 4000, 1, 1),
        (1, 2, 4000, 0, 2),
        (1, 1, 5000, 1, 2),
        (2, 1, 8053, 0, 2),
        (2, 3, 4000, 0, 3),
        (2, 4, 8053, 1, 4),
    ] {
        let row = row(alloc, key, length)?;
        assert_eq!(rt;
            put_one(alloc, &cols, before, row, &mut pages)?,
            Some(claims)
        );
        assert_eq!(rt; count(alloc, &cols, pages.as_slice())?, Some(rows));
    }
    Ok(())
}

// A root page that names the pages 1 to 999, each a leaf of one short row.
fn heap_of_999(alloc: Global, cols: &Columns) -> Result<Vec<Page>, NoMemory> {
    let mut pages = new_heap(alloc)?;
    for i in 0..999u16 {
        let mut image = Image::blank(alloc)?;
        let bytes = encoded(alloc, cols, &row(alloc, i32::from(i), 100)?)?;
        write(&mut image, 0, bytes.as_slice());
        let id = claimed(0, u32::from(i));
        pages.push(Page { id, image })?;
        if !pages.is_empty() {
            write(&mut pages[0].image, i + 1, &address(id));
        }
    }
    Ok(pages)
}

fn encoded(alloc: Global, cols: &Columns, row: &Row) -> Result<Bytes, NoMemory> {
    if fits(row, cols) {
        encode(alloc, row, cols)
    } else {
        Ok(Bytes::new(alloc))
    }
}

// The leaf and its root page, and then the leaf, the new root page, and slot 0 of the old one.
const SPOTS: [(Spot, u16, Option<u32>); 6] = [
    (Spot::New(0), 0, None),
    (Spot::Old(ROOT), 0, Some(2)),
    (Spot::Old(ROOT), 1000, Some(0)),
    (Spot::New(1), 0, None),
    (Spot::New(2), 0, None),
    (Spot::New(2), 1, Some(1)),
];

// Which slots a plan edits, and which claimed pages it names there.
fn spots(alloc: Global, plan: &Plan) -> Result<Vec<(Spot, u16, Option<u32>)>, NoMemory> {
    let mut spots = Vec::new(alloc);
    for edit in plan.edits.as_slice() {
        spots.push((edit.spot, edit.slot, edit.names))?;
    }
    Ok(spots)
}

// The plan that puts two rows, each of which takes a leaf.
fn two_leaves(alloc: Global, cols: &Columns, pages: &[Page]) -> Result<Option<Plan>, SeenRefusal> {
    let mut put = RowList::new(alloc);
    put.push(row(alloc, 2000, 8053)?)?;
    put.push(row(alloc, 2001, 8053)?)?;
    planned(alloc, cols, &put, pages)
}

#[test]
fn leaf_1001_brings_a_root_page(rt: HostRuntime) -> Result<(), Fail> {
    let alloc = rt.alloc();
    let cols = columns(alloc)?;
    let mut pages = heap_of_999(alloc, &cols)?;
    let Some(plan) = two_leaves(alloc, &cols, pages.as_slice())? else {
        return Err("no plan".into());
    };
    assert_eq!(rt; spots(alloc, &plan)?.as_slice(), SPOTS.as_slice());
    assert_eq!(rt; carry(alloc, 999, &plan, &mut pages)?, true);
    assert_eq!(rt; count(alloc, &cols, pages.as_slice())?, Some(1001));
    Ok(())
}
