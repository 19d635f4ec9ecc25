//! Rows of tables worked out by hand, the first wrong row of others, and the next number.

use crate::{DescList, DescRefusal, TableDesc, descs, next_number, root, rows_of, zero_columns};
use page_base::{
    Bytes, ColType, Column, Columns, Name, NoMemory, PageId, Row, RowList, TableNo, Value,
};
use std::alloc::Global;
use std::test::Fail;

// A row of table 0: a letter for a name, an ordinal, a letter or 0 for no text, and three numbers.
type Line = (u8, i32, u8, [i32; 3]);

fn text(alloc: Global, letter: u8) -> Result<Value, NoMemory> {
    let mut bytes = Bytes::new(alloc);
    if letter != 0 {
        bytes.push(letter)?;
    }
    Ok(Value::Text(bytes))
}

fn row(alloc: Global, line: Line) -> Result<Row, NoMemory> {
    let (name, ord, letter, numbers) = line;
    let mut row = Row::new(alloc);
    row.push(text(alloc, name)?)?;
    row.push(Value::Int(ord))?;
    row.push(text(alloc, letter)?)?;
    row.push(Value::Int(numbers[0]))?;
    row.push(Value::Int(numbers[1]))?;
    row.push(Value::Int(numbers[2]))?;
    Ok(row)
}

fn rows(alloc: Global, lines: &[Line]) -> Result<RowList, NoMemory> {
    let mut rows = RowList::new(alloc);
    for line in lines {
        rows.push(row(alloc, *line)?)?;
    }
    Ok(rows)
}

// Two tables: the first has an INT key and a VARCHAR(8) that may be NULL, the second a BIGINT key.
const TWO: [Line; 5] = [
    (b'b', 0, 0, [2, 0, 9]),
    (b'b', 1, b'i', [1, 0, 2]),
    (b'b', 2, b't', [3, 8, 1]),
    (b's', 0, 0, [1, 1, 300]),
    (b's', 1, b'n', [2, 0, 2]),
];

fn books(alloc: Global) -> Result<TableDesc, Fail> {
    let mut cols = Columns::new(alloc);
    cols.push(Column {
        name: Name::read(b"i")?,
        kind: ColType::Int,
        nullable: false,
        key: 1,
    })?;
    cols.push(Column {
        name: Name::read(b"t")?,
        kind: ColType::Text { max: 8 },
        nullable: true,
        key: 0,
    })?;
    Ok(TableDesc {
        name: Name::read(b"b")?,
        number: TableNo(2),
        root: PageId { file: 0, page: 9 },
        cols,
    })
}

#[test]
fn table_0_has_six_columns(rt: HostRuntime) -> Result<(), Fail> {
    assert_eq!(rt; zero_columns(rt.alloc())?.len(), 6);
    assert_eq!(rt; root(), PageId { file: 0, page: 1 });
    Ok(())
}

#[test]
fn a_table_has_its_rows(rt: HostRuntime) -> Result<(), Fail> {
    let alloc = rt.alloc();
    let desc = books(alloc)?;
    assert!(rt; desc.number.0 < 100 && desc.root.page < 100 && desc.cols.len() < 100);
    let spelled = rows_of(alloc, &desc)?;
    assert_eq!(rt; spelled, rows(alloc, &TWO[..3])?);
    Ok(())
}

#[test]
fn rows_tell_of_tables(rt: HostRuntime) -> Result<(), Fail> {
    let alloc = rt.alloc();
    let given = rows(alloc, &TWO)?;
    assert!(rt; given.len() < 100);
    let read = descs(alloc, &given)?;
    assert_eq!(rt; read.len(), 2);
    assert_eq!(rt; read.at(0).cols, books(alloc)?.cols);
    assert_eq!(rt; read.at(1).name.bytes(), b"s".as_slice());
    assert_eq!(rt; read.at(1).root, PageId { file: 1, page: 300 });
    Ok(())
}

// The next number behind tables with these numbers.
fn next(alloc: Global, numbers: &[u8]) -> Result<u32, Fail> {
    let mut descs = DescList::new(alloc);
    for number in numbers {
        descs.push(TableDesc {
            name: Name::read(b"t")?,
            number: TableNo(u32::from(*number)),
            root: PageId { file: 0, page: 0 },
            cols: Columns::new(alloc),
        })?;
    }
    Ok(next_number(&descs).0)
}

#[test]
fn the_least_free_number_comes_next(rt: HostRuntime) -> Result<(), Fail> {
    for (numbers, number) in [
        ([].as_slice(), 1),
        (&[1, 2], 3),
        (&[2, 3], 1),
        (&[4, 1, 3], 2),
    ] {
        assert_eq!(rt; next(rt.alloc(), numbers)?, number);
    }
    Ok(())
}

fn place(alloc: Global, lines: &[Line]) -> Result<Option<u32>, NoMemory> {
    let rows = rows(alloc, lines)?;
    if rows.len() >= 100 {
        return Ok(None);
    }
    match descs(alloc, &rows) {
        Ok(_) => Ok(None),
        Err(DescRefusal::Form { row }) => Ok(Some(row)),
        Err(DescRefusal::Memory) => Err(NoMemory),
    }
}

#[test]
fn the_first_wrong_row_is_named(rt: HostRuntime) -> Result<(), Fail> {
    let table: Line = (b't', 0, 0, [1, 0, 2]);
    let key: Line = (b't', 1, b'k', [1, 0, 2]);
    for (lines, at) in [
        ([table, key].as_slice(), None),
        (&[], None),
        (&[table], Some(1)),
        (&[key], Some(0)),
        (&[table, (b't', 2, b'k', [1, 0, 2])], Some(1)),
        (&[table, (b'u', 1, b'k', [1, 0, 2])], Some(1)),
        (&[table, (b't', 1, b'k', [3, 0, 2])], Some(1)),
        (&[table, (b't', 1, b'k', [1, 0, 3])], Some(1)),
        (&[table, (b't', 1, b'k', [1, 0, 1])], Some(2)),
        (&[table, key, (b't', 2, b'k', [1, 0, 0])], Some(2)),
        (&[table, key, (b'u', 0, 0, [1, 0, 3])], Some(2)),
        (&[table, key, (b's', 0, 0, [2, 0, 3])], Some(2)),
        (&[(b't', 0, 0, [0, 0, 2]), key], Some(0)),
        (&[(b'T', 0, 0, [1, 0, 2]), key], Some(0)),
    ] {
        assert_eq!(rt; place(rt.alloc(), lines)?, at, "of {lines:?}");
    }
    Ok(())
}
