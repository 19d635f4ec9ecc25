//! The worked rows byte for byte, the places of wrong fields, and the longest row.

ghost use Rattle.std.specs.Prelude.{◌<◌, length};
ghost use Rattle.row_fmt.specs.Rows.{FitsColumns};
ghost use Rattle.row_fmt.specs.Answers.{GivesRow};

use crate::{RowRefusal, decode, encode, key_size, size};
use page_base::{Bytes, ColType, Column, Columns, Name, NoMemory, Row, Value};
use std::alloc::Global;
use std::test::Fail;

fn columns_of(alloc: Global, kinds: &[(ColType, bool, u8)]) -> Result<Columns, Fail> {
    let name = Name::read(b"c")?;
    let mut columns = Columns::new(alloc);
    for (kind, nullable, key) in kinds {
        columns.push(Column {
            name,
            kind: *kind,
            nullable: *nullable,
            key: *key,
        })?;
    }
    Ok(columns)
}

fn text(alloc: Global, bytes: &[u8]) -> Result<Value, NoMemory> {
    Ok(Value::Text(Bytes::from(Vec::from_slice(alloc, bytes)?)))
}

// A row of a key, a text of at most three bytes and a BIGINT, of which the last two may be NULL.
const THREE: [(ColType, bool, u8); 3] = [
    (ColType::Int, false, 1),
    (ColType::Text { max: 3 }, true, 0),
    (ColType::Big, true, 0),
];

// Two INTs, none NULL.
const TWO: [(ColType, bool, u8); 2] = [(ColType::Int, false, 1), (ColType::Int, false, 0)];

// The same row, spelled and read: the clauses of both calls say that it is.
fn round_trip(alloc: Global, row: &Row, columns: &Columns) -> Result<Row, RowRefusal>
    requires { FitsColumns columns.now row.now }
    ensures { GivesRow row.now result }
{
    let Ok(bytes) = encode(alloc, row, columns) else {
        return Err(RowRefusal::Memory);
    };
    if bytes.len() >= 4_294_967_295 {
        return Err(RowRefusal::Memory);
    }
    decode(alloc, bytes.as_slice(), columns)
}

// The row of the bytes, and its bytes once more.
fn respelled(alloc: Global, bytes: &[u8], columns: &Columns) -> Result<(Row, Bytes), Fail>
    requires { length bytes.now < 100 }
{
    let row = decode(alloc, bytes, columns)?;
    let again = encode(alloc, &row, columns)?;
    let row = round_trip(alloc, &row, columns)?;
    Ok((row, again))
}

#[test]
fn rows_are_read_and_written(rt: HostRuntime) -> Result<(), Fail> {
    let alloc = rt.alloc();
    let columns = columns_of(alloc, &TWO)?;
    let rows = [
        ([0, 1, 0, 0, 0, 10, 0, 0, 0], 1, 10),
        ([0, 2, 0, 0, 0, 20, 0, 0, 0], 2, 20),
        ([0, 3, 0, 0, 0, 30, 0, 0, 0], 3, 30),
        ([0, 0xff, 0xff, 0xff, 0xff, 0, 0, 0, 0x80], -1, i32::MIN),
    ];
    for (bytes, key, number) in rows {
        let (row, again) = respelled(alloc, &bytes, &columns)?;
        assert_eq!(rt;
            row.as_slice(),
            [Value::Int(key), Value::Int(number)].as_slice()
        );
        assert_eq!(rt; again.as_slice(), bytes.as_slice());
    }
    Ok(())
}

// Where bytes are refused, or none.
fn place(alloc: Global, bytes: &[u8], columns: &Columns) -> Option<u32>
    requires { length bytes.now < 100 }
{
    match decode(alloc, bytes, columns) {
        Ok(_) => None,
        Err(RowRefusal::Form { at }) => Some(at),
        Err(RowRefusal::Memory) => Some(u32::MAX),
    }
}

#[test]
fn wrong_fields_have_places(rt: HostRuntime) -> Result<(), Fail> {
    let alloc = rt.alloc();
    let two = columns_of(alloc, &TWO)?;
    let three = columns_of(alloc, &THREE)?;
    for (bytes, columns, at) in [
        ([0, 1, 0, 0, 0].as_slice(), &two, Some(5)),
        (&[0, 1, 0, 0, 0, 10, 0, 0, 0, 7], &two, Some(9)),
        (&[0, 1, 0, 0, 0, 10, 0, 0], &two, Some(5)),
        (&[0, 1, 0, 0], &two, Some(1)),
        (&[], &two, Some(0)),
        (&[2, 1, 0, 0, 0], &two, Some(0)),
        (&[4, 1, 0, 0, 0, 10, 0, 0, 0], &two, Some(0)),
        (&[6, 1, 0, 0, 0], &three, None),
        (&[6, 1, 0, 0, 0, 0], &three, Some(5)),
        (&[4, 1, 0, 0, 0, 3, 0, b'a', b'~', b' '], &three, None),
        (
            &[4, 1, 0, 0, 0, 4, 0, b'a', b'b', b'c', b'd'],
            &three,
            Some(5),
        ),
        (&[4, 1, 0, 0, 0, 2, 0, b'a'], &three, Some(5)),
        (&[4, 1, 0, 0, 0, 1, 0, 31], &three, Some(5)),
        (&[4, 1, 0, 0, 0, 1, 0, 127], &three, Some(5)),
        (&[0, 1, 0, 0, 0, 0, 0, 9, 9, 9, 9, 9, 9, 9], &three, Some(7)),
        (
            &[8, 1, 0, 0, 0, 0, 0, 9, 9, 9, 9, 9, 9, 9, 9],
            &three,
            Some(0),
        ),
    ] {
        assert!(rt; bytes.len() < 100);
        assert_eq!(rt; place(alloc, bytes, columns), at, "{bytes:?}");
    }
    Ok(())
}

// Nine columns have two bytes for NULLs; a column of the second byte is NULL.
#[test]
fn nulls_have_bits(rt: HostRuntime) -> Result<(), Fail> {
    let alloc = rt.alloc();
    let nine = columns_of(alloc, &[(ColType::Text { max: 1 }, true, 0); 9])?;
    let bytes = [0xfd, 1, 1, 0, b'x'];
    let (row, again) = respelled(alloc, &bytes, &nine)?;
    assert_eq!(rt; again.as_slice(), bytes.as_slice());
    assert_eq!(rt; row.len(), 9);
    for (i, value) in row.as_slice().iter().enumerate() {
        assert_eq!(rt; matches!(value, Value::Null), i != 1);
    }
    assert_eq!(rt; place(alloc, &[0xff], &nine), Some(1));
    assert_eq!(rt; place(alloc, &[0xff, 2], &nine), Some(1));
    Ok(())
}

#[test]
fn the_longest_row(rt: HostRuntime) -> Result<(), Fail> {
    let alloc = rt.alloc();
    let columns = columns_of(
        alloc,
        &[
            (ColType::Text { max: 8_000 }, false, 2),
            (ColType::Int, false, 1),
            (ColType::Text { max: 100 }, true, 0),
        ],
    )?;
    let mut row = Row::new(alloc);
    row.push(text(alloc, &[b'x'; 8_000])?)?;
    row.push(Value::Int(7))?;
    row.push(text(alloc, &[b'y'; 51])?)?;
    assert_eq!(rt; row.len(), columns.len());
    assert_eq!(rt; size(&row, &columns), 8_060);
    assert_eq!(rt; key_size(&row, &columns), 8_006);
    Ok(())
}
