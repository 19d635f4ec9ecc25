//! Headers byte for byte, and a page read that was written by hand.

ghost use Rattle.std.specs.Prelude.{◌≡◌, IfOk, length};
ghost use Rattle.page_fmt.specs.Content.{IsPage};

use crate::header::header;
use crate::{columns, read_table};
use page_base::{ColType, Column, Columns, Image, Name, NoMemory, Row, Value};
use page_fmt::{check, put_slot};
use std::alloc::Global;
use std::test::Fail;

fn name(bytes: &[u8]) -> Result<Name, &'static str> {
    Name::kept(bytes).ok_or("no name")
}

fn column(name: Name, kind: ColType, nullable: bool, key: u8) -> Column {
    Column {
        name,
        kind,
        nullable,
        key,
    }
}

fn ints(alloc: Global, numbers: &[i32]) -> Result<Row, NoMemory>
    ensures { IfOk result (λ row. length row ≡ length numbers.now) }
{
    let mut row = Row::new(alloc);
    for number in numbers {
        row.push(Value::Int(*number))?;
    }
    Ok(row)
}

#[test]
fn headers_are_spelled(rt: HostRuntime) -> Result<(), Fail> {
    let mut cols = Columns::new(rt.alloc());
    cols.push(column(name(b"id")?, ColType::Int, false, 1))?;
    cols.push(column(name(b"n")?, ColType::Big, true, 0))?;
    cols.push(column(name(b"s")?, ColType::Text { max: 300 }, false, 2))?;
    assert!(rt; cols.len() == 3);
    let wanted = b"\x03shp\x03\
        \x02id\x01\0\0\0\0\0\0\0\x02\0\0\0\
        \x01n\x02\0\0\0\0\0\0\0\x01\0\0\0\
        \x01s\x03\0\0\0\x2c\x01\0\0\x04\0\0\0";
    let bytes = header(rt.alloc(), &name(b"shp")?, cols.as_slice())?;
    assert_eq!(rt; bytes.as_slice(), wanted.as_slice());
    Ok(())
}

// A key `id` and a column `v`.
fn two_columns(alloc: Global) -> Result<Columns, Fail> {
    let mut cols = Columns::new(alloc);
    cols.push(column(name(b"id")?, ColType::Int, false, 1))?;
    cols.push(column(name(b"v")?, ColType::Int, false, 0))?;
    Ok(cols)
}

// A page of the table `shop`: the row of key 2 in slot 1, that of key 1 in slot 3.
fn shop_page(alloc: Global) -> Result<Image, Fail>
    ensures { IfOk result IsPage }
{
    let mut image = Image::blank(alloc)?;
    let front = b"\x04shop\x02\x02id\x01\0\0\0\0\0\0\0\x02\0\0\0\x01v\x01\0\0\0\0\0\0\0\0\0\0\0";
    check(&image)?;
    put_slot(&mut image, 0, front)?;
    put_slot(&mut image, 1, b"\0\x02\0\0\0\x14\0\0\0")?;
    put_slot(&mut image, 3, b"\0\x01\0\0\0\xf6\xff\xff\xff")?;
    Ok(image)
}

#[test]
fn tables_are_read(rt: HostRuntime) -> Result<(), Fail> {
    let image = shop_page(rt.alloc())?;
    assert_eq!(rt; columns(rt.alloc(), &image)?, two_columns(rt.alloc())?);
    let table = read_table(rt.alloc(), &image)?;
    assert!(rt; table.cols().len() == 2 && !table.is_empty());
    assert!(rt; table.has_key(&ints(rt.alloc(), &[2])?));
    assert!(rt; !table.has_key(&ints(rt.alloc(), &[20])?));
    let (_cols, rows) = table.into_parts(rt.alloc())?;
    assert_eq!(rt; rows.len(), 2);
    assert_eq!(rt; rows.at(0), &ints(rt.alloc(), &[1, -10])?);
    assert_eq!(rt; rows.at(1), &ints(rt.alloc(), &[2, 20])?);
    Ok(())
}
