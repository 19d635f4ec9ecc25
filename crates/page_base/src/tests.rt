//! Names at their limits, and each call that takes memory once with enough of it.

use crate::{FileName, Image, ListOf, Name, NameRefusal, PAGE, PageId, Table, Value};
use std::test::Fail;

#[test]
fn names_are_read(rt: HostRuntime) -> Result<(), Fail> {
    let long = [b'a'; 128];
    let wanted = [
        (b"1a".as_slice(), None),
        (b"", None),
        (b"a-b", None),
        (b"_Shop_1", Some(b"_shop_1".as_slice())),
        (&[b'A'; 128], Some(&long)),
        (&[b'a'; 129], None),
    ];
    for (bytes, name) in wanted {
        match Name::read(bytes) {
            Ok(read) => assert_eq!(rt; Some(read.bytes()), name),
            Err(NameRefusal::Form) => assert_eq!(rt; None, name),
        }
    }
    Ok(())
}

#[test]
fn file_names_are_last_parts(rt: HostRuntime) -> Result<(), Fail> {
    let long = [b'a'; 128];
    let wanted = [
        (
            b"C:\\Data\\Shop-1.ss".as_slice(),
            Some(b"Shop-1.ss".as_slice()),
        ),
        (b"/var/db\\x/s1.ss", Some(b"s1.ss")),
        (b"1.dat", Some(b"1.dat")),
        (b"a/b/", None),
        (b"x/.hidden", None),
        (b"a b", None),
        (&[b'a'; 128], Some(&long)),
        (&[b'a'; 129], None),
    ];
    for (path, name) in wanted {
        match FileName::read(path) {
            Ok(read) => assert_eq!(rt; Some(read.bytes()), name),
            Err(NameRefusal::Form) => assert_eq!(rt; None, name),
        }
    }
    Ok(())
}

#[test]
fn memory_suffices(rt: HostRuntime) -> Result<(), Fail> {
    let mut list = ListOf::new(rt.alloc());
    list.push(3u32)?;
    list.insert(0, 2)?;
    assert_eq!(rt; list.copy(rt.alloc())?.as_slice(), [2, 3].as_slice());

    let mut text = ListOf::new(rt.alloc());
    text.push(b'x')?;
    match Value::Text(text).copy(rt.alloc())? {
        Value::Text(bytes) => assert_eq!(rt; bytes.as_slice(), b"x".as_slice()),
        _ => assert!(rt; false),
    }

    assert_eq!(rt; Image::blank(rt.alloc())?.bytes(), [0u8; PAGE].as_slice());

    let table = Table::filled(rt.alloc(), &[2, 0, 3], 7u8)?;
    assert_eq!(rt; (table.files(), table.pages(2), table.pages(3)), (3, 3, 0));
    assert!(rt; table.has(PageId { file: 2, page: 2 }) && !table.has(PageId { file: 1, page: 0 }));
    Ok(())
}
