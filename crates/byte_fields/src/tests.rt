//! A field of each kind byte for byte, and the places of wrong names.

use crate::{Reader, put_address, put_name, put_short, put_text, put_u16, put_u32, put_u64};
use page_base::{Name, PageId};
use std::test::Fail;

/// 258, 16,909,060, 1, page 258 of file 3, the texts `ab` and `c`, and the name `s1`.
const FIELDS: [u8; 28] = [
    2, 1, 4, 3, 2, 1, 1, 0, 0, 0, 0, 0, 0, 0, 3, 2, 1, 0, 0, 2, 0, b'a', b'b', 1, b'c', 2, b's',
    b'1',
];

#[test]
fn each_field_is_written(rt: HostRuntime) -> Result<(), Fail> {
    let mut out = Vec::new(rt.alloc());
    put_u16(&mut out, 258)?;
    put_u32(&mut out, 16_909_060)?;
    put_u64(&mut out, 1)?;
    put_address(&mut out, PageId { file: 3, page: 258 })?;
    put_text(&mut out, b"ab")?;
    put_short(&mut out, b"c")?;
    put_name(&mut out, &Name::read(b"S1")?)?;
    assert_eq!(rt; out.as_slice(), FIELDS.as_slice());
    Ok(())
}

#[test]
fn each_field_is_read(rt: HostRuntime) -> Result<(), Fail> {
    let mut reader = Reader::new(&FIELDS);
    assert_eq!(rt; reader.u16()?, 258);
    assert_eq!(rt; reader.u32()?, 16_909_060);
    assert_eq!(rt; reader.u64()?, 1);
    assert_eq!(rt; reader.address()?, PageId { file: 3, page: 258 });
    assert_eq!(rt; reader.text()?, b"ab".as_slice());
    assert_eq!(rt; reader.short_text()?, b"c".as_slice());
    assert_eq!(rt; reader.place(&FIELDS), 25);
    assert_eq!(rt; reader.name()?.bytes(), b"s1".as_slice());
    assert!(rt; reader.is_empty() && reader.byte().is_err());
    Ok(())
}

#[test]
fn wrong_names_have_places(rt: HostRuntime) {
    for bytes in [
        [7, 3, b'a', b'b'],
        [7, 0, b'a', b'b'],
        [7, 2, b'a', b'B'],
        [7, 2, b'1', b'b'],
    ] {
        let mut reader = Reader::new(&bytes);
        assert_eq!(rt; reader.byte(), Ok(7));
        assert!(rt; reader.name().is_err());
        assert_eq!(rt; reader.place(&bytes), 1);
    }
}
