//! The worked example byte for byte, edits in a row, and damaged pages with their places.

use crate::{BadPage, NoRoom, check, clear_slot, put_slot, slot, slots};
use page_base::{Image, PAGE};
use std::process::Abort;
use std::test::Fail;

const FIRST: [u8; 9] = [0, 1, 0, 0, 0, 10, 0, 0, 0];

const SECOND: [u8; 9] = [0, 2, 0, 0, 0, 20, 0, 0, 0];

// The page of the two rows, written out.
fn two_rows() -> [u8; 8192] {
    let mut page = [0u8; 8192];
    page[..4].copy_from_slice(&[2, 0, 18, 0]);
    page[96..105].copy_from_slice(&FIRST);
    page[105..114].copy_from_slice(&SECOND);
    page[8188..].copy_from_slice(&[105, 0, 96, 0]);
    page
}

#[test]
fn the_example_is_spelled(rt: HostRuntime) -> Result<(), Fail> {
    let mut image = Image::blank(rt.alloc())?;
    assert_eq!(rt; check(&image), Ok(()));
    assert_eq!(rt; put_slot(&mut image, 0, &FIRST), Ok(()));
    assert_eq!(rt; put_slot(&mut image, 1, &SECOND), Ok(()));
    assert_eq!(rt; image.bytes(), two_rows().as_slice());
    assert_eq!(rt;
        put_slot(&mut image, 2, &[7; 8094]),
        Err(NoRoom {
            need: 8096,
            free: 8074
        })
    );
    assert_eq!(rt; image.bytes(), two_rows().as_slice());
    assert_eq!(rt; check(&image), Ok(()));
    Ok(())
}

#[test]
fn slots_are_edited_in_place(rt: HostRuntime) -> Result<(), Fail> {
    let mut image = Image::blank(rt.alloc())?;
    let edits = [
        (3, b"third".as_slice(), 4),
        (1, b"one", 4),
        (0, b"zero", 4),
        (1, b"a longer one", 4),
        (0, b"0", 4),
        (5, b"fifth", 6),
        (3, b"3", 6),
        (5, b"", 4),
        (1, b"", 4),
        (9, b"", 4),
        (3, b"", 1),
        (0, b"", 0),
    ];
    for (i, bytes, count) in edits {
        assert!(rt; bytes.len() < 100 && i < 100);
        assert_eq!(rt; check(&image), Ok(()));
        if bytes.is_empty() {
            clear_slot(&mut image, i);
        } else {
            assert_eq!(rt; put_slot(&mut image, i, bytes), Ok(()), "at {i}");
        }
        assert_eq!(rt; slot(&image, i), bytes);
        assert_eq!(rt; slots(&image), count);
    }
    assert_eq!(rt; image.bytes(), [0u8; PAGE].as_slice());
    Ok(())
}

#[test]
fn other_slots_stay(rt: HostRuntime) -> Result<(), Fail> {
    let mut image = Image::blank(rt.alloc())?;
    assert_eq!(rt; check(&image), Ok(()));
    assert_eq!(rt; put_slot(&mut image, 0, b"first"), Ok(()));
    assert_eq!(rt; put_slot(&mut image, 4, b"fourth"), Ok(()));
    assert_eq!(rt; put_slot(&mut image, 2, b"between"), Ok(()));
    assert_eq!(rt; put_slot(&mut image, 0, b"a longer first"), Ok(()));
    let wanted = [
        b"a longer first".as_slice(),
        b"",
        b"between",
        b"",
        b"fourth",
        b"",
    ];
    for (i, bytes) in wanted.into_iter().enumerate() {
        assert_eq!(rt; slot(&image, i as u16), bytes);
    }
    let rows = &image.bytes()[96..123];
    assert_eq!(rt; rows, b"a longer firstbetweenfourth".as_slice());
    Ok(())
}

#[test]
fn damage_is_placed(rt: HostRuntime) -> Result<(), Fail> {
    // what is written over the page of the two rows, and where the first fault stands
    let damages = [
        (0, [0xd1, 0x0f].as_slice(), 0),
        (2, &[0xff, 0xff], 0),
        (0, &[0, 0], 2),
        (4, &[1], 4),
        (95, &[1], 95),
        (114, &[1], 114),
        (8187, &[1], 8187),
        (8190, &[97], 8190),
        (8190, &[95], 8190),
        (8190, &[0], 8188),
        (8188, &[96], 8188),
        (8188, &[95], 8188),
        (8188, &[0], 8188),
        (8188, &[114], 8188),
        (8188, &[113, 0, 97], 8190),
        (0, &[3], 8186),
        (2, &[9], 106),
    ];
    let mut image = Image::blank(rt.alloc())?;
    for (place, bytes, at) in damages {
        let mut page = two_rows();
        write(&rt, &mut page, place, bytes);
        image.set_bytes(&page);
        assert_eq!(rt;
            check(&image),
            Err(BadPage { at }),
            "after {bytes:?} at {place}"
        );
    }
    Ok(())
}

fn write(rt: &impl Abort, page: &mut [u8], at: usize, bytes: &[u8]) {
    for (i, byte) in bytes.iter().enumerate() {
        let place = at.saturating_add(i);
        assert!(rt; place < page.len());
        page[place] = *byte;
    }
}
