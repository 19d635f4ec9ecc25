//! The worked commit byte for byte, the places of wrong fields, the ends, and records one by one.

use crate::{LogEntry, LogForm, Rec, Work, commit_bytes, read_log, revert_bytes};
use page_base::{Bytes, Name, NoMemory, PageId};
use std::alloc::Global;
use std::test::Fail;

/// The commit of a transaction that put the row (3, 30) into slot 2 of page 4.
const COMMIT: [u8; 29] = [
    1, 1, 0, 0, 0, 0, 0, 0, 0, 0, 4, 0, 0, 0, 2, 0, 0, 0, 9, 0, 0, 3, 0, 0, 0, 0x1e, 0, 0, 0,
];

fn inserted(alloc: Global) -> Result<Rec, NoMemory> {
    let row = Vec::from_slice(alloc, &COMMIT[20..])?;
    Ok(Rec {
        page: PageId { file: 0, page: 4 },
        slot: 2,
        before: Bytes::new(alloc),
        after: Bytes::from(row),
    })
}

// The place at which bytes are refused, or none.
fn place(alloc: Global, bytes: &[u8]) -> Option<u64> {
    match read_log(alloc, bytes) {
        Ok(_) => None,
        Err(LogForm::Form { at }) => Some(at),
        Err(LogForm::Memory) => Some(u64::MAX),
    }
}

#[test]
fn the_worked_commit(rt: HostRuntime) -> Result<(), Fail> {
    let mut work = Work::new(rt.alloc())?;
    work.reserve(1)?;
    work.push(inserted(rt.alloc())?);
    let bytes = commit_bytes(rt.alloc(), &work.copy(rt.alloc())?)?;
    assert_eq!(rt; bytes.as_slice(), COMMIT.as_slice());
    let list = read_log(rt.alloc(), &COMMIT).ok().ok_or("a log")?;
    assert_eq!(rt; list.len(), 1);
    for entry in list.as_slice() {
        assert!(rt; matches!(entry, LogEntry::Commit(records) if records.len() == 1));
    }
    let last = work.pop().ok_or("a record")?;
    assert_eq!(rt; last.after.as_slice(), &COMMIT[20..]);
    assert!(rt; work.pop().is_none());
    let name = Name::read(b"S1").ok().ok_or("a name")?;
    assert_eq!(rt;
        revert_bytes(rt.alloc(), &name)?.as_slice(),
        [2, 2, b's', b'1'].as_slice()
    );
    Ok(())
}

#[test]
fn wrong_fields_have_places(rt: HostRuntime) {
    let mut slot = COMMIT;
    slot[14] = 0xd0;
    slot[15] = 0x0f;
    let mut long = COMMIT;
    long[16] = 0x9f;
    long[17] = 0x1f;
    for (bytes, at) in [
        (COMMIT.as_slice(), None),
        (&[], None),
        (&[1, 0, 0, 0, 0, 0, 0, 0, 0], None),
        (&[2, 2, b's', b'1'], None),
        (&[3], Some(0)),
        (&COMMIT[..8], Some(1)),
        (&COMMIT[..9], Some(9)),
        (&COMMIT[..13], Some(9)),
        (&COMMIT[..15], Some(14)),
        (&slot, Some(14)),
        (&long, Some(16)),
        (&COMMIT[..28], Some(18)),
        (&[2, 2, b's', b'1', 7], Some(4)),
        (&[2, 2, b's'], Some(1)),
        (&[2, 2, b'S', b'1'], Some(1)),
    ] {
        assert_eq!(rt; place(rt.alloc(), bytes), at, "{bytes:?}");
    }
}

#[test]
fn the_ends_read_back(rt: HostRuntime) -> Result<(), Fail> {
    let full = vec![in rt.alloc(); 7u8; 8_094]?;
    let mut work = Work::new(rt.alloc())?;
    work.reserve(1)?;
    work.push(Rec {
        page: PageId {
            file: 15,
            page: 130_560,
        },
        slot: 4_047,
        before: Bytes::from(full),
        after: Bytes::new(rt.alloc()),
    });
    let bytes = commit_bytes(rt.alloc(), &work)?;
    let list = read_log(rt.alloc(), bytes.as_slice()).ok().ok_or("a log")?;
    for entry in list.as_slice() {
        let LogEntry::Commit(records) = entry else {
            return Err("a commit".into());
        };
        for rec in records.as_slice() {
            assert_eq!(rt;
                rec.page,
                PageId {
                    file: 15,
                    page: 130_560
                }
            );
            assert_eq!(rt;
                (rec.slot, rec.before.len(), rec.after.len()),
                (4_047, 8_094, 0)
            );
        }
    }
    Ok(())
}
