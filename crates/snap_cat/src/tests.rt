//! Snapshots that come, change and go.

use crate::{FileNames, SnapCat, SnapState};
use page_base::{Name, SnapNo};
use rec_log::Work;
use std::alloc::Global;
use std::test::Fail;

// Adds a snapshot of this name, where it may come.
fn added(alloc: Global, cat: &mut SnapCat, name: &[u8]) -> Option<SnapNo> {
    let name = Name::read(name).ok()?;
    let owed = Work::new(alloc).ok()?;
    let None = cat.find(&name) else {
        return None;
    };
    if cat.count() >= 8 {
        return None;
    }
    if cat.next_cut() == u64::MAX {
        return None;
    }
    Some(cat.add(name, FileNames::new(alloc), owed))
}

#[test]
fn snapshots_stand_in_order_of_cuts(rt: HostRuntime) -> Result<(), Fail> {
    let mut cat = SnapCat::new(rt.alloc(), 5)?;
    let first = added(rt.alloc(), &mut cat, b"noon").ok_or("a snapshot")?;
    let second = added(rt.alloc(), &mut cat, b"night").ok_or("another snapshot")?;
    assert!(rt; added(rt.alloc(), &mut cat, b"noon").is_none());
    assert_eq!(rt; cat.next_cut(), 7);
    assert!(rt; first.0 < cat.count());
    assert_eq!(rt; cat.cut(first), 5);
    assert!(rt; second.0 < cat.count());
    assert_eq!(rt; cat.cut(second), 6);
    assert_eq!(rt; cat.name(second).bytes(), b"night".as_slice());
    assert_eq!(rt; cat.files(second).len(), 0);
    assert_eq!(rt; cat.state(second), SnapState::Making);
    cat.set_state(second, SnapState::Online);
    assert!(rt; second.0 < cat.count());
    assert_eq!(rt; cat.state(second), SnapState::Online);
    cat.owed(second).reserve(1)?;
    assert!(rt; second.0 < cat.count());
    assert_eq!(rt; cat.owes(second).len(), 0);
    assert!(rt; first.0 < cat.count());
    cat.remove(first);
    assert_eq!(rt; cat.count(), 1);
    let name = Name::read(b"night").ok().ok_or("a name")?;
    assert_eq!(rt; cat.find(&name), Some(SnapNo(0)));
    Ok(())
}
