//! The worked case, a reader in a writer's way, and the ends: the last session and a file's last page.

use crate::{Held, LatchBook};
use page_base::{PageId, SessNo};

const LAST: PageId = PageId {
    file: 15,
    page: 32_767,
};

#[test]
fn latches_are_given_and_refused(rt: HostRuntime) {
    let mut book = LatchBook::new();
    assert!(rt; book.try_sh(SessNo(1), LAST).is_ok());
    assert_eq!(rt; book.try_ex(SessNo(2), LAST), Err(Held { by: SessNo(1) }));
    assert!(rt; book.try_sh(SessNo(64), LAST).is_ok());
    book.release(SessNo(1));
    assert_eq!(rt; book.try_ex(SessNo(3), LAST), Err(Held { by: SessNo(64) }));
    book.release(SessNo(64));
    assert!(rt; book.try_ex(SessNo(4), LAST).is_ok());
    assert_eq!(rt; book.try_sh(SessNo(5), LAST), Err(Held { by: SessNo(4) }));
}
