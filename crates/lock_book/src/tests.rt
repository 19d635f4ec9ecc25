//! The worked cases: two readers in each other's way, a sole reader that writes, and the lowest of three.

use crate::{LockBook, LockRefusal};
use page_base::{Mode, SessNo, TableNo};
use std::test::Fail;

fn held(by: u8) -> LockRefusal {
    LockRefusal::Held { by: SessNo(by) }
}

// Whether the session held the table, which it doesn't now.
fn is_freed(book: &mut LockBook, who: SessNo, table: TableNo) -> bool {
    if book.holds(who, table).is_none() {
        return false;
    }
    book.free(who, table);
    book.holds(who, table).is_none()
}

#[test]
fn locks_are_taken_and_refused(rt: HostRuntime) -> Result<(), Fail> {
    let mut book = LockBook::new(rt.alloc())?;
    for (who, table, mode, answer) in [
        (1, 0, Mode::S, Ok(true)),
        (2, 0, Mode::S, Ok(true)),
        (1, 0, Mode::S, Ok(false)),
        (1, 0, Mode::X, Err(held(2))),
        (2, 0, Mode::X, Err(held(1))),
        (64, 7, Mode::S, Ok(true)),
        (3, 7, Mode::S, Ok(true)),
        (5, 7, Mode::S, Ok(true)),
        (2, 7, Mode::X, Err(held(3))),
    ] {
        assert_eq!(rt;
            book.take(SessNo(who), TableNo(table), mode),
            answer,
            "{who} {table}"
        );
    }
    assert!(rt; is_freed(&mut book, SessNo(3), TableNo(7)));
    assert_eq!(rt; book.take(SessNo(2), TableNo(7), Mode::X), Err(held(5)));
    book.free_all(SessNo(2));
    assert_eq!(rt; book.holds(SessNo(2), TableNo(0)), None);
    assert_eq!(rt; book.holds(SessNo(1), TableNo(0)), Some(Mode::S));
    for (who, mode, answer) in [
        (1, Mode::X, Ok(true)),
        (1, Mode::S, Ok(false)),
        (2, Mode::S, Err(held(1))),
    ] {
        assert_eq!(rt; book.take(SessNo(who), TableNo(0), mode), answer, "{who}");
    }
    assert_eq!(rt; book.holds(SessNo(1), TableNo(0)), Some(Mode::X));
    Ok(())
}
