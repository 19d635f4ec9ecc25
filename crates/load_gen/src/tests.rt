//! The first values of the load of 7, and what a small history comes to.

use crate::{gen_script, summary};
use page_base::{RowList, SessNo};
use plain_model::{Book, Event, Reply};
use std::test::Fail;

/// How the script of 7 begins.
const BEGINNING: &[u8] =
    b":session 1\nUSE shop\nCREATE TABLE item (id INT PRIMARY KEY, name VARCHAR(40) NOT NULL, stock INT NOT NULL)\nCREATE TABLE sale (id INT PRIMARY KEY, item INT NOT NULL, qty BIGINT)\nINSERT item VALUES (1,'item1',764),(2,'item2',";

fn said(number: u32, reply: Reply) -> Event {
    Event::Said {
        who: SessNo(1),
        number,
        began: 0,
        reply,
    }
}

#[test]
fn the_first_values_of_7(rt: HostRuntime) -> Result<(), Fail> {
    let text = gen_script(rt.alloc(), 7)?;
    assert!(rt; text.as_slice().starts_with(BEGINNING));
    Ok(())
}

#[test]
fn replies_are_counted(rt: HostRuntime) -> Result<(), Fail> {
    let mut book = Book::new(rt.alloc());
    book.push(said(1, Reply::Ok))?;
    book.push(said(2, Reply::Count(2)))?;
    book.push(said(3, Reply::Rows(RowList::new(rt.alloc()))))?;
    book.push(said(4, Reply::Ok))?;
    book.push(Event::Left { who: SessNo(1) })?;
    let line = summary(rt.alloc(), &book)?;
    assert_eq!(rt;
        line.as_slice(),
        b"events 5 ok 2 counts 1 rows 1 messages 0\n".as_slice()
    );
    Ok(())
}
