//! A statement with memory enough, by the call that makes the two others. What each kind does is in the program's books.

use crate::{Verdict, verdict_of};
use page_base::{ColType, Column, Columns, Name, NoMemory, Row, RowList, Value};
use plain_model::{DeleteStmt, Reply, Stmt};
use std::alloc::Global;
use std::test::Fail;

// The columns of t (id INT PRIMARY KEY).
fn columns(alloc: Global, id: Name) -> Result<Columns, NoMemory> {
    let mut cols = Columns::new(alloc);
    cols.push(Column {
        name: id,
        kind: ColType::Int,
        nullable: false,
        key: 1,
    })?;
    Ok(cols)
}

// The rows 1 and 2 of t.
fn two_rows(alloc: Global) -> Result<RowList, NoMemory> {
    let mut rows = RowList::new(alloc);
    for id in [1, 2] {
        let mut row = Row::new(alloc);
        row.push(Value::Int(id))?;
        rows.push(row)?;
    }
    Ok(rows)
}

fn is_count(reply: &Reply, wanted: u64) -> bool {
    match reply {
        Reply::Count(count) => *count == wanted,
        _ => false,
    }
}

// Whether the statement is no refusal, counts two rows and cuts both keys.
fn cuts_two_rows(verdict: &Verdict, keys: &RowList) -> bool {
    match verdict {
        Verdict::Does(effect) => is_count(&effect.reply, 2) && effect.cuts == *keys,
        Verdict::Refused(_) => false,
    }
}

#[test]
fn a_delete_cuts_the_key_of_each_row(rt: HostRuntime) -> Result<(), Fail> {
    let alloc = rt.alloc();
    let cols = columns(alloc, Name::read(b"id")?)?;
    let rows = two_rows(alloc)?;
    let stmt = Stmt::Delete(DeleteStmt {
        table: Name::read(b"t")?,
        filter: None,
    });
    assert!(rt; cuts_two_rows(&verdict_of(alloc, &stmt, &cols, &rows)?, &rows));
    Ok(())
}
