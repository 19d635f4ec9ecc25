//! Batches that are read, their statements and the places of those.

use crate::{ParseRefusal, parse, statement_place};
use page_base::{ColType, Column};
use plain_model::{Expr, Items, SelectStmt, Stmt, StmtList};
use std::alloc::{AllocError, Global};
use std::test::Fail;

// How many statements a batch has, if it is read.
fn count_of(alloc: Global, batch: &[u8]) -> Option<usize> {
    if batch.len() > 20000000 {
        return None;
    }
    match parse(alloc, batch) {
        Ok(stmts) => Some(stmts.len()),
        Err(_) => None,
    }
}

// Batches of each production, and how many statements they have. Those that are refused, with their places, are a table of the
// repository's tests.
const BATCHES: [(&str, usize); 25] = [
    ("", 0),
    (" \t\n \n", 0),
    ("USE shop", 1),
    ("use shop use Shop\nUSE\tSHOP", 3),
    ("USE dbo USE name USE snapshot USE [select]", 4),
    ("USE a;; USE b ;", 2),
    ("USE shop -- shop ;", 1),
    ("/* a */ USE /* /* */ */ shop", 1),
    (
        "SELECT * FROM dbo.t SELECT * FROM [dbo].[t] SELECT * FROM dbo",
        3,
    ),
    (
        "SELECT 'it''s', -v * (2 + w), NULL FROM t WHERE NOT (v IS NOT NULL OR v NOT BETWEEN 1 AND 2) AND v NOT IN (1, 2)",
        1,
    ),
    (
        "SELECT a FROM t WHERE a <> 1 AND a != 2 AND a >= 3 ORDER BY a DESC, b ASC, c",
        1,
    ),
    ("SELECT COUNT(*), SUM(v + 1) FROM t WHERE v = 1", 1),
    ("INSERT INTO t (a, b) VALUES (1, 'x'), (NULL, -2)", 1),
    ("INSERT dbo.t VALUES (9223372036854775807)", 1),
    ("UPDATE t SET v = v + 1, w = 'x' WHERE id = 1", 1),
    ("DELETE t DELETE FROM t WHERE id = 1", 2),
    ("DROP TABLE dbo.t DROP DATABASE s", 2),
    (
        "BEGIN TRAN COMMIT BEGIN TRANSACTION COMMIT WORK ROLLBACK ROLLBACK TRAN COMMIT TRANSACTION",
        7,
    ),
    ("SET LOCK_TIMEOUT 0", 1),
    (
        "SET TRANSACTION ISOLATION LEVEL READ COMMITTED set transaction isolation level Serializable",
        2,
    ),
    (
        "USE isolation CREATE TABLE level (read INT PRIMARY KEY, committed INT, serializable INT) SELECT read FROM level WHERE committed = serializable",
        3,
    ),
    ("RESTORE DATABASE shop FROM DATABASE_SNAPSHOT = 's1'", 1),
    (
        "CREATE TABLE t (id INT PRIMARY KEY CLUSTERED, v BIGINT NOT NULL, w VARCHAR(10) NULL NULL)",
        1,
    ),
    (
        "CREATE TABLE dbo.t (a INT, b INT, CONSTRAINT k PRIMARY KEY CLUSTERED (a, b), PRIMARY KEY (a))",
        1,
    ),
    (
        "create database S on(name=a,filename='A.ss'),(Name=b,FileName='b-1.ss')as snapshot of B",
        1,
    ),
];

#[test]
fn batches_are_read(rt: HostRuntime) {
    for (batch, want) in BATCHES {
        assert_eq!(rt;
            count_of(rt.alloc(), batch.as_bytes()),
            Some(want),
            "at {batch}"
        );
    }
}

// `first`, then so many times `more`, then `last`.
fn repeated(
    alloc: Global,
    first: &str,
    more: &str,
    times: usize,
    last: &str,
) -> Result<String, AllocError> {
    let mut text = String::from_str(alloc, first)?;
    for _ in 0..times {
        text.push_str(more)?;
    }
    text.push_str(last)?;
    Ok(text)
}

// A front, a part and how often it stands, an end, and how many statements they are.
const LONG_BATCHES: [(&str, &str, usize, &str, usize); 5] = [
    ("USE ", "n", 128, "", 1),
    ("INSERT t VALUES (1", ",1", 63, ")", 1),
    ("INSERT t VALUES (1)", ",(1)", 999, "", 1),
    (
        "CREATE TABLE t (id INT PRIMARY KEY,",
        " id INT,",
        62,
        " v INT, PRIMARY KEY (id))",
        1,
    ),
    ("", "USE shop ", 1000, "", 1000),
];

#[test]
fn limits_are_reached(rt: HostRuntime) -> Result<(), Fail> {
    for (first, more, times, last, want) in LONG_BATCHES {
        let text = repeated(rt.alloc(), first, more, times, last)?;
        assert_eq!(rt;
            count_of(rt.alloc(), text.as_bytes()),
            Some(want),
            "at {first}{times}{last}"
        );
    }
    Ok(())
}

fn is_use(stmt: &Stmt, name: &[u8]) -> bool {
    match stmt {
        Stmt::UseDb(found) => found.is_text(name),
        _ => false,
    }
}

fn is_column(column: &Column, name: &[u8], key: u8) -> bool {
    column.name.is_text(name)
        && column.kind == ColType::Int
        && column.key == key
        && column.nullable == (key == 0)
}

// CREATE TABLE of a table with these columns, of which the first is the key.
fn is_create(stmt: &Stmt, name: &[u8], columns: &[&[u8]]) -> bool {
    match stmt {
        Stmt::CreateTable(found, kept) => {
            let kept = kept.as_slice();
            found.is_text(name)
                && kept.len() == columns.len()
                && kept.iter().zip(columns).enumerate().all(|(i, (column, name))| is_column(
                    column,
                    name,
                    if i == 0 { 1 } else { 0 },
                ))
        }
        _ => false,
    }
}

fn is_number(expr: &Expr, number: i64) -> bool {
    match expr {
        Expr::Number(found) => *found == number,
        _ => false,
    }
}

// INSERT of one row of numbers without a list of columns.
fn is_insert(stmt: &Stmt, table: &[u8], numbers: &[i64]) -> bool {
    match stmt {
        Stmt::Insert(insert) if insert.cols.is_empty() && insert.rows.len() == 1 => {
            let row = insert.rows.at(0).as_slice();
            insert.table.is_text(table)
                && row.len() == numbers.len()
                && row
                    .iter()
                    .zip(numbers)
                    .all(|(expr, number)| is_number(expr, *number))
        }
        _ => false,
    }
}

fn is_select_all(stmt: &Stmt, table: &[u8]) -> bool {
    match stmt {
        Stmt::Select(
            SelectStmt {
                table: found,
                items: Items::Star,
                filter: None,
                order,
            },
        ) => found.is_text(table) && order.is_empty(),
        _ => false,
    }
}

fn read(alloc: Global, batch: &[u8]) -> Result<StmtList, ParseRefusal> {
    if batch.len() > 20000000 {
        return Err(ParseRefusal::Memory);
    }
    parse(alloc, batch)
}

#[test]
fn statements_have_their_trees(rt: HostRuntime) -> Result<(), Fail> {
    let stmts = read(
        rt.alloc(),
        b"USE Shop\nCREATE TABLE t (id INT PRIMARY KEY, v INT)\nINSERT T VALUES (1, 10)\nselect * from t".as_slice(),
    )?;
    assert_eq!(rt; stmts.len(), 4);
    assert!(rt; is_use(stmts.at(0), b"shop".as_slice()));
    assert!(rt;
        is_create(
            stmts.at(1),
            b"t".as_slice(),
            [b"id".as_slice(), b"v".as_slice()].as_slice()
        )
    );
    assert!(rt; is_insert(stmts.at(2), b"t".as_slice(), [1, 10].as_slice()));
    assert!(rt; is_select_all(stmts.at(3), b"t".as_slice()));
    Ok(())
}

// CREATE DATABASE of a snapshot of a source over files of these logical names and sparse names.
fn is_snapshot(stmt: &Stmt, name: &[u8], names: &[(&[u8], &[u8])], source: &[u8]) -> bool {
    match stmt {
        Stmt::CreateSnap { snap, files, of } => {
            let files = files.as_slice();
            snap.is_text(name)
                && of.is_text(source)
                && files.len() == names.len()
                && files.iter().zip(names).all(|(file, (logical, path))| {
                    file.logical.is_text(logical) && file.path.bytes() == *path
                })
        }
        _ => false,
    }
}

// UPDATE of one column of all rows to a number.
fn is_update(stmt: &Stmt, name: &[u8], col: &[u8], number: i64) -> bool {
    match stmt {
        Stmt::Update(update) if update.filter.is_none() && update.sets.len() == 1 => {
            let set = update.sets.at(0);
            update.table.is_text(name) && set.col.is_text(col) && is_number(&set.to, number)
        }
        _ => false,
    }
}

#[test]
fn snapshots_and_updates_have_their_trees(rt: HostRuntime) -> Result<(), Fail> {
    let stmts = read(
        rt.alloc(),
        b"CREATE DATABASE s1 ON (NAME = shop_data, FILENAME = 's1.ss') AS SNAPSHOT OF shop\nUPDATE T SET v = 20\nCREATE DATABASE S2 ON (NAME = One, FILENAME = 'c:\\data\\S2.ss'), (NAME = two, FILENAME = '/data/x/it''s/s-2') AS SNAPSHOT OF Shop".as_slice(),
    )?;
    assert_eq!(rt; stmts.len(), 3);
    assert!(rt;
        is_snapshot(
            stmts.at(0),
            b"s1".as_slice(),
            [(b"shop_data".as_slice(), b"s1.ss".as_slice())].as_slice(),
            b"shop".as_slice()
        )
    );
    assert!(rt; is_update(stmts.at(1), b"t".as_slice(), b"v".as_slice(), 20));
    assert!(rt;
        is_snapshot(
            stmts.at(2),
            b"s2".as_slice(),
            [
                (b"one".as_slice(), b"S2.ss".as_slice()),
                (b"two".as_slice(), b"s-2".as_slice())
            ]
            .as_slice(),
            b"shop".as_slice()
        )
    );
    Ok(())
}

#[test]
fn statements_have_places(rt: HostRuntime) {
    // two bytes of white space, then six bytes each with the one behind
    let batch = b" \nUSE a\tUSE\nb USE c";
    for (number, place) in [(0, 2), (1, 8), (2, 14)] {
        assert_eq!(rt;
            statement_place(rt.alloc(), batch, number),
            Ok(place),
            "of {number}"
        );
    }
    assert_eq!(rt; statement_place(rt.alloc(), b"\t) USE", 0), Ok(1));
}

fn place_of(alloc: Global, batch: &[u8], number: usize) -> Result<u32, ParseRefusal> {
    if batch.len() > 20000000 {
        return Err(ParseRefusal::Memory);
    }
    statement_place(alloc, batch, number)
}

// A batch, the number of a statement that it lacks, and where its statements stop: behind the last one, where one breaks off, or
// at a token that begins none.
const LACKING: [(&str, usize, u32); 7] = [
    ("", 1, 0),
    ("USE a USE b", 2, 11),
    ("USE a USE b -- c", 7, 16),
    ("USE a USE 1 USE b", 2, 10),
    ("USE a USE", 2, 9),
    ("USE a ) USE b", 1, 6),
    ("\t) USE", 1, 1),
];

#[test]
fn missing_statements_have_a_place(rt: HostRuntime) {
    for (batch, number, at) in LACKING {
        assert_eq!(rt;
            place_of(rt.alloc(), batch.as_bytes(), number),
            Err(ParseRefusal::Syntax { at }),
            "of {number} in {batch}"
        );
    }
}
