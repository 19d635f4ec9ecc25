//! A small leaf: rows that take the slots of others, rows that are cut, and rows laid in parts.

use crate::{SpelledRow, cut_row, filled, rows_in_order, with_row};
use page_base::{ColType, Column, Columns, Name, NoMemory, Row, Value};
use row_fmt::fits;
use std::alloc::Global;
use std::test::Fail;

// A key and another INT, none NULL.
fn columns(alloc: Global) -> Result<Columns, Fail> {
    let mut columns = Columns::new(alloc);
    for (name, key) in [(b"k".as_slice(), 1), (b"v", 0)] {
        columns.push(Column {
            name: Name::read(name)?,
            kind: ColType::Int,
            nullable: false,
            key,
        })?;
    }
    Ok(columns)
}

// The leaf with the row of these numbers.
fn put(
    alloc: Global,
    cols: &Columns,
    numbers: (i32, i32),
    leaf: Vec<Option<SpelledRow>>,
) -> Result<Vec<Option<SpelledRow>>, NoMemory> {
    let mut row = Row::new(alloc);
    row.push(Value::Int(numbers.0))?;
    row.push(Value::Int(numbers.1))?;
    if !fits(&row, cols) {
        return Ok(leaf);
    }
    with_row(alloc, cols, SpelledRow::new(alloc, cols, row)?, leaf)
}

// Whether a row is this one.
fn is(row: &SpelledRow, numbers: (i32, i32)) -> bool {
    let values = row.row().as_slice();
    values.len() == 2 && values[0] == Value::Int(numbers.0) && values[1] == Value::Int(numbers.1)
}

#[test]
fn a_small_leaf_is_laid_in_parts(rt: HostRuntime) -> Result<(), Fail> {
    let alloc = rt.alloc();
    let cols = columns(alloc)?;
    let mut leaf = put(alloc, &cols, (3, 30), Vec::new(alloc))?;
    leaf = put(alloc, &cols, (1, 10), leaf)?;
    leaf = put(alloc, &cols, (2, 20), leaf)?;
    leaf = put(alloc, &cols, (1, 11), leaf)?;
    let mut three = Row::new(alloc);
    three.push(Value::Int(3))?;
    leaf = cut_row(alloc, &cols, &three, leaf)?;
    leaf = put(alloc, &cols, (0, 5), leaf)?;
    assert_eq!(rt; leaf.len(), 3);
    let rows = rows_in_order(alloc, &cols, leaf)?;
    let parts = filled(alloc, 22, rows)?;
    assert_eq!(rt; parts.len(), 2);
    assert_eq!(rt; parts[0].len(), 2);
    assert_eq!(rt; parts[1].len(), 1);
    assert!(rt; is(&parts[0].at(0).row, (0, 5)));
    assert!(rt; is(&parts[0].at(1).row, (1, 11)));
    assert!(rt; is(&parts[1].at(0).row, (2, 20)));
    Ok(())
}
