//! The rows of a table's description.

ghost use Rattle.std.specs.Prelude.{pos, ◌≡◌, ◌+◌, ◌-◌, ◌^◌, ◌<◌, ◌≤◌, length, take, IfOk};
ghost use Rattle.sys_cat.specs.Rows.{type_number, type_length, key_number, row_of, table_row, column_row, column_rows, rows_of};

use crate::desc::TableDesc;
use page_base::{Bytes, ColType, Column, Name, NoMemory, Row, RowList, Value};
use std::alloc::Global;

fn type_number(kind: ColType) -> u32
    ensures { result ≡ type_number kind }
{
    match kind {
        ColType::Int => 1,
        ColType::Big => 2,
        ColType::Text { max: _ } => 3,
    }
}

fn type_length(kind: ColType) -> u32
    ensures value { result ≡ type_length kind }
    ensures small { result < 2 ^ 16 }
{
    match kind {
        ColType::Int | ColType::Big => 0,
        ColType::Text { max } => u32::from(max),
    }
}

fn key_number(column: &Column) -> u32
    ensures value { result ≡ key_number column.now }
    ensures small { result < 2 ^ 10 }
{
    2 * u32::from(column.key) + if column.nullable { 1 } else { 0 }
}

fn text(alloc: Global, bytes: &[u8]) -> Result<Value, NoMemory>
    ensures { IfOk result (λ value. value ≡ Value.Text bytes.now) }
{
    Ok(Value::Text(Bytes::from(Vec::from_slice(alloc, bytes)?)))
}

fn int(n: u32) -> Value
    requires { n < 2 ^ 31 }
    ensures { result ≡ Value.Int (pos n) }
{
    Value::Int(n as i32)
}

// A row: a table's name, an ordinal, a text and three numbers.
fn row_of(
    alloc: Global,
    name: &Name,
    ord: u32,
    bytes: &[u8],
    numbers: (u32, u32, u32),
) -> Result<Row, NoMemory>
    requires ord { ord < 2 ^ 31 }
    requires first { numbers.0 < 2 ^ 31 }
    requires second { numbers.1 < 2 ^ 31 }
    requires third { numbers.2 < 2 ^ 31 }
    ensures { IfOk result (λ row. row ≡ row_of name.now ord bytes.now numbers.0 numbers.1 numbers.2) }
{
    let mut row = Row::new(alloc);
    row.push(text(alloc, name.bytes())?)?;
    row.push(int(ord))?;
    row.push(text(alloc, bytes)?)?;
    row.push(int(numbers.0))?;
    row.push(int(numbers.1))?;
    row.push(int(numbers.2))?;
    Ok(row)
}

fn column_row(alloc: Global, name: &Name, ord: u32, column: &Column) -> Result<Row, NoMemory>
    requires { ord < 2 ^ 31 }
    ensures { IfOk result (λ row. row ≡ column_row name.now ord column.now) }
{
    let numbers = (
        type_number(column.kind),
        type_length(column.kind),
        key_number(column),
    );
    row_of(alloc, name, ord, column.name.bytes(), numbers)
}

/// The rows that tell of a table: one for the table, and then one for each column.
pub fn rows_of(alloc: Global, desc: &TableDesc) -> Result<RowList, NoMemory>
    requires number { desc.now.number.0 < 2 ^ 31 }
    requires page { desc.now.root.page < 2 ^ 31 }
    requires few { length desc.now.cols < 2 ^ 31 - 1 }
    ensures { IfOk result (λ rows. rows ≡ rows_of desc.now) }
{
    let mut rows = RowList::new(alloc);
    let numbers = (desc.number.0, u32::from(desc.root.file), desc.root.page);
    rows.push(row_of(alloc, &desc.name, 0, &[], numbers)?)?;
    for (i, column) in desc.cols.as_slice().iter().enumerate() {
        rows.push(column_row(alloc, &desc.name, i as u32 + 1, column)?)?;
    }
    Ok(rows)
}
