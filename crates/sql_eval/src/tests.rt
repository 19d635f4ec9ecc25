//! A value and a truth with memory enough. What each operator gives is a table of the repository's tests.

use crate::{truth, value};
use page_base::{ColType, Column, Columns, Name, Row, Truth, Value};
use plain_model::Expr;
use std::test::Fail;

#[test]
fn a_column_has_the_value_of_its_row(rt: HostRuntime) -> Result<(), Fail> {
    let alloc = rt.alloc();
    let name = Name::read(b"a")?;
    let mut cols = Columns::new(alloc);
    cols.push(Column {
        name,
        kind: ColType::Int,
        nullable: true,
        key: 0,
    })?;
    let mut row = Row::new(alloc);
    row.push(Value::Int(7))?;
    assert!(rt; value(alloc, &Expr::Col(name), &cols, &row)? == Value::Int(7));
    let absent = Expr::IsNull(Box::new(alloc, Expr::Col(name))?);
    assert!(rt; truth(alloc, &absent, &cols, &row)? == Truth::False);
    Ok(())
}
