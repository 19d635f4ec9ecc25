//! The value of an expression over a row.

ghost use Rattle.std.specs.Prelude.{◌≡◌, IfOk, slice_index_or};
ghost use Rattle.page_base.specs.declared.value.Value.TheVariants.{Null};
ghost use Rattle.plain_model.specs.Tree.{tree_of};
ghost use Rattle.plain_model.specs.Cells.{cell, place_of};
ghost use Rattle.sql_eval.specs.Given.{Gives};
ghost use Rattle.plain_model.specs.Values.{value_of};

use crate::EvalRefusal;
use crate::math::{literal, math, opposite};
use page_base::{Columns, Name, NoMemory, Row, Value};
use plain_model::Expr;
use std::alloc::Global;

/// The place of the first column of a name.
pub fn place_of(cols: &Columns, name: &Name) -> Option<usize>
    ensures { result ≡ place_of cols.now name.now }
{
    cols.as_slice()
        .iter()
        .position(|column| column.name.is_same(name))
}

// The value at a place of a row, once more; NULL past its end.
fn copy_at(alloc: Global, row: &Row, place: usize) -> Result<Value, NoMemory>
    ensures { IfOk result (λ value. value ≡ slice_index_or row.now place Null) }
{
    match row.as_slice().get(place) {
        Some(value) => value.copy(alloc),
        None => Ok(Value::Null),
    }
}

/// The value under a column's name, once more; NULL where no column has the name.
pub fn cell(alloc: Global, cols: &Columns, row: &Row, name: &Name) -> Result<Value, NoMemory>
    ensures { IfOk result (λ value. value ≡ cell cols.now row.now name.now) }
{
    match place_of(cols, name) {
        Some(place) => copy_at(alloc, row, place),
        None => Ok(Value::Null),
    }
}

/// The value of an expression over a row, NULL where it is no value but a truth. `Overflow` exactly where a number
/// is outside its type; `Memory` where a text can't be copied.
pub fn value(alloc: Global, e: &Expr, cols: &Columns, row: &Row) -> Result<Value, EvalRefusal>
    ensures { Gives result (value_of cols.now row.now (tree_of e.now)) }
{
    match e {
        Expr::Null => Ok(Value::Null),
        Expr::Number(number) => Ok(literal(*number)),
        Expr::Text(bytes) => Ok(Value::Text(bytes.copy(alloc)?)),
        Expr::Col(name) => Ok(cell(alloc, cols, row, name)?),
        Expr::Neg(e) => {
            let operand = value(alloc, e, cols, row)?;
            opposite(&operand).ok_or(EvalRefusal::Overflow)
        }
        Expr::Math(op, a, b) => {
            let left = value(alloc, a, cols, row)?;
            let right = value(alloc, b, cols, row)?;
            math(*op, &left, &right).ok_or(EvalRefusal::Overflow)
        }
        _ => Ok(Value::Null),
    }
}
