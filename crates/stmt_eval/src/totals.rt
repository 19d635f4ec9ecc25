//! The aggregates of the rows that a SELECT keeps.

ghost use Rattle.std.specs.Prelude.{◌≡◌, ℤ, pos, ◌+ℤ◌, ◌≤ℤ◌, List, length, map, IfOk, slice_index_or, false, is_some, unwrap_or};
ghost use Rattle.std.specs.List.{list_any};
ghost use Rattle.page_base.specs.declared.value.Value.TheVariants.{Null};
ghost use Rattle.sql_eval.specs.Given.{Gives};
ghost use Rattle.plain_model.specs.Numbers.{number_in, stored};
ghost use Rattle.plain_model.specs.Outcomes.{all_of};
ghost use Rattle.plain_model.specs.Totals.{argument, total, numbers_at, is_wide, sum_of, aggregate, aggregates_from};

use crate::refusal::RowRefusal;
use crate::rows::{RowWork, keeps};
use page_base::{Columns, NoMemory, Row, Value};
use plain_model::{Expr, ExprType, Sum, SumList};
use sql_eval::{EvalRefusal, number_in, tree_type, value};
use std::alloc::Global;

// The argument of an aggregate over a row, NULL for COUNT(*).
fn argument(alloc: Global, cols: &Columns, row: &Row, sum: &Sum) -> Result<Value, EvalRefusal>
    ensures { Gives result (argument cols.now row.now sum.now) }
{
    match sum {
        Sum::CountAll => Ok(Value::Null),
        Sum::SumOf(e) => value(alloc, e, cols, row),
    }
}

// The arguments of all aggregates over a row.
fn arguments(alloc: Global, cols: &Columns, row: &Row, sums: &SumList) -> Result<Row, EvalRefusal>
    ensures { Gives result (all_of (map (argument cols.now row.now) sums.now)) }
{
    let mut values = Row::new(alloc);
    for sum in sums.as_slice() {
        values.push(argument(alloc, cols, row, sum)?)?;
    }
    Ok(values)
}

/// A SELECT of aggregates over the rows that a filter keeps, each taken by its arguments.
#[derive(Drop)]
pub(crate) struct Summing<'a> {
    pub sums: &'a SumList,
    pub filter: &'a Option<Expr>,
    pub cols: &'a Columns,
}

impl RowWork<Row> for Summing<'_> {
    ghost use Rattle.plain_model.specs.Totals.{summed_row};

    ghost outcome = { λ work row. summed_row work.sums.now work.filter.now work.cols.now row };

    fn on_row(&self, alloc: Global, row: &Row) -> Result<Option<Row>, RowRefusal> {
        if !keeps(alloc, self.filter, self.cols, row)? {
            return Ok(None);
        }
        Ok(Some(arguments(alloc, self.cols, row, self.sums)?))
    }
}

// The number at a place of a row, if there is one.
fn number_at(row: &Row, place: usize) -> Option<i64>
    ensures { result ≡ number_in (slice_index_or row.now place Null) }
{
    match row.as_slice().get(place) {
        Some(value) => number_in(value),
        None => None,
    }
}

// Whether some row has a number at a place.
fn has_number(taken: &[Row], place: usize) -> bool
    ensures { result ≡ list_any (λ row. is_some (number_in (slice_index_or row place Null))) taken.now }
{
    taken.iter().any(|row| number_at(row, place).is_some())
}

// The number at a place of a row, or 0.
fn number_or_zero(row: &Row, place: usize) -> i64
    ensures { result ≡ unwrap_or (number_in (slice_index_or row.now place Null)) (pos 0) }
{
    match number_at(row, place) {
        Some(number) => number,
        None => 0,
    }
}

// A sum with one more number, which has 64 bits.
fn added(sum: i128, number: i64) -> i128
    requires low { pos 0 ≤ℤ (sum +ℤ pos 170141183460469231722463931679029329920) }
    requires high { sum ≤ℤ pos 170141183460469231722463931679029329920 }
    ensures sum { result ≡ sum +ℤ number }
    ensures low { sum ≤ℤ (result +ℤ pos 9223372036854775808) }
    ensures high { result ≤ℤ (sum +ℤ pos 9223372036854775808) }
{
    sum + i128::from(number)
}

// The exact sum of the numbers at a place.
fn total(taken: &[Row], place: usize) -> i128
    ensures { result ≡ total (numbers_at place taken.now) }
{
    let mut sum: i128 = 0;
    for row in taken {
        sum = added(sum, number_or_zero(row, place));
    }
    sum
}

// A number as a BIGINT or as an INT; None is an overflow.
fn stored_total(big: bool, number: i128) -> Option<Value>
    ensures { result ≡ stored big number }
{
    if big {
        return match i64::try_from(number) {
            Ok(number) => Some(Value::Big(number)),
            Err(_) => None,
        };
    }
    match i32::try_from(number) {
        Ok(number) => Some(Value::Int(number)),
        Err(_) => None,
    }
}

fn is_wide(kind: Option<ExprType>) -> bool
    ensures { result ≡ is_wide kind }
{
    matches!(kind, Some(ExprType::Big))
}

// The sum of numbers of this type at a place: NULL where there are none; None is an overflow.
fn sum_of(kind: Option<ExprType>, taken: &[Row], place: usize) -> Option<Value>
    ensures { result ≡ sum_of kind (numbers_at place taken.now) }
{
    if !has_number(taken, place) {
        return Some(Value::Null);
    }
    stored_total(is_wide(kind), total(taken, place))
}

// What an aggregate comes to by the arguments at its place; None is an overflow.
fn aggregate(cols: &Columns, taken: &[Row], place: usize, sum: &Sum) -> Option<Value>
    ensures { result ≡ aggregate cols.now taken.now place sum.now }
{
    match sum {
        Sum::CountAll => stored_total(false, taken.len() as i128),
        Sum::SumOf(e) => sum_of(tree_type(e, cols), taken, place),
    }
}

/// What the aggregates come to by the arguments of the rows taken; None where one is outside its type.
pub(crate) fn aggregates(
    alloc: Global,
    cols: &Columns,
    taken: &[Row],
    sums: &SumList,
) -> Result<Option<Row>, NoMemory>
    ensures { IfOk result (λ row. row ≡ all_of (aggregates_from cols.now taken.now 0 sums.now)) }
{
    let mut values = Row::new(alloc);
    for (place, sum) in sums.as_slice().iter().enumerate() {
        match aggregate(cols, taken, place, sum) {
            Some(value) => values.push(value)?,
            None => return Ok(None),
        }
    }
    Ok(Some(values))
}
