//! What a SELECT shows of the rows of a table, and in which order.

ghost use Rattle.std.specs.Prelude.{◌≡◌, IfOk, map};
ghost use Rattle.sql_eval.specs.Given.{Gives};
ghost use Rattle.page_base.specs.declared.value.Value.{Value};
ghost use Rattle.plain_model.specs.Selecting.{shown, shown_of, selected_row, shown_in_order};
ghost use Rattle.plain_model.specs.Sorting.{sorted_by, is_before};
ghost use Rattle.plain_model.specs.Outcomes.{all_of};
ghost use Rattle.plain_model.specs.Tree.{tree_of};
ghost use Rattle.plain_model.specs.Values.{value_of};

use crate::refusal::RowRefusal;
use crate::rows::{RowWork, keeps};
use page_base::{Columns, ListOf, NoMemory, Row, RowList, Value};
use plain_model::{Expr, ExprList, Items, OrderList};
use sql_eval::{EvalRefusal, compare_rows, value};
use std::alloc::Global;

// The value as a reply shows it: every number is a `Big`.
fn shown_value(alloc: Global, value: &Value) -> Result<Value, NoMemory>
    ensures { IfOk result (λ v. v ≡ shown value.now) }
{
    match value {
        Value::Int(number) => Ok(Value::Big(i64::from(*number))),
        other => other.copy(alloc),
    }
}

/// The values as a reply shows them.
pub(crate) fn shown_row(alloc: Global, row: &Row) -> Result<Row, NoMemory>
    ensures { IfOk result (λ r. r ≡ map shown row.now) }
{
    let mut values = Row::new(alloc);
    for value in row.as_slice() {
        values.push(shown_value(alloc, value)?)?;
    }
    Ok(values)
}

// A row once more.
fn copy_row(alloc: Global, row: &Row) -> Result<Row, NoMemory>
    ensures { IfOk result (λ r. r ≡ row.now) }
{
    let mut values = Row::new(alloc);
    for value in row.as_slice() {
        values.push(value.copy(alloc)?)?;
    }
    Ok(values)
}

// What some expressions come to over a row.
fn values_of(alloc: Global, exprs: &ExprList, cols: &Columns, row: &Row) -> Result<Row, EvalRefusal>
    ensures { Gives result (all_of (map (λ e. value_of cols.now row.now (tree_of e)) exprs.now)) }
{
    let mut values = Row::new(alloc);
    for e in exprs.as_slice() {
        values.push(value(alloc, e, cols, row)?)?;
    }
    Ok(values)
}

// What is shown of a row; nothing where aggregates are asked for.
fn shown_of(alloc: Global, items: &Items, cols: &Columns, row: &Row) -> Result<Row, EvalRefusal>
    ensures { Gives result (shown_of items.now cols.now row.now) }
{
    match items {
        Items::Star => Ok(copy_row(alloc, row)?),
        Items::Exprs(exprs) => values_of(alloc, exprs, cols, row),
        Items::Sums(_) => Ok(Row::new(alloc)),
    }
}

/// A SELECT of the rows that a filter keeps, each taken beside what is shown of it.
#[derive(Drop)]
pub(crate) struct Selecting<'a> {
    pub items: &'a Items,
    pub filter: &'a Option<Expr>,
    pub cols: &'a Columns,
}

impl RowWork<(Row, Row)> for Selecting<'_> {
    ghost use Rattle.plain_model.specs.Selecting.{selected_row};

    ghost outcome = { λ work row. selected_row work.items.now work.filter.now work.cols.now row };

    fn on_row(&self, alloc: Global, row: &Row) -> Result<Option<(Row, Row)>, RowRefusal> {
        if !keeps(alloc, self.filter, self.cols, row)? {
            return Ok(None);
        }
        let values = shown_of(alloc, self.items, self.cols, row)?;
        let shown = shown_row(alloc, &values)?;
        Ok(Some((copy_row(alloc, row)?, shown)))
    }
}

// The rows taken, in the order of ORDER BY.
fn in_order(
    taken: ListOf<(Row, Row)>,
    cols: &Columns,
    order: &OrderList,
) -> Result<Vec<(Row, Row)>, NoMemory>
    ensures { IfOk result (λ v. v.items ≡ sorted_by (λ a b. is_before cols.now order.now a.0 b.0) taken) }
{
    let mut sorted = taken.into_vec();
    sorted.sort_by(|a, b| compare_rows(cols, order.as_slice(), &a.0, &b.0))?;
    Ok(sorted)
}

/// What is shown of the rows taken, in the order of ORDER BY.
pub(crate) fn shown_in_order(
    alloc: Global,
    taken: ListOf<(Row, Row)>,
    cols: &Columns,
    order: &OrderList,
) -> Result<RowList, NoMemory>
    ensures { IfOk result (λ rows. rows ≡ shown_in_order cols.now order.now taken) }
{
    let mut rows = RowList::new(alloc);
    for (_, shown) in in_order(taken, cols, order)? {
        rows.push(shown)?;
    }
    Ok(rows)
}
