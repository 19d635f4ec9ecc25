//! What an UPDATE or a DELETE does to each row of a table.

ghost use Rattle.std.specs.Prelude.{◌≡◌};
ghost use Rattle.sql_eval.specs.Given.{Gives};
ghost use Rattle.plain_model.specs.Changing.{set_to, set_row, updated_row, deleted_row};

use crate::keys::key_of;
use crate::refusal::RowRefusal;
use crate::rows::{RowWork, keeps};
use crate::storing::{kept_as, row_fault};
use page_base::{Column, Columns, Row, Value};
use plain_model::{Expr, SetItem, SetList};
use sql_eval::{EvalRefusal, cell, value};
use std::alloc::Global;

// What a column holds after the SETs, which see the old row.
fn set_to(
    alloc: Global,
    sets: &[SetItem],
    cols: &Columns,
    row: &Row,
    column: &Column,
) -> Result<Value, EvalRefusal>
    ensures { Gives result (set_to sets.now cols.now row.now column.now) }
{
    match sets {
        [] => Ok(cell(alloc, cols, row, &column.name)?),
        [set, rest @ ..] => {
            if !column.name.is_same(&set.col) {
                return set_to(alloc, rest, cols, row, column);
            }
            let found = value(alloc, &set.to, cols, row)?;
            kept_as(column.kind, found).ok_or(EvalRefusal::Overflow)
        }
    }
}

// A row after the SETs.
fn set_row(alloc: Global, sets: &SetList, cols: &Columns, row: &Row) -> Result<Row, EvalRefusal>
    ensures { Gives result (set_row sets.now cols.now row.now) }
{
    let mut new = Row::new(alloc);
    for column in cols.as_slice() {
        new.push(set_to(alloc, sets.as_slice(), cols, row, column)?)?;
    }
    Ok(new)
}

/// An UPDATE of the rows that a filter keeps.
#[derive(Drop)]
pub(crate) struct Updating<'a> {
    pub sets: &'a SetList,
    pub filter: &'a Option<Expr>,
    pub cols: &'a Columns,
}

impl RowWork<Row> for Updating<'_> {
    ghost use Rattle.plain_model.specs.Changing.{updated_row};

    ghost outcome = { λ work row. updated_row work.sets.now work.filter.now work.cols.now row };

    fn on_row(&self, alloc: Global, row: &Row) -> Result<Option<Row>, RowRefusal> {
        if !keeps(alloc, self.filter, self.cols, row)? {
            return Ok(None);
        }
        let new = set_row(alloc, self.sets, self.cols, row)?;
        match row_fault(self.cols.as_slice(), &new) {
            Some(number) => Err(RowRefusal::Refused(number)),
            None => Ok(Some(new)),
        }
    }
}

/// A DELETE of the rows that a filter keeps, of each of which the key is taken.
#[derive(Drop)]
pub(crate) struct Deleting<'a> {
    pub filter: &'a Option<Expr>,
    pub cols: &'a Columns,
}

impl RowWork<Row> for Deleting<'_> {
    ghost use Rattle.plain_model.specs.Changing.{deleted_row};

    ghost outcome = { λ work row. deleted_row work.filter.now work.cols.now row };

    fn on_row(&self, alloc: Global, row: &Row) -> Result<Option<Row>, RowRefusal> {
        if keeps(alloc, self.filter, self.cols, row)? {
            Ok(Some(key_of(alloc, self.cols.as_slice(), row)?))
        } else {
            Ok(None)
        }
    }
}
