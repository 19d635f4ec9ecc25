//! The rows of a table gone through in turn, up to the first that is refused.

ghost use Rattle.std.specs.Prelude.{◌≡◌, List, map};
ghost use Rattle.page_base.specs.declared.value.Value.{Value};
ghost use Rattle.plain_model.specs.Messages.{at_place};
ghost use Rattle.plain_model.specs.Outcomes.{Outcome, taken_from, keeps};
ghost use Rattle.stmt_eval.specs.Refusing.{stop_at};
ghost use Rattle.stmt_eval.specs.Given.{Becomes, Takes};
ghost use Rattle.sql_eval.specs.Given.{Gives};

use crate::refusal::{RowRefusal, Stop};
use page_base::{Columns, ListOf, Row, RowList, Truth};
use plain_model::{Carried, Expr, Message};
use sql_eval::{EvalRefusal, truth};
use std::alloc::Global;

/// What a statement does of one row.
pub(crate) trait RowWork<T> {
    ghost outcome: { Self → List Value → Outcome T };

    /// What is taken of a row, or None where the row is passed over; `Refused` exactly where the row is refused.
    fn on_row(&self, alloc: Global, row: &Row) -> Result<Option<T>, RowRefusal>
        ensures { Becomes result (outcome self.now row.now) };
}

/// A message that carries a place.
pub(crate) fn at_place(number: u32, place: usize) -> Message
    ensures { result ≡ at_place number place }
{
    Message {
        number,
        carried: Carried::Number(place as u64),
    }
}

/// The stop at a row of this place that is refused.
pub(crate) fn stop_at(why: RowRefusal, place: usize) -> Stop
    ensures { result ≡ stop_at why place }
{
    match why {
        RowRefusal::Refused(number) => Stop::Refused(at_place(number, place)),
        RowRefusal::Memory => Stop::Memory,
    }
}

/// What is taken of the rows, or the refusal of the first that is refused, with its place from 1.
pub(crate) fn taken<T: Drop, W: RowWork<T>>(
    alloc: Global,
    work: &W,
    rows: &RowList,
) -> Result<ListOf<T>, Stop>
    ensures { Takes result (taken_from 1 (map (W.outcome work.now) rows.now)) }
{
    let mut taken = ListOf::new(alloc);
    for (i, row) in rows.as_slice().iter().enumerate() {
        let kept = match work.on_row(alloc, row) {
            Ok(kept) => kept,
            Err(why) => return Err(stop_at(why, i + 1)),
        };
        let Some(x) = kept else {
            continue;
        };
        taken.push(x)?;
    }
    Ok(taken)
}

/// Whether a filter keeps a row. `Overflow` exactly where a number in it is outside its type.
pub(crate) fn keeps(
    alloc: Global,
    filter: &Option<Expr>,
    cols: &Columns,
    row: &Row,
) -> Result<bool, EvalRefusal>
    ensures { Gives result (keeps cols.now filter.now row.now) }
{
    match filter {
        None => Ok(true),
        Some(e) => {
            let found = truth(alloc, e, cols, row)?;
            Ok(matches!(found, Truth::True))
        }
    }
}
