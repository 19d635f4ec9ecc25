//! The truth of an expression over a row.

ghost use Rattle.std.specs.Prelude.{◌≡◌};
ghost use Rattle.plain_model.specs.Tree.{tree_of, entries_of};
ghost use Rattle.sql_eval.specs.Given.{Gives};
ghost use Rattle.plain_model.specs.Truths.{comparison, among, truth_of};

use crate::EvalRefusal;
use crate::compare::{compared, null_test};
use crate::logic::{and3, not3, or3};
use crate::values::value;
use page_base::{Columns, Row, Truth};
use plain_model::{CompareOp, Expr, InRest};
use std::alloc::Global;

// Two expressions compared.
fn comparison(
    alloc: Global,
    op: CompareOp,
    a: &Expr,
    b: &Expr,
    cols: &Columns,
    row: &Row,
) -> Result<Truth, EvalRefusal>
    ensures { Gives result (comparison cols.now row.now op (tree_of a.now) (tree_of b.now)) }
{
    let left = value(alloc, a, cols, row)?;
    let right = value(alloc, b, cols, row)?;
    Ok(compared(op, &left, &right))
}

// Whether an expression equals one of the entries.
fn among(
    alloc: Global,
    rest: &InRest,
    x: &Expr,
    cols: &Columns,
    row: &Row,
) -> Result<Truth, EvalRefusal>
    ensures { Gives result (among cols.now row.now (tree_of x.now) (entries_of rest.now)) }
{
    match rest {
        InRest::Last(e) => comparison(alloc, CompareOp::Eq, x, e, cols, row),
        InRest::More(e, rest) => {
            let here = comparison(alloc, CompareOp::Eq, x, e, cols, row)?;
            let behind = among(alloc, rest, x, cols, row)?;
            Ok(or3(here, behind))
        }
    }
}

/// The truth of an expression over a row, UNKNOWN where it is no truth but a value. `Overflow` exactly where a number
/// in it is outside its type, even where the truth doesn't hang on it; `Memory` where a text can't be copied.
pub fn truth(alloc: Global, e: &Expr, cols: &Columns, row: &Row) -> Result<Truth, EvalRefusal>
    ensures { Gives result (truth_of cols.now row.now (tree_of e.now)) }
{
    match e {
        Expr::Compare(op, a, b) => comparison(alloc, *op, a, b, cols, row),
        Expr::IsNull(e) => Ok(null_test(&value(alloc, e, cols, row)?)),
        Expr::Between(x, a, b) => {
            let above = comparison(alloc, CompareOp::Ge, x, a, cols, row)?;
            let below = comparison(alloc, CompareOp::Le, x, b, cols, row)?;
            Ok(and3(above, below))
        }
        Expr::In(x, rest) => among(alloc, rest, x, cols, row),
        Expr::Not(e) => Ok(not3(truth(alloc, e, cols, row)?)),
        Expr::And(a, b) => {
            let left = truth(alloc, a, cols, row)?;
            let right = truth(alloc, b, cols, row)?;
            Ok(and3(left, right))
        }
        Expr::Or(a, b) => {
            let left = truth(alloc, a, cols, row)?;
            let right = truth(alloc, b, cols, row)?;
            Ok(or3(left, right))
        }
        _ => Ok(Truth::Unknown),
    }
}
