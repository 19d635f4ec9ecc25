//! The type of an expression over columns.

ghost use Rattle.std.specs.Prelude.{◌≡◌};
ghost use Rattle.plain_model.specs.Tree.{tree_of, entries_of};
ghost use Rattle.plain_model.specs.Types.{tree_type, entries_type};
ghost use Rattle.sql_eval.specs.Typed.{Typed};

use crate::kinds::{
    column_type, comparison_type, literal_type, logic_type, math_type, null_test_type,
};
use crate::names::first_unknown;
use crate::{ExprType, TypeRefusal};
use page_base::Columns;
use plain_model::{Expr, InRest};

/// The type of an expression; None where a name is no column, or the types of the parts don't fit. Takes no memory.
#[cycle(typing)]
pub fn tree_type(e: &Expr, cols: &Columns) -> Option<ExprType>
    ensures { result ≡ tree_type cols.now (tree_of e.now) }
{
    match e {
        Expr::Null => Some(ExprType::Any),
        Expr::Number(number) => Some(literal_type(*number)),
        Expr::Text(_) => Some(ExprType::Text),
        Expr::Col(name) => column_type(cols, name),
        Expr::Neg(e) => {
            let kind = tree_type(e, cols)?;
            math_type(kind, kind)
        }
        Expr::Math(_, a, b) => math_type(tree_type(a, cols)?, tree_type(b, cols)?),
        Expr::Compare(_, a, b) => comparison_type(tree_type(a, cols)?, tree_type(b, cols)?),
        Expr::IsNull(e) => null_test_type(tree_type(e, cols)?),
        Expr::Between(x, a, b) => {
            let kind = tree_type(x, cols)?;
            let above = comparison_type(kind, tree_type(a, cols)?)?;
            let below = comparison_type(kind, tree_type(b, cols)?)?;
            logic_type(above, below)
        }
        Expr::In(x, rest) => entries_type(rest, tree_type(x, cols)?, cols),
        Expr::Not(e) => {
            let kind = tree_type(e, cols)?;
            logic_type(kind, kind)
        }
        Expr::And(a, b) => logic_type(tree_type(a, cols)?, tree_type(b, cols)?),
        Expr::Or(a, b) => logic_type(tree_type(a, cols)?, tree_type(b, cols)?),
    }
}

// The type of a test for one of the entries.
#[cycle(typing)]
fn entries_type(rest: &InRest, x: ExprType, cols: &Columns) -> Option<ExprType>
    ensures { result ≡ entries_type cols.now x (entries_of rest.now) }
{
    match rest {
        InRest::Last(e) => comparison_type(x, tree_type(e, cols)?),
        InRest::More(e, rest) => {
            let here = comparison_type(x, tree_type(e, cols)?)?;
            let behind = entries_type(rest, x, cols)?;
            logic_type(here, behind)
        }
    }
}

/// The type of an expression over columns. `Column` exactly where a name is no column, with the first such from the
/// left; `Kind` exactly where all names are columns and the types don't fit. Takes no memory.
pub fn type_of(e: &Expr, cols: &Columns) -> Result<ExprType, TypeRefusal>
    ensures { Typed cols.now (tree_of e.now) result }
{
    if let Some(name) = first_unknown(e, cols) {
        return Err(TypeRefusal::Column(name));
    }
    tree_type(e, cols).ok_or(TypeRefusal::Kind)
}
