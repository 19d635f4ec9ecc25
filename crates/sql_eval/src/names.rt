//! The first name in an expression that is no column.

ghost use Rattle.std.specs.Prelude.{◌≡◌};
ghost use Rattle.plain_model.specs.Tree.{tree_of, entries_of};
ghost use Rattle.plain_model.specs.Names.{first_unknown, first_unknown_in, is_unknown};

use crate::values::place_of;
use page_base::{Columns, Name};
use plain_model::{Expr, InRest};

// Whether no column has the name.
fn is_unknown(cols: &Columns, name: &Name) -> bool
    ensures { result ≡ is_unknown cols.now name.now }
{
    place_of(cols, name).is_none()
}

/// The first name from the left that is no column; None where all are.
#[cycle(unknown)]
#[tactic(auto, using(crate::proofs::Finding::find_append))]
pub fn first_unknown(e: &Expr, cols: &Columns) -> Option<Name>
    ensures { result ≡ first_unknown cols.now (tree_of e.now) }
{
    match e {
        Expr::Null | Expr::Number(_) | Expr::Text(_) => None,
        Expr::Col(name) => if is_unknown(cols, name) {
            Some(*name)
        } else {
            None
        },
        Expr::Neg(e) | Expr::IsNull(e) | Expr::Not(e) => first_unknown(e, cols),
        Expr::Math(_, a, b) | Expr::Compare(_, a, b) => first_unknown(a, cols).or(first_unknown(
            b, cols,
        )),
        Expr::And(a, b) | Expr::Or(a, b) => first_unknown(a, cols).or(first_unknown(b, cols)),
        Expr::Between(x, a, b) => first_unknown(x, cols)
            .or(first_unknown(a, cols))
            .or(first_unknown(b, cols)),
        Expr::In(x, rest) => first_unknown(x, cols).or(first_unknown_in(rest, cols)),
    }
}

// The same, in the list of an IN.
#[cycle(unknown)]
#[tactic(auto, using(crate::proofs::Finding::find_append))]
fn first_unknown_in(rest: &InRest, cols: &Columns) -> Option<Name>
    ensures { result ≡ first_unknown_in cols.now (entries_of rest.now) }
{
    match rest {
        InRest::Last(e) => first_unknown(e, cols),
        InRest::More(e, rest) => first_unknown(e, cols).or(first_unknown_in(rest, cols)),
    }
}
