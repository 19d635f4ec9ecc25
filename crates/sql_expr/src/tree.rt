//! How the tree of an expression is put together; each piece has memory of its own.

ghost use Rattle.std.specs.Prelude.{◌≡◌, IfOk, option_map};
ghost use Rattle.plain_model.specs.Tree.{tree_of, entries_of, Neg, Not, IsNull, Between, In, Last, More};
ghost use Rattle.sql_expr.specs.Grammar.{joined, negated};
ghost use Rattle.sql_expr.specs.Roles.{null_of, column_of};

use crate::Role;
use page_base::{Name, NoMemory};
use plain_model::{Expr, InRest};
use std::alloc::Global;

// An expression that was read, the place where it begins, and how many operators may still come behind it.
#[derive(Drop)]
pub(crate) struct Read {
    pub tree: Expr,
    pub at: u32,
    pub spare: u32,
}

// NULL, if the word is that.
pub(crate) fn null(role: Role) -> Option<Expr>
    ensures { option_map tree_of result ≡ null_of role }
{
    match role {
        Role::Null => Some(Expr::Null),
        _ => None,
    }
}

// A column, where names may stand.
pub(crate) fn column(names: bool, name: Name) -> Option<Expr>
    ensures { option_map tree_of result ≡ column_of names name }
{
    if names { Some(Expr::Col(name)) } else { None }
}

pub(crate) fn joined(
    alloc: Global,
    operator: Role,
    left: Expr,
    right: Expr,
) -> Result<Expr, NoMemory>
    ensures { IfOk result (λ e. tree_of e ≡ joined operator (tree_of left) (tree_of right)) }
{
    match operator {
        Role::Or => Ok(Expr::Or(Box::new(alloc, left)?, Box::new(alloc, right)?)),
        Role::And => Ok(Expr::And(Box::new(alloc, left)?, Box::new(alloc, right)?)),
        Role::Math(op) => Ok(Expr::Math(op, Box::new(alloc, left)?, Box::new(alloc, right)?)),
        Role::Compare(op) => Ok(Expr::Compare(op, Box::new(alloc, left)?, Box::new(alloc, right)?)),
        _ => Ok(Expr::Null),
    }
}

pub(crate) fn opposite(alloc: Global, tree: Expr) -> Result<Expr, NoMemory>
    ensures { IfOk result (λ e. tree_of e ≡ Neg (tree_of tree)) }
{
    Ok(Expr::Neg(Box::new(alloc, tree)?))
}

pub(crate) fn denied(alloc: Global, tree: Expr) -> Result<Expr, NoMemory>
    ensures { IfOk result (λ e. tree_of e ≡ Not (tree_of tree)) }
{
    Ok(Expr::Not(Box::new(alloc, tree)?))
}

// With or without a NOT.
fn negated(alloc: Global, negative: bool, tree: Expr) -> Result<Expr, NoMemory>
    ensures { IfOk result (λ e. tree_of e ≡ negated negative (tree_of tree)) }
{
    if negative {
        denied(alloc, tree)
    } else {
        Ok(tree)
    }
}

pub(crate) fn null_test(alloc: Global, negative: bool, left: Expr) -> Result<Expr, NoMemory>
    ensures { IfOk result (λ e. tree_of e ≡ negated negative (IsNull (tree_of left))) }
{
    let tree = Expr::IsNull(Box::new(alloc, left)?);
    negated(alloc, negative, tree)
}

pub(crate) fn between(
    alloc: Global,
    negative: bool,
    left: Expr,
    low: Expr,
    high: Expr,
) -> Result<Expr, NoMemory>
    ensures { IfOk result (λ e. tree_of e ≡ negated negative (Between (tree_of left) (tree_of low) (tree_of high))) }
{
    let tree = Expr::Between(
        Box::new(alloc, left)?,
        Box::new(alloc, low)?,
        Box::new(alloc, high)?,
    );
    negated(alloc, negative, tree)
}

pub(crate) fn membership(
    alloc: Global,
    negative: bool,
    left: Expr,
    entries: InRest,
) -> Result<Expr, NoMemory>
    ensures { IfOk result (λ e. tree_of e ≡ negated negative (In (tree_of left) (entries_of entries))) }
{
    let tree = Expr::In(Box::new(alloc, left)?, Box::new(alloc, entries)?);
    negated(alloc, negative, tree)
}

pub(crate) fn last(alloc: Global, entry: Expr) -> Result<InRest, NoMemory>
    ensures { IfOk result (λ es. entries_of es ≡ Last (tree_of entry)) }
{
    Ok(InRest::Last(Box::new(alloc, entry)?))
}

pub(crate) fn more(alloc: Global, entry: Expr, rest: InRest) -> Result<InRest, NoMemory>
    ensures { IfOk result (λ es. entries_of es ≡ More (tree_of entry) (entries_of rest)) }
{
    Ok(InRest::More(Box::new(alloc, entry)?, Box::new(alloc, rest)?))
}
