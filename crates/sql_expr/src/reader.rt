//! Reads an expression level by level; no call is under more others than the levels and lists of the expression need.

ghost use Rattle.std.specs.Prelude.{◌≡◌, ◌∷◌, ◌++◌, ◌≢◌, ◌≤◌, false, [], Bool, ℕ, List, length};
ghost use Rattle.plain_model.specs.Tree.{Tree, In, tree_of, entries_of};
ghost use Rattle.sql_expr.specs.declared.role.Level.TheVariants as levels;
ghost use Rattle.sql_expr.specs.declared.role.Role.TheVariants as roles;
ghost use Rattle.sql_expr.specs.Grammar.{inner};
ghost use Rattle.sql_expr.specs.Rules.{strict};
ghost use Rattle.sql_expr.specs.Symbols.{Part, Symbol, Want, May, Judge, Joining, Low, Entry, onto, membership};
ghost use Rattle.sql_expr.specs.Read.{run};
ghost use Rattle.sql_expr.specs.Steps.{IsCons, IsChain, part_of, Passes, listing};

use crate::ahead::{joins_truths, role_ahead};
use crate::steps::{
    Comparison, Start, and, comparing, enter, entry_end, judge, list_start, not_start, operator,
    shut, unary_start,
};
use crate::tree::{Read, between, denied, joined, last, membership, more, null_test, opposite};
use crate::{Level, Role};
use plain_model::{CompareOp, InRest};
use sql_lex::{ParseRefusal, Tokens};
use std::alloc::Global;

// A list of entries, and how many operators may still come behind it.
#[derive(Drop)]
pub(crate) struct Listing {
    pub entries: InRest,
    pub spare: u32,
}

// Something comes next.
pub(crate) fn there(tokens: &Tokens<'_>)
    ensures { IsCons tokens.now }
{
    let _role = role_ahead(tokens);
}

// An expression of the level.
#[cycle(reading)]
pub(crate) fn expression(
    alloc: Global,
    tokens: &mut Tokens<'_>,
    names: bool,
    n: u32,
    spare: u32,
    level: Level,
) -> Result<Read, ParseRefusal>
    ensures passes { (stack : List Symbol) (now : Part) → Passes result (run names strict (Want n level ∷ stack) now spare tokens.old) (λ x. run names strict stack (part_of x) x.spare tokens.new) }
    ensures shorter { length tokens.new ≤ length tokens.old }
{
    match level {
        Level::Ors => chain(alloc, tokens, names, n, spare, Level::Ors, Level::Ands),
        Level::Ands => chain(alloc, tokens, names, n, spare, Level::Ands, Level::Nots),
        Level::Nots => negation(alloc, tokens, names, n, spare),
        Level::Comps => comparison(alloc, tokens, names, n, spare),
        Level::Sums => chain(alloc, tokens, names, n, spare, Level::Sums, Level::Prods),
        Level::Prods => chain(alloc, tokens, names, n, spare, Level::Prods, Level::Unaries),
        Level::Unaries => unary(alloc, tokens, names, n, spare),
    }
}

// Operands of the inner level, joined from the left.
#[cycle(reading)]
fn chain(
    alloc: Global,
    tokens: &mut Tokens<'_>,
    names: bool,
    n: u32,
    spare: u32,
    level: Level,
    within: Level,
) -> Result<Read, ParseRefusal>
    requires chain { IsChain level }
    requires within { within ≡ inner level }
    ensures passes { (stack : List Symbol) (now : Part) → Passes result (run names strict (Want n level ∷ stack) now spare tokens.old) (λ x. run names strict stack (part_of x) x.spare tokens.new) }
    ensures shorter { length tokens.new ≤ length tokens.old }
{
    enter(tokens, level);
    let mut left = expression(alloc, tokens, names, n, spare, within)?;
    while let Some(joint) = operator(tokens, level, &left)? {
        let right = expression(alloc, tokens, names, n, joint.spare, within)?;
        judge(tokens, &right, joins_truths(joint.operator))?;
        left = Read {
            at: left.at,
            spare: right.spare,
            tree: joined(alloc, joint.operator, left.tree, right.tree)?,
        };
    }
    Ok(left)
}

// not: NOT not | comp
#[cycle(reading)]
fn negation(
    alloc: Global,
    tokens: &mut Tokens<'_>,
    names: bool,
    n: u32,
    spare: u32,
) -> Result<Read, ParseRefusal>
    ensures passes { (stack : List Symbol) (now : Part) → Passes result (run names strict (Want n levels.Nots ∷ stack) now spare tokens.old) (λ x. run names strict stack (part_of x) x.spare tokens.new) }
    ensures shorter { length tokens.new ≤ length tokens.old }
{
    match not_start(tokens, n, spare)? {
        Some(opened) => {
            let operand = negation(alloc, tokens, names, opened.n, opened.spare)?;
            judge(tokens, &operand, true)?;
            Ok(Read {
                at: opened.at,
                spare: operand.spare,
                tree: denied(alloc, operand.tree)?,
            })
        }
        None => {
            let read = comparison(alloc, tokens, names, n, spare)?;
            there(tokens);
            Ok(read)
        }
    }
}

// comp: sum, and what may make a truth of it
#[cycle(reading)]
fn comparison(
    alloc: Global,
    tokens: &mut Tokens<'_>,
    names: bool,
    n: u32,
    spare: u32,
) -> Result<Read, ParseRefusal>
    ensures passes { (stack : List Symbol) (now : Part) → Passes result (run names strict (Want n levels.Comps ∷ stack) now spare tokens.old) (λ x. run names strict stack (part_of x) x.spare tokens.new) }
    ensures shorter { length tokens.new ≤ length tokens.old }
{
    enter(tokens, Level::Comps);
    let left = expression(alloc, tokens, names, n, spare, Level::Sums)?;
    let found = comparing(tokens, &left)?;
    match found.comparison {
        Comparison::Nothing => Ok(Read {
            at: left.at,
            spare: found.spare,
            tree: left.tree,
        }),
        Comparison::Relation(op) => related(alloc, tokens, names, n, found.spare, op, left),
        Comparison::Null { negative } => Ok(Read {
            at: left.at,
            spare: found.spare,
            tree: null_test(alloc, negative, left.tree)?,
        }),
        Comparison::Between { negative } => {
            bounds(alloc, tokens, names, n, found.spare, negative, left)
        }
        Comparison::In { negative } => {
            let m = list_start(tokens, n)?;
            let list = entries(alloc, tokens, names, m, found.spare)?;
            Ok(Read {
                at: left.at,
                spare: list.spare,
                tree: membership(alloc, negative, left.tree, list.entries)?,
            })
        }
    }
}

// Behind an operator that compares: sum
#[cycle(reading)]
fn related(
    alloc: Global,
    tokens: &mut Tokens<'_>,
    names: bool,
    n: u32,
    spare: u32,
    op: CompareOp,
    left: Read,
) -> Result<Read, ParseRefusal>
    ensures passes { (stack : List Symbol) (now : Part) → Passes result (run names strict (Want n levels.Sums ∷ Judge false (Joining (roles.Compare op) (part_of left)) ∷ stack) now spare tokens.old) (λ x. run names strict stack (part_of x) x.spare tokens.new) }
    ensures shorter { length tokens.new ≤ length tokens.old }
{
    let right = expression(alloc, tokens, names, n, spare, Level::Sums)?;
    judge(tokens, &right, false)?;
    Ok(Read {
        at: left.at,
        spare: right.spare,
        tree: joined(alloc, Role::Compare(op), left.tree, right.tree)?,
    })
}

// Behind BETWEEN: sum AND sum
#[cycle(reading)]
fn bounds(
    alloc: Global,
    tokens: &mut Tokens<'_>,
    names: bool,
    n: u32,
    spare: u32,
    negative: bool,
    left: Read,
) -> Result<Read, ParseRefusal>
    ensures passes { (stack : List Symbol) (now : Part) → Passes result (run names strict (Want n levels.Sums ∷ Low n negative (part_of left) ∷ stack) now spare tokens.old) (λ x. run names strict stack (part_of x) x.spare tokens.new) }
    ensures shorter { length tokens.new ≤ length tokens.old }
{
    let low = expression(alloc, tokens, names, n, spare, Level::Sums)?;
    and(tokens, &low)?;
    let high = expression(alloc, tokens, names, n, low.spare, Level::Sums)?;
    judge(tokens, &high, false)?;
    Ok(Read {
        at: left.at,
        spare: high.spare,
        tree: between(alloc, negative, left.tree, low.tree, high.tree)?,
    })
}

// e { , e } )
#[cycle(reading)]
fn entries(
    alloc: Global,
    tokens: &mut Tokens<'_>,
    names: bool,
    n: u32,
    spare: u32,
) -> Result<Listing, ParseRefusal>
    ensures passes { (negative : Bool) (left : Part) (before : List Tree) (stack : List Symbol) (now : Part) → Passes result (run names strict (Want n levels.Ors ∷ Entry n negative left before ∷ stack) now spare tokens.old) (listing names negative left before stack tokens.new) }
    ensures shorter { length tokens.new ≤ length tokens.old }
{
    let entry = expression(alloc, tokens, names, n, spare, Level::Ors)?;
    match entry_end(tokens, &entry)? {
        Some(spare) => {
            let rest = entries(alloc, tokens, names, n, spare)?;
            Ok(Listing {
                spare: rest.spare,
                entries: more(alloc, entry.tree, rest.entries)?,
            })
        }
        None => Ok(Listing {
            spare: entry.spare,
            entries: last(alloc, entry.tree)?,
        }),
    }
}

// unary: - unary | name | number | text | NULL | ( e )
#[cycle(reading)]
fn unary(
    alloc: Global,
    tokens: &mut Tokens<'_>,
    names: bool,
    n: u32,
    spare: u32,
) -> Result<Read, ParseRefusal>
    ensures passes { (stack : List Symbol) (now : Part) → Passes result (run names strict (Want n levels.Unaries ∷ stack) now spare tokens.old) (λ x. run names strict stack (part_of x) x.spare tokens.new) }
    ensures shorter { length tokens.new ≤ length tokens.old }
{
    match unary_start(alloc, tokens, names, n)? {
        Start::Atom { tree, at } => Ok(Read { tree, at, spare }),
        Start::Bracket { n, at } => {
            let inside = expression(alloc, tokens, names, n, spare, Level::Ors)?;
            shut(tokens)?;
            Ok(Read {
                tree: inside.tree,
                at,
                spare: inside.spare,
            })
        }
        Start::Minus { n, at } => {
            let operand = unary(alloc, tokens, names, n, spare)?;
            judge(tokens, &operand, false)?;
            Ok(Read {
                at,
                spare: operand.spare,
                tree: opposite(alloc, operand.tree)?,
            })
        }
    }
}
