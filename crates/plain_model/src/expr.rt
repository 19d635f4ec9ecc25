//! Expressions as trees: brackets are gone, and IS NOT, NOT BETWEEN and NOT IN stand under a `Not`.

use page_base::{Bytes, Name};

/// An operator that takes two numbers and gives one.
#[derive(Clone, Copy, Debug, PartialEq, Eq)]
pub enum MathOp {
    Add,
    Sub,
    Mul,
}

/// An operator that compares two numbers or two texts.
#[derive(Clone, Copy, Debug, PartialEq, Eq)]
pub enum CompareOp {
    Eq,
    Ne,
    Lt,
    Le,
    Gt,
    Ge,
}

/// The list of an IN, from one of its entries on.
#[derive(Debug, Drop)]
#[cycle(expr)]
pub enum InRest {
    Last(Box<Expr>),
    More(Box<Expr>, Box<InRest>),
}

/// An expression, with a number, text or truth for its value.
#[derive(Debug, Drop)]
#[cycle(expr)]
pub enum Expr {
    Null,
    Number(i64),
    Text(Bytes),
    Col(Name),
    Neg(Box<Expr>),
    Math(MathOp, Box<Expr>, Box<Expr>),
    Compare(CompareOp, Box<Expr>, Box<Expr>),
    IsNull(Box<Expr>),
    Between(Box<Expr>, Box<Expr>, Box<Expr>),
    In(Box<Expr>, Box<InRest>),
    Not(Box<Expr>),
    And(Box<Expr>, Box<Expr>),
    Or(Box<Expr>, Box<Expr>),
}
