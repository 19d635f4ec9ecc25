//! What a token is to an expression, and the levels of the grammar of expressions.

use plain_model::{CompareOp, MathOp};

/// What a token is to an expression. A leaf is a name, a number or a text.
#[derive(Clone, Copy, Debug, PartialEq, Eq)]
pub enum Role {
    Or,
    And,
    Not,
    Is,
    Null,
    Between,
    In,
    Open,
    Close,
    Comma,
    Math(MathOp),
    Compare(CompareOp),
    Leaf,
    Other,
}

/// The levels of the grammar of expressions, the loosest first.
#[derive(Clone, Copy, Debug, PartialEq, Eq)]
pub enum Level {
    Ors,
    Ands,
    Nots,
    Comps,
    Sums,
    Prods,
    Unaries,
}
