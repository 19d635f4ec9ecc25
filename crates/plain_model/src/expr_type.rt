//! The types of expressions.

/// The type of an expression: a number's, VARCHAR, that of a bare NULL, which fits every type, or a truth.
#[derive(Clone, Copy, Debug, PartialEq, Eq)]
pub enum ExprType {
    Int,
    Big,
    Text,
    Any,
    Truth,
}
