//! Values, truths and types of expressions over a row.
#![tactic(auto)]

mod compare;
mod kinds;
mod law;
mod logic;
mod math;
mod names;
mod ordering;
mod refusal;
#[cfg(test)]
mod tests;
mod truths;
mod types;
mod typing;
mod values;

pub use kinds::{column_type, comparison_type};
pub use law::{
    an_overflow_is_that_of_the_whole, between_is_two_comparisons, in_is_equalities, or_is_not_and,
};
pub use math::{number_in, stored};
pub use names::first_unknown;
pub use ordering::{compare_rows, order_rows};
pub use plain_model::ExprType;
pub use refusal::EvalRefusal;
pub use truths::truth;
pub use types::TypeRefusal;
pub use typing::{tree_type, type_of};
pub use values::{cell, place_of, value};
