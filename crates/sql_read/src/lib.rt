//! Reads batches of statements.
#![tactic(auto)]

mod batch;
mod law;
mod stmt_place;
#[cfg(test)]
mod tests;

pub use batch::parse;
pub use law::{
    batches_have_one_reading, missing_statements_have_one_place, refusals_have_one_place,
    statements_have_one_place, statements_have_places,
};
pub use sql_lex::ParseRefusal;
pub use stmt_place::statement_place;
