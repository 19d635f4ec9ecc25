//! The grammar of statements.
#![tactic(auto)]

mod batch;
mod database;
mod insert;
mod law;
mod pieces;
mod production;
mod select;
mod session;
mod stmt;
mod table;
mod take;
mod update;

pub use batch::{ended, statements};
pub use law::{
    batches_are_told_by_their_tokens, batches_say_one_thing, one_token_tells_how_to_go_on,
};
pub use stmt::{is_statement_ahead, statement};
