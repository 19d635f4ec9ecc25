//! The text of a history, written and read back.
#![tactic(auto)]

mod book;
mod heading;
mod law;
mod lines;
mod number;
mod pieces;
mod print;
mod refusal;
#[cfg(test)]
mod tests;
mod value;
mod value_text;

pub use book::read_book;
pub use law::{
    histories_have_one_refusal, printed_histories_have_one_reading, what_is_printed_is_read_back,
};
pub use print::{print_book, print_event};
pub use refusal::BookRefusal;
