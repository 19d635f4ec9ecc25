//! The bytes of a row: one spelling for each row of some columns.
#![tactic(auto)]

mod decoding;
mod encoding;
mod fitting;
mod reader;
mod refusal;
mod sizes;
#[cfg(test)]
mod tests;

pub use decoding::decode;
pub use encoding::encode;
pub use fitting::fits;
pub use refusal::RowRefusal;
pub use sizes::{key_size, size};
