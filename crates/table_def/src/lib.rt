//! The parts of a CREATE TABLE as they are written, and the columns that they define.
#![tactic(auto)]

mod columns;
mod faults;
mod keys;
mod kinds;
mod law;
mod names;
mod options;
mod parts;
#[cfg(test)]
mod tests;

pub use columns::columns_of;
pub use law::{defined_columns_are_good, no_columns_are_those_of_a_bad_definition};
pub use parts::{ColumnOption, ColumnPart, OptionList, TablePart, TableParts, WrittenType};
