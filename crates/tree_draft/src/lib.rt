//! Pages of a tree in memory: rows put where they go, in key order, and laid in parts.
#![tactic(auto)]

mod law;
mod leaf;
mod ordering;
mod parts;
mod row;
#[cfg(test)]
mod tests;

pub use law::an_entry_is_found_slot_by_slot;
pub use leaf::{cut_row, with_row};
pub use ordering::rows_in_order;
pub use parts::{Takes, filled};
pub use row::{KeyedRow, SpelledRow};
