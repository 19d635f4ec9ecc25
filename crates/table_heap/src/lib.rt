//! A table in a heap of pages: what is to be read of it, its rows, and the edits that change them.
#![tactic(auto)]

mod draft;
mod emission;
mod growing;
mod law;
mod layout;
mod leaf;
mod places;
#[cfg(test)]
mod plan_tests;
mod planning;
mod reading;
mod root_edits;
#[cfg(test)]
mod tests;
mod turns;

pub use law::{heaps_keep_by_keys, placed_rows_are_the_rows};
pub use layout::{Heap, new_root};
pub use planning::plan;
pub use reading::{rows, wants};
pub use table_walk::may_put;
