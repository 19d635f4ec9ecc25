//! What trees of pages keep: their definitions, and their laws as functions whose contracts say them.
#![tactic(auto)]

mod child;
mod law;

pub use child::Child;
pub use law::{
    a_look_up_finds, a_look_up_has_one_page_a_level, a_look_up_stays_in_its_tree,
    a_page_is_read_as_it_is_spelled, a_table_is_a_tree, a_tree_is_a_table, a_tree_stays_one,
    a_tree_stays_one_where_it_is_looked_at, parts_are_filled,
};
