//! What all layouts of a table share: the walk over its pages, its rows, and what a plan of edits promises.
#![tactic(auto)]

mod addresses;
mod differences;
mod find;
mod index;
mod key;
mod law;
mod layout;
mod limits;
mod plan;
mod refusal;
mod row_map;
mod rows;
mod visit;

pub use addresses::{names_none, page_at};
pub use byte_fields::address;
pub use differences::add_differences;
pub use find::{Find, Wants};
pub use index::{page_index, place};
pub use key::{copy_row, key_of, key_size};
pub use law::{
    a_row_may_be_filled_in, addresses_are_read, plans_are_carried_on, plans_depend_on_owned_pages,
    plans_depend_on_the_claimed_pages, rows_are_one, rows_depend_on_owned_pages,
};
pub use layout::{Layout, Walked, walk, walk_with, wants_of};
pub use limits::may_put;
pub use plan::{Edit, EditList, Plan, Spot};
pub use refusal::SeenRefusal;
pub use row_map::RowMap;
pub use rows::{read_row, row_of, rows_of};
pub use visit::{Visit, is_leaf};
