//! Each table on a page of its own: how its pages are read, found and edited.
#![tactic(auto)]

mod changing;
mod differing;
mod draft;
mod edit;
mod finding;
mod header;
mod key;
mod key_index;
mod law;
mod page;
mod planning;
mod reader;
mod stored;
#[cfg(test)]
mod tests;

pub use changing::plan_change;
pub use edit::{Edit, EditList};
pub use finding::{data_pages, find, place};
pub use key::key_of;
pub use law::{rows_are_read_as_spelled, rows_have_their_size};
pub use page::{columns, has_key, is_blank, is_named, read_table};
pub use planning::plan_create;
pub use stored::StoredTable;
