//! A table that is read page by page.
#![tactic(auto)]

mod law;
mod layout;
mod scan;
#[cfg(test)]
mod tests;

pub use law::a_table_is_read_whole;
pub use layout::first;
pub use scan::Scan;
