//! The source's pages, and snapshots over them that are copied page by page before the first change.
#![tactic(auto)]

mod early_pages;
mod images;
mod snap_cat;
mod snapshot;
mod sparse_set;
mod state;
#[cfg(test)]
mod tests;

pub use early_pages::SnapPages;
pub use snap_cat::{FileNames, SnapCat};
pub use sparse_set::SparseSet;
pub use state::{Place, SnapState};
