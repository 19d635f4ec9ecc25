//! The snapshots that there are, in order of their cuts, with what each still owes.
#![tactic(auto)]

mod catalog;
mod snapshot;
#[cfg(test)]
mod tests;

pub use catalog::{FileNames, SnapCat};
pub use snapshot::SnapState;
