//! A table in a tree of pages by key: what is to be read of it, and its rows.
#![tactic(auto)]

mod chosen;
mod entries;
mod keys;
mod layout;
mod reading;
mod root;
mod sorting;
#[cfg(test)]
mod tests;

pub use reading::{rows, wants};
pub use root::new_root;
