//! One snapshot's sparse files, with the map of the pages that were copied into them.
#![tactic(auto)]

mod file_map;
mod sparse_files;
#[cfg(test)]
mod tests;
mod words;

pub use sparse_files::SparseSet;
