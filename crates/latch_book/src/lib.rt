//! Which session holds which page, and who is in the way of one more latch.
#![tactic(auto)]

mod book;
mod latch;
#[cfg(test)]
mod tests;

pub use book::LatchBook;
pub use latch::{Held, Latch, LatchMode};
