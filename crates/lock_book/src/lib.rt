//! Which session holds which table in which mode, and who is in the way of one more lock.
#![tactic(auto)]

mod book;
mod lock;
#[cfg(test)]
mod tests;

pub use book::LockBook;
pub use lock::{Lock, LockRefusal};
