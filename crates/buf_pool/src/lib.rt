//! The data files' pages, of which so many at most are in memory.
#![tactic(auto)]

mod editing;
mod eviction;
mod fetching;
mod flushing;
mod frame;
mod pins;
mod pool;
mod refusal;
#[cfg(test)]
mod tests;

pub use frame::Frame;
pub use pool::{Pool, may_move};
pub use refusal::FetchRefusal;
