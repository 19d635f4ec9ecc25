//! A history that only proofs read: it takes no memory and does nothing when it runs.
#![tactic(auto)]

mod log;
mod tally;

pub use log::Log;
pub use tally::Tally;
