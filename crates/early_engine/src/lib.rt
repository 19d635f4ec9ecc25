//! The engine: statements carried out on pages, with snapshots over them and a history that tells of each.
#![tactic(auto)]

mod answer;
mod answering;
mod choosing;
mod closing;
mod course;
mod creating;
mod database;
mod deciding;
mod decision;
mod editing;
mod engine;
mod ledger;
mod moved;
mod pushing;
mod refusal;
mod seat;
mod seeing;
#[cfg(test)]
mod tests;
mod verdicts;

pub use closing::CloseEnd;
pub use engine::{Closed, Engine, OpenRefused};
pub use ledger::Ledger;
pub use moved::Moved;
pub use seat::Seat;
