//! What a transaction changed: its records, and the log of transactions and reverts.
#![tactic(auto)]

mod entries;
mod law;
mod reader;
mod reading;
mod refusal;
mod slot_record;
#[cfg(test)]
mod tests;
mod transaction;
mod writing;

pub use entries::{LogEntry, LogList};
pub use law::undone_pages_are_undone_slots;
pub use reading::read_log;
pub use refusal::LogForm;
pub use slot_record::Rec;
pub use transaction::Work;
pub use writing::{commit_bytes, revert_bytes};
