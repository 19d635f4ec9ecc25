//! Reads scripts: sessions of batches, and a schedule.
#![tactic(auto)]

mod batch;
mod class;
mod decimal;
mod fault;
mod law;
mod pick;
mod reader;
mod refusal;
mod schedule;
mod script;
mod session;
#[cfg(test)]
mod tests;

pub use law::{picks_are_read_as_written, scripts_have_one_reading, scripts_have_one_refusal};
pub use refusal::{ScriptRefusal, Why};
pub use script::{Work2, read_script};
