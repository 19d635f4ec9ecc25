//! What the log tells, entry by entry.

use crate::Work;
use page_base::{ListOf, Name};

/// What happened: a transaction that committed with these records, or a revert to the snapshot of this name.
#[derive(Debug, Drop)]
pub enum LogEntry {
    Commit(Work),
    Revert(Name),
}

/// The entries of a log, the oldest first.
pub type LogList = ListOf<LogEntry>;
