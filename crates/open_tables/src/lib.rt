//! Open changes on the pages of tables: each record of a session can be taken back, and lies where that session writes.
#![tactic(auto)]

mod law;

pub use law::{records_are_kept_and_taken_back, records_lie_where_their_session_writes};
