//! What a statement is answered, and under which locks.

use page_base::{Mode, Name};
use plain_model::Reply;

/// The reply to a statement, and the locks under which it is given.
#[derive(Drop)]
pub(crate) enum Answer {
    /// Without a lock.
    AtOnce(Reply),
    /// Under a lock of all tables.
    UnderAll(Mode, Reply),
    /// Under a lock of all tables in S, and one of this table.
    UnderTable(Name, Mode, Reply),
}
