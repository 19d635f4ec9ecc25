//! What a statement needs next.

use page_base::{Mode, PageId, TableNo};
use plain_model::LockName;

/// What a statement needs next.
#[derive(Clone, Copy, Debug, PartialEq, Eq)]
pub enum Need {
    /// A lock.
    Lock {
        table: LockName,
        number: TableNo,
        mode: Mode,
    },
    /// To read a page, with rows of its table where `rows`.
    Visit {
        page: PageId,
        rows: bool,
    },
    /// To plan its claims and edits.
    Plan,
    /// To claim a free page, which gets this owner.
    Claim {
        owner: u32,
    },
    /// To edit a slot of a page.
    Edit {
        page: PageId,
    },
    /// Nothing: it has its reply.
    Finish,
}
