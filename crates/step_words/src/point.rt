//! Where a session stands: what its next step does.

use page_base::{Mode, PageId, TableNo};
use plain_model::LockName;

/// Where a session stands.
#[derive(Clone, Copy, Debug, PartialEq, Eq)]
pub enum Point {
    /// It takes its next statement.
    Start,
    /// It asks for a lock.
    Lock {
        table: LockName,
        number: TableNo,
        mode: Mode,
    },
    /// It asks for a page's latch, to change the page where `ex`.
    Latch {
        page: PageId,
        ex: bool,
    },
    /// In a snapshot: it finds whether the page was copied.
    Look {
        page: PageId,
    },
    /// It brings the page in.
    Fetch {
        page: PageId,
    },
    /// It takes in what stands on the page.
    Take {
        page: PageId,
        rows: bool,
    },
    /// It plans its claims and edits.
    Plan,
    /// It claims a page for this owner.
    Claim {
        owner: u32,
    },
    /// It changes a slot of the page.
    Change {
        page: PageId,
    },
    /// It takes records back: those of the whole transaction where `all`.
    Undo {
        all: bool,
    },
    /// It cuts a snapshot.
    Cut,
    /// It takes back what the new snapshot owes.
    Heal,
    /// It gathers the copied pages of a snapshot.
    Gather,
    /// It reverts the source.
    Swap,
    /// It commits.
    Commit,
    /// It answers.
    Say,
    /// It ends.
    Leave,
    /// It has ended.
    Gone,
}
