//! How far a statement on tables is.

use page_base::PageId;

/// What a session's current database is: none, the source, or a snapshot.
#[derive(Clone, Copy, Debug, PartialEq, Eq)]
pub enum DbKind {
    Master,
    Source,
    Snap,
}

/// How far a statement on tables is. A page that is named is the one that is read next.
#[derive(Clone, Copy, Debug, PartialEq, Eq)]
pub enum Stage {
    /// It asks for the lock on the table of tables.
    AskAll,
    /// It reads the table of tables.
    ScanZero { page: PageId },
    /// It asks for the lock on its own table.
    AskTable,
    /// It reads its own table; `rows` tells whether it wants the page's rows.
    Scan { page: PageId, rows: bool },
    /// It has read what it needs, and decides.
    Plan,
    /// It claims pages.
    Claim,
    /// It edits pages.
    Edit,
    /// It has its reply.
    End,
}
