//! What a session's step does, by its kind.

/// The kind of a step of the engine. A schedule names a kind by its word in lower case, and `Flush` by none.
#[derive(Clone, Copy, Debug, PartialEq, Eq)]
pub enum Kind {
    /// Takes the next statement, and answers what needs no page and no lock.
    Start,
    /// Takes a table lock, or is refused it.
    Lock,
    /// Takes a page's latch.
    Latch,
    /// In a snapshot: finds whether the page was copied.
    Look,
    /// Brings a page in.
    Fetch,
    /// Takes in a page without rows of the statement's table.
    Seek,
    /// Takes in a page with such rows.
    Read,
    /// Decides refusals by the data, and the edits.
    Plan,
    /// Lets go of an allocation page that has no free page.
    Pass,
    /// Copies a page to a snapshot's sparse file.
    Copy,
    /// Puts a copied page into the snapshot's map.
    Mark,
    /// Takes a free page.
    Claim,
    /// Sets one slot.
    Change,
    /// Undoes the last record.
    Back,
    /// Undoes the last record that a snapshot owes, on its sparse page.
    Heal,
    /// Does the checks and the cut of CREATE DATABASE.
    Cut,
    /// Takes in one copied page for a revert.
    Gather,
    /// Reverts.
    Swap,
    /// Appends to the log, frees the locks, and answers.
    Commit,
    /// Answers.
    Say,
    /// Ends the session.
    Leave,
    /// Writes one page to its data file; the flusher's.
    Flush,
}
