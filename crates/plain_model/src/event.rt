//! What happens at one moment of a history.

use crate::Reply;
use page_base::{ListOf, Mode, Name, SessNo};

/// What is locked: the table of tables, or a table.
#[derive(Clone, Copy, Debug, PartialEq, Eq)]
pub enum LockName {
    All,
    Table(Name),
}

/// An event of the history.
#[derive(Debug, Drop)]
pub enum Event {
    /// A session gained a lock in a new mode.
    Locked {
        who: SessNo,
        table: LockName,
        mode: Mode,
    },
    /// A snapshot was cut for a session.
    CutAt {
        who: SessNo,
        snap: Name,
    },
    /// A session began to revert the source to a snapshot.
    RestoreAt {
        who: SessNo,
        snap: Name,
    },
    /// A snapshot turned suspect.
    Turned {
        snap: Name,
    },
    /// A statement of a session was answered; `number` counts its statements from 1, and `began` is the
    /// length of the history when it began.
    Said {
        who: SessNo,
        number: u32,
        began: u32,
        reply: Reply,
    },
    /// A session ended.
    Left {
        who: SessNo,
    },
}

/// The history: the events in their order.
pub type Book = ListOf<Event>;
