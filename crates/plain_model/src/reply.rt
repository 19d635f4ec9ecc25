//! What a statement is answered.

use page_base::{Name, RowList};

/// What a message carries beside its number.
#[derive(Clone, Copy, Debug, PartialEq, Eq)]
pub enum Carried {
    Nothing,
    Number(u64),
    Named(Name),
}

/// A refusal by its number, after the message numbers of SQL Server below 60001.
#[derive(Clone, Copy, Debug, PartialEq, Eq)]
pub struct Message {
    pub number: u32,
    pub carried: Carried,
}

/// The reply to a statement; in its rows every number is a `Big`.
#[derive(Debug, Drop)]
pub enum Reply {
    Ok,
    Count(u64),
    Rows(RowList),
    Msg(Message),
}
