//! What a table statement does to its table, and what it is answered.

use page_base::RowList;
use plain_model::{Message, Reply};

/// Rows to put in place of those of their keys, keys whose rows are cut, and the reply; only one of the lists is filled.
#[derive(Debug, Drop)]
pub struct Effect {
    pub puts: RowList,
    pub cuts: RowList,
    pub reply: Reply,
}

/// What comes of a statement over its table.
#[derive(Debug, Drop)]
pub enum Verdict {
    /// When the statement doesn't suit the columns of its table.
    Refused(Message),
    /// When it does; the reply may still be the refusal of a row, and then nothing changes.
    Does(Effect),
}
