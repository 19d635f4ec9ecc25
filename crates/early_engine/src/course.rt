//! What the engine does of a statement.

use crate::decision::Decision;
use page_base::{Name, SnapNo};

/// What the engine does of a statement.
#[derive(Drop)]
pub(crate) enum Course {
    /// It answers, with edits of the source.
    Answers(Decision),
    /// It reads a table of a snapshot.
    See(SnapNo, Name),
    /// It makes a snapshot.
    Cut,
}
