//! What a latch is, and which two latches cannot stand beside each other on a page.

ghost use Rattle.std.specs.Prelude.{◌≡◌};
ghost use Rattle.latch_book.specs.Modes.{conflicts};

use page_base::{PageId, SessNo};

/// The mode of a latch: shared by any number of readers, or exclusive.
#[derive(Clone, Copy, Debug, PartialEq, Eq)]
pub enum LatchMode {
    Sh,
    Ex,
}

/// A latch: the page that is held, and how.
#[derive(Clone, Copy, Debug, PartialEq, Eq)]
pub struct Latch {
    pub page: PageId,
    pub mode: LatchMode,
}

/// When another session holds the page in a mode that conflicts: `by` is the lowest such session.
#[derive(Clone, Copy, Debug, PartialEq, Eq)]
pub struct Held {
    pub by: SessNo,
}

impl LatchMode {
    // Whether two sessions cannot hold one page in these modes.
    pub(crate) fn conflicts(self, other: LatchMode) -> bool
        ensures { result ≡ conflicts self other }
    {
        match (self, other) {
            (LatchMode::Sh, LatchMode::Sh) => false,
            _ => true,
        }
    }
}
