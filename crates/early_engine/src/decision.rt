//! An answer with the edits that it makes.

ghost use Rattle.std.specs.Prelude.{◌≡◌, []};

use crate::answer::Answer;
use std::alloc::Global;
use table_pages::EditList;

/// The answer to a statement, with the edits of source pages that it makes.
#[derive(Drop)]
pub(crate) struct Decision {
    pub(crate) answer: Answer,
    pub(crate) edits: EditList,
}

/// An answer that edits nothing. Takes no memory.
pub(crate) fn only(alloc: Global, answer: Answer) -> Decision
    ensures { result ≡ record { answer = answer; edits = [] } }
{
    Decision {
        answer,
        edits: EditList::new(alloc),
    }
}
