//! Images of pages are kept in the order in which they were gathered, none twice.

ghost use Rattle.std.specs.Prelude.{◌≡◌, [], IfOk};

use page_base::{Image, NoMemory, PageId};
use std::alloc::Global;
use std::marker::Model;

/// Pages that were gathered, each once, with the images that are kept of them; each image is a page.
#[derive(Drop)]
pub struct Gathered {
    pub(crate) kept: Vec<(PageId, Image)>,
}

impl Model for Gathered {
    ghost use Rattle.revert_pass.specs.Got.{Got, IsGot};

    ghost Value = { Got };

    ghost view = { λ g. g.kept.items };

    ghost invariant = { λ g. IsGot g.kept.items };
}

impl Gathered {
    /// No page yet.
    pub fn new(alloc: Global) -> Result<Gathered, NoMemory>
        ensures { IfOk result (λ got. got ≡ []) }
    {
        Ok(Gathered {
            kept: Vec::new(alloc),
        })
    }
}
