//! The layout of the tables that are read: the heap.

ghost use Rattle.std.specs.Prelude.{◌≡◌, IfOk, IfErr, Ok, Err};
ghost use Rattle.page_fmt.specs.Content.{content, IsPage};
ghost use Rattle.table_walk.specs.Answers.{IsOn};
ghost use Rattle.page_tables.specs.Layout as spec;

use page_base::{Image, PageId};
use page_fmt::Seen;
use std::alloc::Global;
use table_heap::Heap;
use table_walk::{Layout, SeenRefusal, Visit, is_leaf};

/// The visit of a table's root. Takes no memory.
pub fn first(root: PageId) -> Visit
    ensures { result ≡ spec.first root }
{
    Visit {
        page: root,
        from: root,
        slot: 0,
        level: Some(1),
    }
}

/// The pages that the page of a visit names, of which this is the image; or the first slot that names none.
pub(crate) fn kids(alloc: Global, visit: Visit, image: &Image) -> Result<Vec<Visit>, SeenRefusal>
    requires { IsPage image.now }
    ensures ok { IfOk result (λ v. spec.shape.kids visit (content image.now) ≡ Ok v.items) }
    ensures bad { IfErr result (IsOn visit.page (λ slot. spec.shape.kids visit (content image.now) ≡ Err slot)) }
{
    if is_leaf(visit) {
        return Ok(Vec::new(alloc));
    }
    let mut one = Seen::new(alloc)?;
    one.add(alloc, visit.page, image)?;
    Heap.kids(alloc, visit, &one, 0)
}
