//! Each record that is owed has a pin of its own on its page.

ghost use Rattle.std.specs.Prelude.{◌≡◌, ◌+◌, ◌^◌, ◌<◌, ◌≤◌};
ghost use Rattle.page_base.specs.declared.numbers.PageId.{PageId};
ghost use Rattle.buf_pool.specs.Pool.{pins, IsPinned};
ghost use Rattle.buf_pool.specs.Steps.{SameShown};
ghost use Rattle.snap_pages.specs.Owed.{count_on, with_pins_of, without_pins_of};

use buf_pool::Pool;
use page_dev::PageFile;
use rec_log::Rec;

/// Pins the page of each record once more.
pub(crate) fn pin_each<P: PageFile>(pool: &mut Pool<P>, recs: &[Rec])
    requires held { (p : PageId) → 0 < count_on recs.now p → IsPinned pool.old p }
    requires bound { (p : PageId) → pins pool.old p + count_on recs.now p ≤ 2 ^ 100 }
    ensures pins { pins pool.new ≡ with_pins_of recs.now (pins pool.old) }
    ensures shown { SameShown pool.old pool.new }
{
    for rec in recs {
        pool.pin(rec.page);
    }
}

/// Takes back the pin of each record.
pub(crate) fn unpin_each<P: PageFile>(pool: &mut Pool<P>, recs: &[Rec])
    requires { (p : PageId) → count_on recs.now p ≤ pins pool.old p }
    ensures pins { pins pool.new ≡ without_pins_of recs.now (pins pool.old) }
    ensures shown { SameShown pool.old pool.new }
{
    for rec in recs {
        pool.unpin(rec.page);
    }
}
