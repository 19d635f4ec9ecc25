//! Dirty pages of the source are written, which no snapshot sees.

ghost use Rattle.std.specs.Prelude.{◌≡◌, Some, false, IfOk, OnOk, is_some};
ghost use Rattle.page_base.specs.Pages.{is_page};
ghost use Rattle.page_base.specs.declared.numbers.PageId.{PageId};
ghost use Rattle.page_dev.specs.Faults.{HasCause, total};
ghost use Rattle.buf_pool.specs.Pool.{is_dirty};
ghost use Rattle.buf_pool.specs.Order.{order, waiting};
ghost use Rattle.buf_pool.specs.Calls.{save_calls, saving_calls};
ghost use Rattle.buf_pool.specs.Steps.{Stays};
ghost use Rattle.snap_pages.specs.Views.{KeepsViews};
ghost use Rattle.snap_pages.specs.Steps.{SameSnaps, SamePlaces};

use crate::SnapPages;
use page_base::{Failed, PageId};
use page_dev::PageFile;

impl<P: PageFile> SnapPages<P> {
    /// Writes the least recently used page that is dirty and isn't pinned, and answers whether there was one. `Failed`
    /// only where the sum of the data files' counts of faults rose. Takes no memory.
    pub fn flush_one(&mut self) -> Result<bool, Failed>
        ensures stays { Stays self.old.pool self.new.pool }
        ensures order { order self.new.pool ≡ order self.old.pool }
        ensures some { IfOk result (λ found. found ≡ is_some (waiting self.old.pool)) }
        ensures clean { OnOk result ((q : PageId) → waiting self.old.pool ≡ Some q → is_dirty self.new.pool q ≡ false) }
        ensures others { (q : PageId) → (waiting self.old.pool ≡ Some q → ⊥) → is_dirty self.new.pool q ≡ is_dirty self.old.pool q }
        ensures calls { self.new.pool.files.calls ≡ saving_calls self.old.pool (waiting self.old.pool) }
        ensures cause { HasCause (total self.old.pool.files.failures) (total self.new.pool.files.failures) result }
        ensures snaps { SameSnaps self.old self.new }
        ensures places { SamePlaces self.old self.new }
        ensures views { KeepsViews self.old self.new }
    {
        self.pool.flush_one()
    }

    /// Writes a page where it is dirty, pinned or not, and answers whether it was. `Failed` only where the sum of the
    /// data files' counts of faults rose. Takes no memory.
    pub fn flush_page(&mut self, p: PageId) -> Result<bool, Failed>
        ensures stays { Stays self.old.pool self.new.pool }
        ensures order { order self.new.pool ≡ order self.old.pool }
        ensures some { IfOk result (λ found. found ≡ is_dirty self.old.pool p) }
        ensures clean { OnOk result (is_dirty self.new.pool p ≡ false) }
        ensures others { (q : PageId) → is_page p q ≡ false → is_dirty self.new.pool q ≡ is_dirty self.old.pool q }
        ensures calls { self.new.pool.files.calls ≡ save_calls self.old.pool p }
        ensures cause { HasCause (total self.old.pool.files.failures) (total self.new.pool.files.failures) result }
        ensures snaps { SameSnaps self.old self.new }
        ensures places { SamePlaces self.old self.new }
        ensures views { KeepsViews self.old self.new }
    {
        self.pool.flush_page(p)
    }
}
