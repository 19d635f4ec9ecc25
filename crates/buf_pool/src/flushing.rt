//! Dirty pages are written before they give way, so that a later fetch needn't.

ghost use Rattle.std.specs.Prelude.{◌≡◌, ◌==◌, ◌&&◌, Some, false, IfSome, IfOk, OnOk, is_some};
ghost use Rattle.page_base.specs.Pages.{is_page};
ghost use Rattle.page_base.specs.declared.numbers.PageId.{PageId};
ghost use Rattle.page_dev.specs.Faults.{HasCause, total};
ghost use Rattle.buf_pool.specs.Pool.{is_dirty, IsPinned};
ghost use Rattle.buf_pool.specs.Order.{order, waiting, IsUnsaved};
ghost use Rattle.buf_pool.specs.Steps.{Stays};
ghost use Rattle.buf_pool.specs.Calls.{save_calls, saving_calls};

use crate::{Frame, Pool};
use page_base::{Failed, PageId};
use page_dev::PageFile;

// Whether a frame's page may be written.
fn may_be_written(frame: &Frame) -> bool
    ensures { result ≡ (frame.now.pins == 0 && frame.now.dirty) }
{
    frame.pins == 0 && frame.dirty
}

impl<P: PageFile> Pool<P> {
    // The least recently used page that may be written.
    #[tactic(auto, using(crate::proofs::OrderLemmas::last_waiting_push))]
    fn waiting(&self) -> Option<PageId>
        ensures is { result ≡ waiting self.now }
        ensures unsaved { IfSome result (λ q. IsUnsaved self.now q) }
    {
        let _count = self.frames.len();
        let mut entries = self.frames.iter();
        while let Some((page, frame)) = entries.next_back() {
            if may_be_written(frame) {
                return Some(*page);
            }
        }
        None
    }

    /// Writes the least recently used page that is dirty and isn't pinned, and answers whether there was
    /// one. `Failed` only where the sum of the counts of faults rose. Takes no memory.
    pub fn flush_one(&mut self) -> Result<bool, Failed>
        ensures stays { Stays self.old self.new }
        ensures order { order self.new ≡ order self.old }
        ensures some { IfOk result (λ found. found ≡ is_some (waiting self.old)) }
        ensures clean { OnOk result ((q : PageId) → waiting self.old ≡ Some q → is_dirty self.new q ≡ false) }
        ensures others { (q : PageId) → (waiting self.old ≡ Some q → ⊥) → is_dirty self.new q ≡ is_dirty self.old q }
        ensures calls { self.new.files.calls ≡ saving_calls self.old (waiting self.old) }
        ensures cause { HasCause (total self.old.files.failures) (total self.new.files.failures) result }
    {
        match self.waiting() {
            Some(p) => self.save(p),
            None => Ok(false),
        }
    }

    /// Writes a page where it is dirty, pinned or not, and answers whether it was. `Failed` only where the
    /// sum of the counts of faults rose. Takes no memory.
    pub fn flush_page(&mut self, p: PageId) -> Result<bool, Failed>
        ensures stays { Stays self.old self.new }
        ensures order { order self.new ≡ order self.old }
        ensures some { IfOk result (λ found. found ≡ is_dirty self.old p) }
        ensures clean { OnOk result (is_dirty self.new p ≡ false) }
        ensures others { (q : PageId) → is_page p q ≡ false → is_dirty self.new q ≡ is_dirty self.old q }
        ensures calls { self.new.files.calls ≡ save_calls self.old p }
        ensures cause { HasCause (total self.old.files.failures) (total self.new.files.failures) result }
    {
        if !self.is_pooled(p) {
            return Ok(false);
        }
        self.save(p)
    }
}
