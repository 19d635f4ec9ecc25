//! Where no frame is free, the least recently used page that isn't pinned gives its own, once its file has it.

ghost use Rattle.std.specs.Prelude.{◌≡◌, ◌<◌, ◌+◌, true, false, IsTrue, IfSome, IfOk, IfErr, OnOk, OnErr, length};
ghost use Rattle.page_base.specs.Pages.{image_at, is_page};
ghost use Rattle.page_base.specs.declared.numbers.PageId.{PageId};
ghost use Rattle.page_dev.specs.Faults.{HasCause, total};
ghost use Rattle.page_dev.specs.Files.{called};
ghost use Rattle.buf_pool.specs.Pool.{img, pins, is_dirty, IsPooled};
ghost use Rattle.buf_pool.specs.Order.{order, victim, without, room_made, IsUnpinned};
ghost use Rattle.buf_pool.specs.Steps.{Stays};
ghost use Rattle.buf_pool.specs.Refusing.{IsFault, IsRefusedRoom, IsBlocked};
ghost use Rattle.buf_pool.specs.Calls.{save_calls, room_calls};

use crate::{FetchRefusal, Pool};
use page_base::{Failed, PageId};
use page_dev::PageFile;

impl<P: PageFile> Pool<P> {
    // The least recently used page that isn't pinned.
    #[tactic(auto, using(crate::proofs::OrderLemmas::last_unpinned_push))]
    fn victim(&self) -> Option<PageId>
        ensures is { result ≡ victim self.now }
        ensures unpinned { IfSome result (λ q. IsUnpinned self.now q) }
    {
        let _count = self.frames.len();
        let mut entries = self.frames.iter();
        while let Some((page, frame)) = entries.next_back() {
            if frame.pins == 0 {
                return Some(*page);
            }
        }
        None
    }

    // Takes out a page that is neither dirty nor pinned.
    fn evict(&mut self, p: PageId)
        requires pooled { IsPooled self.old p }
        requires clean { is_dirty self.old p ≡ false }
        requires unpinned { pins self.old p ≡ 0 }
        ensures stays { Stays self.old self.new }
        ensures order { order self.new ≡ without p (order self.old) }
        ensures fewer { length self.new.entries + 1 ≡ length self.old.entries }
        ensures faults { self.new.files ≡ self.old.files }
    {
        let _count = self.frames.len();
        self.frames.pop(&p);
    }

    // Writes a dirty page to its file.
    fn write(&mut self, p: PageId) -> Result<(), Failed>
        requires pooled { IsPooled self.old p }
        requires dirty { is_dirty self.old p ≡ true }
        ensures stays { Stays self.old self.new }
        ensures entries { self.new.entries ≡ self.old.entries }
        ensures written { IsTrue self.old.files.tells → OnOk result (img self.old p ≡ image_at self.new.files.content p) }
        ensures calls { self.new.files.calls ≡ called self.old.files.calls p.file }
        ensures cause { HasCause (total self.old.files.failures) (total self.new.files.failures) result }
    {
        let frame = self.frames.peek(&p).unwrap();
        self.files.write_page(p, &frame.image)
    }

    // Says that a page is no longer dirty.
    fn set_clean(&mut self, p: PageId)
        requires pooled { IsPooled self.old p }
        requires written { IsTrue self.old.files.tells → img self.old p ≡ image_at self.old.files.content p }
        ensures stays { Stays self.old self.new }
        ensures order { order self.new ≡ order self.old }
        ensures clean { is_dirty self.new p ≡ false }
        ensures others { (q : PageId) → is_page p q ≡ false → is_dirty self.new q ≡ is_dirty self.old q }
        ensures pooled { IsPooled self.new p }
        ensures size { length self.new.entries ≡ length self.old.entries }
        ensures files { self.new.files ≡ self.old.files }
    {
        let frame = self.frames.peek_mut(&p).unwrap();
        frame.dirty = false;
    }

    // Writes a page to its file where it is dirty, and answers whether it was.
    #[tactic(auto, using(crate::proofs::StepLemmas::stays_trans, crate::proofs::StepLemmas::stays_self))]
    pub(crate) fn save(&mut self, p: PageId) -> Result<bool, Failed>
        requires { IsPooled self.old p }
        ensures stays { Stays self.old self.new }
        ensures order { order self.new ≡ order self.old }
        ensures clean { OnOk result (is_dirty self.new p ≡ false) }
        ensures wrote { IfOk result (λ written. written ≡ is_dirty self.old p) }
        ensures others { (q : PageId) → is_page p q ≡ false → is_dirty self.new q ≡ is_dirty self.old q }
        ensures pooled { IsPooled self.new p }
        ensures size { length self.new.entries ≡ length self.old.entries }
        ensures calls { self.new.files.calls ≡ save_calls self.old p }
        ensures cause { HasCause (total self.old.files.failures) (total self.new.files.failures) result }
    {
        if !self.frames.peek(&p).unwrap().dirty {
            return Ok(false);
        }
        self.write(p)?;
        self.set_clean(p);
        Ok(true)
    }

    // Makes a page clean before it gives way.
    fn clean(&mut self, p: PageId) -> Result<(), FetchRefusal>
        requires { IsPooled self.old p }
        ensures stays { Stays self.old self.new }
        ensures order { order self.new ≡ order self.old }
        ensures clean { OnOk result (is_dirty self.new p ≡ false) }
        ensures pooled { IsPooled self.new p }
        ensures size { length self.new.entries ≡ length self.old.entries }
        ensures calls { self.new.files.calls ≡ save_calls self.old p }
        ensures faulty { IfErr result (IsFault self.old self.new) }
    {
        if self.save(p).is_err() {
            return Err(FetchRefusal::DataFault {
                count: self.files.all_faults(),
            });
        }
        Ok(())
    }

    // Takes a page that isn't pinned out of memory, once its file has it.
    #[tactic(auto, using(crate::proofs::StepLemmas::pins_stay, crate::proofs::StepLemmas::stays_trans))]
    fn give_up(&mut self, p: PageId) -> Result<(), FetchRefusal>
        requires { IsUnpinned self.old p }
        ensures stays { Stays self.old self.new }
        ensures order { OnOk result (order self.new ≡ without p (order self.old)) }
        ensures kept { OnErr result (order self.new ≡ order self.old) }
        ensures fewer { OnOk result (length self.new.entries + 1 ≡ length self.old.entries) }
        ensures calls { self.new.files.calls ≡ save_calls self.old p }
        ensures faulty { IfErr result (IsFault self.old self.new) }
    {
        self.clean(p)?;
        self.evict(p);
        Ok(())
    }

    // Makes a frame free where none is: the least recently used page that isn't pinned gives its own.
    #[tactic(auto, using(crate::proofs::StepLemmas::stays_self))]
    pub(crate) fn make_room(&mut self) -> Result<(), FetchRefusal>
        ensures stays { Stays self.old self.new }
        ensures order { OnOk result (order self.new ≡ room_made self.old) }
        ensures kept { OnErr result (order self.new ≡ order self.old) }
        ensures room { OnOk result (length self.new.entries < self.new.frames) }
        ensures free { OnOk result (¬ IsBlocked self.old) }
        ensures calls { self.new.files.calls ≡ room_calls self.old }
        ensures stuck { IfErr result (IsRefusedRoom self.old self.new) }
    {
        if self.frames.len() < self.frames.cap().get() {
            return Ok(());
        }
        let Some(victim) = self.victim() else {
            return Err(FetchRefusal::AllPinned {
                pins: self.frames.len() as u32,
            });
        };
        self.give_up(victim)
    }
}
