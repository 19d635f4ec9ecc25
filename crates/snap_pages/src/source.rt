//! The source's pages are brought in and pinned as the pool does it, and no snapshot shows another page for it.

ghost use Rattle.std.specs.Prelude.{◌≡◌, ◌<◌, ◌^◌, None, OnOk, OnErr, IfErr};
ghost use Rattle.buf_pool.specs.Pool.{frame_of, with_pin, without_pin, IsPooled};
ghost use Rattle.buf_pool.specs.Calls.{read_calls, RefusedCalls};
ghost use Rattle.buf_pool.specs.Order.{order, order_used};
ghost use Rattle.buf_pool.specs.Refusing.{Refuses, IsStuck};
ghost use Rattle.buf_pool.specs.Steps.{Stays, PinsOnce, SameShown};
ghost use Rattle.snap_pages.specs.Shown.{pins, IsThere, IsPinned};
ghost use Rattle.snap_pages.specs.Views.{KeepsViews};
ghost use Rattle.snap_pages.specs.Steps.{SameSnaps, SamePlaces};

use crate::SnapPages;
use buf_pool::FetchRefusal;
use page_base::PageId;
use page_dev::PageFile;
use std::alloc::Global;

impl<P: PageFile> SnapPages<P> {
    /// Brings in a source page and pins it once, as `Pool::fetch` does. Each refusal comes by its cause, and leaves all
    /// pins. No call on a file is tried again.
    pub fn fetch_source(&mut self, alloc: Global, p: PageId) -> Result<(), FetchRefusal>
        requires there { IsThere self.old p }
        requires few { pins self.old p < 2 ^ 100 }
        ensures once { OnOk result (PinsOnce p self.old.pool self.new.pool) }
        ensures pinned { OnOk result (IsPinned self.new p) }
        ensures stays { OnErr result (Stays self.old.pool self.new.pool) }
        ensures free { OnOk result (¬ IsStuck self.old.pool p) }
        ensures first { OnOk result (order self.new.pool ≡ order_used self.old.pool p) }
        ensures no_calls { IsPooled self.old.pool p → self.new.pool.files ≡ self.old.pool.files }
        ensures called { frame_of self.old.pool p ≡ None → OnOk result (self.new.pool.files.calls ≡ read_calls self.old.pool p) }
        ensures calls { IfErr result (RefusedCalls self.old.pool self.new.pool p) }
        ensures refused { IfErr result (Refuses self.old.pool self.new.pool p) }
        ensures snaps { SameSnaps self.old self.new }
        ensures places { SamePlaces self.old self.new }
        ensures views { KeepsViews self.old self.new }
    {
        self.pool.fetch(alloc, p)
    }

    /// Pins a pinned page once more. Takes no memory.
    pub fn pin(&mut self, p: PageId)
        requires pinned { IsPinned self.old p }
        requires few { pins self.old p < 2 ^ 100 }
        ensures pins { pins self.new ≡ with_pin (pins self.old) p }
        ensures shown { SameShown self.old.pool self.new.pool }
        ensures snaps { SameSnaps self.old self.new }
        ensures places { SamePlaces self.old self.new }
        ensures views { KeepsViews self.old self.new }
    {
        self.pool.pin(p);
    }

    /// Takes a pin from a page. Takes no memory.
    pub fn unpin(&mut self, p: PageId)
        requires { IsPinned self.old p }
        ensures pins { pins self.new ≡ without_pin (pins self.old) p }
        ensures shown { SameShown self.old.pool self.new.pool }
        ensures snaps { SameSnaps self.old self.new }
        ensures places { SamePlaces self.old self.new }
        ensures views { KeepsViews self.old self.new }
    {
        self.pool.unpin(p);
    }
}
