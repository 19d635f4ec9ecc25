//! An edit of a page leaves it dirty, and is written later.

ghost use Rattle.std.specs.Prelude.{◌≡◌, ◌<◌, ◌≤◌, length, OnOk, OnErr, IfErr};
ghost use Rattle.page_base.specs.Pages.{set_at};
ghost use Rattle.page_base.specs.declared.limits.TheConstants.{MAX_SLOT_BYTES, MAX_SLOTS};
ghost use Rattle.page_fmt.specs.Content.{IsPage, content};
ghost use Rattle.page_fmt.specs.Edits.{edited, LacksRoom};
ghost use Rattle.page_fmt.specs.Spelling.{used};
ghost use Rattle.buf_pool.specs.Pool.{img, IsPinned};
ghost use Rattle.buf_pool.specs.Steps.{SameHolds};

use crate::Pool;
use page_base::{Image, PageId};
use page_dev::PageFile;
use page_fmt::{NoRoom, edit};

impl<P: PageFile> Pool<P> {
    /// Makes these bytes slot `i`'s of a pinned page; none empty it. `NoRoom` exactly where the page would grow by more
    /// bytes than it has free, and then nothing changes. Takes no memory.
    pub fn set_slot(&mut self, p: PageId, i: u16, bytes: &[u8]) -> Result<(), NoRoom>
        requires pinned { IsPinned self.old p }
        requires few { length bytes.now ≤ MAX_SLOT_BYTES }
        requires index { i < MAX_SLOTS }
        ensures content { OnOk result (content (img self.new p) ≡ edited (content (img self.old p)) i bytes.now) }
        ensures err { OnErr result (self.new ≡ self.old) }
        ensures room { OnOk result (used (edited (content (img self.old p)) i bytes.now) ≤ 8192) }
        ensures no_room { IfErr result (λ e. LacksRoom (content (img self.old p)) (edited (content (img self.old p)) i bytes.now) e.need e.free) }
        ensures img { img self.new ≡ set_at (img self.old) p (img self.new p) }
        ensures page { IsPage (img self.new p) }
        ensures holds { SameHolds self.old self.new }
    {
        let frame = self.frames.peek_mut(&p).unwrap();
        edit(&mut frame.image, i, bytes)?;
        frame.dirty = true;
        Ok(())
    }

    /// Makes this the image of a pinned page. Takes no memory.
    pub fn set_image(&mut self, p: PageId, from: &Image)
        requires pinned { IsPinned self.old p }
        requires page { IsPage from.now }
        ensures img { img self.new ≡ set_at (img self.old) p from.now }
        ensures holds { SameHolds self.old self.new }
    {
        let frame = self.frames.peek_mut(&p).unwrap();
        frame.image.set(from);
        frame.dirty = true;
    }
}
