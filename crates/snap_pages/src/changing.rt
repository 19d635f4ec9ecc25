//! A source page changes only once every sound snapshot has it, so that none sees the change.

ghost use Rattle.std.specs.Prelude.{◌≡◌, ◌≤◌, OnOk, OnErr, IfErr};
ghost use Rattle.page_base.specs.Pages.{set_at};
ghost use Rattle.page_fmt.specs.Spelling.{used};
ghost use Rattle.page_fmt.specs.Content.{content, IsPage};
ghost use Rattle.page_fmt.specs.Edits.{edited, LacksRoom};
ghost use Rattle.buf_pool.specs.Steps.{SameHolds};
ghost use Rattle.snap_pages.specs.Shown.{img, IsPinned};
ghost use Rattle.snap_pages.specs.Views.{KeepsViews};
ghost use Rattle.snap_pages.specs.Dues.{IsPushed};
ghost use Rattle.snap_pages.specs.Slots.{SetsSlot};
ghost use Rattle.snap_pages.specs.Steps.{SameSnaps, SamePlaces};

use crate::SnapPages;
use page_base::{Image, PageId};
use page_dev::PageFile;
use page_fmt::NoRoom;
use rec_log::Rec;

impl<P: PageFile> SnapPages<P> {
    /// Makes the bytes behind the record's change its slot's, on a pinned page that no snapshot lacks; none empty it.
    /// `NoRoom` exactly where they don't fit, and then nothing changes. Takes no memory.
    pub fn change(&mut self, p: PageId, rec: &Rec) -> Result<(), NoRoom>
        requires pinned { IsPinned self.old p }
        requires pushed { IsPushed self.old p }
        ensures slots { OnOk result (SetsSlot self.old self.new p rec.now.slot rec.now.after) }
        ensures content { OnOk result (content (img self.new p) ≡ edited (content (img self.old p)) rec.now.slot rec.now.after) }
        ensures err { OnErr result (self.new ≡ self.old) }
        ensures room { OnOk result (used (edited (content (img self.old p)) rec.now.slot rec.now.after) ≤ 8192) }
        ensures no_room { IfErr result (λ e. LacksRoom (content (img self.old p)) (edited (content (img self.old p)) rec.now.slot rec.now.after) e.need e.free) }
        ensures img { img self.new ≡ set_at (img self.old) p (img self.new p) }
        ensures page { IsPage (img self.new p) }
        ensures holds { SameHolds self.old.pool self.new.pool }
        ensures snaps { SameSnaps self.old self.new }
        ensures places { SamePlaces self.old self.new }
        ensures views { KeepsViews self.old self.new }
    {
        rec.keeps_limits();
        self.pool.set_slot(p, rec.slot, rec.after.as_slice())
    }

    /// Makes this the image of a pinned page that no snapshot lacks. Takes no memory.
    pub fn set_image(&mut self, p: PageId, from: &Image)
        requires pinned { IsPinned self.old p }
        requires pushed { IsPushed self.old p }
        requires page { IsPage from.now }
        ensures img { img self.new ≡ set_at (img self.old) p from.now }
        ensures holds { SameHolds self.old.pool self.new.pool }
        ensures snaps { SameSnaps self.old self.new }
        ensures places { SamePlaces self.old self.new }
        ensures views { KeepsViews self.old self.new }
    {
        self.pool.set_image(p, from);
    }
}
