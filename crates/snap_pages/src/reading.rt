//! A reader of a snapshot looks where a page is, and reads a copy from its sparse file each time anew.

ghost use Rattle.std.specs.Prelude.{◌≡◌, true, IsTrue, OnOk};
ghost use Rattle.page_base.specs.declared.numbers.PageId.{PageId};
ghost use Rattle.sparse_set.specs.Sparse.{is_copied, Reads};
ghost use Rattle.snap_pages.specs.Shown.{IsOpen, IsThere, set_of};
ghost use Rattle.snap_pages.specs.Views.{looked, view, KeepsViews};
ghost use Rattle.snap_pages.specs.Dues.{NoneNewDue};
ghost use Rattle.snap_pages.specs.Steps.{ChangesSet, CallsOnce, SamePlaces};

use crate::{Place, SnapPages};
use page_base::{Failed, Image, PageId, SnapNo};
use page_dev::PageFile;

impl<P: PageFile> SnapPages<P> {
    /// Where a reader of the snapshot finds the page: `Sparse` exactly where the map has it.
    pub fn look(&self, s: SnapNo, p: PageId) -> Place
        requires { IsOpen self.now s }
        ensures { result ≡ looked (set_of self.now s) p }
    {
        if self.set(s).copied(p) {
            Place::Sparse
        } else {
            Place::Through
        }
    }

    /// Reads the snapshot's own copy of a page, by one call on its sparse file. `Failed` only where that file's count of
    /// faults rose. Takes no memory.
    pub fn fetch_sparse(&mut self, s: SnapNo, p: PageId, into: &mut Image) -> Result<(), Failed>
        requires snap { IsOpen self.old s }
        requires page { IsThere self.old p }
        requires copied { is_copied (set_of self.old s) p ≡ true }
        ensures reads { Reads p into.new (set_of self.old s) (set_of self.new s) result }
        ensures seen { IsTrue (set_of self.old s).files.tells → OnOk result (into.new ≡ view self.old s p) }
        ensures only { ChangesSet s self.old self.new }
        ensures calls { CallsOnce s p self.old self.new }
        ensures places { SamePlaces self.old self.new }
        ensures views { KeepsViews self.old self.new }
        ensures dues { (q : PageId) → NoneNewDue self.old self.new q }
    {
        let set = &mut self.sets[s.0 as usize];
        set.read(p, into)
    }
}
