//! A record that a snapshot owes is taken back from its sparse page, and its pin lasts as long as it is owed.

ghost use Rattle.std.specs.Prelude.{◌≡◌, ◌≢◌, [], ◌∷◌, ◌++◌, true, List, IfSome, IfNone};
ghost use Rattle.page_base.specs.declared.numbers.PageId.{PageId};
ghost use Rattle.rec_log.specs.Records.{Record, IsRecord};
ghost use Rattle.sparse_set.specs.Sparse.{is_copied, Copies};
ghost use Rattle.buf_pool.specs.Steps.{SameShown};
ghost use Rattle.snap_pages.specs.Shown.{IsOpen, IsThere, set_of, owes_of};
ghost use Rattle.snap_pages.specs.Views.{KeepsViews, WritesView};
ghost use Rattle.snap_pages.specs.Dues.{NoneNewDue};
ghost use Rattle.snap_pages.specs.Owed.{AreOwed, DropsOwed};
ghost use Rattle.snap_pages.specs.Steps.{ChangesSet, CallsOnce, SamePlaces};

use crate::SnapPages;
use page_base::{Failed, Image, PageId, SnapNo};
use page_dev::PageFile;
use rec_log::Rec;

impl<P: PageFile> SnapPages<P> {
    /// The last record that the snapshot owes. None exactly where it owes none.
    pub fn last_owed(&self, s: SnapNo) -> Option<&Rec>
        requires { IsOpen self.now s }
        ensures last { IfSome result (λ rec. (front : List Record) × (owes_of self.now s ≡ front ++ rec.now ∷ [])) }
        ensures none { IfNone result (owes_of self.now s ≡ []) }
        ensures record { IfSome result (λ rec. IsRecord rec.now) }
    {
        self.cat.owes(s).last()
    }

    /// Drops the last record that the snapshot owes, and takes back its pin. Takes no memory.
    pub fn drop_owed(&mut self, s: SnapNo)
        requires snap { IsOpen self.old s }
        requires some { owes_of self.old s ≢ [] }
        requires owed { AreOwed self.old s }
        ensures dropped { DropsOwed s self.old self.new }
        ensures shown { SameShown self.old.pool self.new.pool }
        ensures sets { self.new.sets ≡ self.old.sets }
        ensures owed { AreOwed self.new s }
        ensures places { SamePlaces self.old self.new }
        ensures views { KeepsViews self.old self.new }
        ensures dues { (q : PageId) → NoneNewDue self.old self.new q }
    {
        if let Some(rec) = self.cat.owed(s).pop() {
            self.pool.unpin(rec.page);
        }
    }

    /// Writes a page that the snapshot's map has, by one call on its sparse file. `Failed` only where that file's count of
    /// faults rose, and then that page of the snapshot is open. Takes no memory.
    pub fn write_sparse(&mut self, s: SnapNo, p: PageId, from: &Image) -> Result<(), Failed>
        requires snap { IsOpen self.old s }
        requires page { IsThere self.old p }
        requires copied { is_copied (set_of self.old s) p ≡ true }
        ensures copies { Copies p from.now (set_of self.old s) (set_of self.new s) result }
        ensures only { ChangesSet s self.old self.new }
        ensures calls { CallsOnce s p self.old self.new }
        ensures places { SamePlaces self.old self.new }
        ensures views { WritesView s p from.now self.old self.new result }
        ensures dues { (q : PageId) → NoneNewDue self.old self.new q }
    {
        let set = &mut self.sets[s.0 as usize];
        set.copy(p, from)
    }
}
