//! A page is pushed to a snapshot in two steps, a copy and a mark, and stays due until the mark.

ghost use Rattle.std.specs.Prelude.{◌≡◌, ◌≢◌, ◌⊎◌, ◌≤◌, true, false, ⊤, IsTrue, OnOk, MatchOption};
ghost use Rattle.page_base.specs.declared.numbers.PageId.{PageId};
ghost use Rattle.sparse_set.specs.Sparse.{is_copied, sparse_page, marked, Copies};
ghost use Rattle.snap_cat.specs.Catalog.{with_state};
ghost use Rattle.snap_cat.specs.declared.snapshot.SnapState.TheVariants.{Suspect};
ghost use Rattle.snap_pages.specs.Shown.{img, catalog, IsOpen, IsThere, IsPinned, set_of, state_of, with_catalog};
ghost use Rattle.snap_pages.specs.Views.{view, IsKept, KeepsViews};
ghost use Rattle.snap_pages.specs.Dues.{IsDue, IsPushed, IsFirstDue, NoneNewDue, is_due, next_due};
ghost use Rattle.snap_pages.specs.Steps.{ChangesSet, CallsOnce, SamePlaces};

use crate::SnapPages;
use page_base::{Failed, PageId, SnapNo};
use page_dev::PageFile;
use snap_cat::SnapState;

impl<P: PageFile> SnapPages<P> {
    // Whether the page has to be pushed to the snapshot before it changes.
    fn is_due(&self, s: SnapNo, p: PageId) -> bool
        requires { IsOpen self.now s }
        ensures { result ≡ is_due self.now p s }
    {
        self.cat.state(s) != SnapState::Suspect && !self.set(s).copied(p)
    }

    /// The lowest snapshot that isn't suspect and whose map lacks the page. None exactly where there is none.
    pub fn next_push(&self, p: PageId) -> Option<SnapNo>
        ensures is { result ≡ next_due self.now p }
        ensures due { MatchOption result (IsPushed self.now p) (IsFirstDue self.now p) }
        ensures there { MatchOption result ⊤ (IsOpen self.now) }
    {
        for s in 0..self.cat.count() {
            if self.is_due(SnapNo(s), p) {
                return Some(SnapNo(s));
            }
        }
        None
    }

    /// Copies a pinned source page to the snapshot's sparse file, whose map lacks it, by one call on that file. `Failed`
    /// only where that file's count of faults rose. Failed or not, no view changes. Takes no memory.
    pub fn push_copy(&mut self, s: SnapNo, p: PageId) -> Result<(), Failed>
        requires snap { IsOpen self.old s }
        requires pinned { IsPinned self.old p }
        requires lacks { is_copied (set_of self.old s) p ≡ false }
        ensures copies { Copies p (img self.old p) (set_of self.old s) (set_of self.new s) result }
        ensures copied { OnOk result (IsTrue (set_of self.new s).files.tells → sparse_page (set_of self.new s) p ≡ img self.new p) }
        ensures only { ChangesSet s self.old self.new }
        ensures calls { CallsOnce s p self.old self.new }
        ensures places { SamePlaces self.old self.new }
        ensures views { KeepsViews self.old self.new }
        ensures dues { (q : PageId) → NoneNewDue self.old self.new q }
    {
        self.pool.keeps_pages();
        let set = &mut self.sets[s.0 as usize];
        set.copy(p, self.pool.image(p))
    }

    /// Puts the page into the snapshot's map. A snapshot whose view is promised has the page as it is in the source: its
    /// copy succeeded, and the page hasn't changed since. Takes no memory.
    pub fn push_mark(&mut self, s: SnapNo, p: PageId)
        requires snap { IsOpen self.old s }
        requires page { IsThere self.old p }
        requires copied { IsKept self.old s → sparse_page (set_of self.old s) p ≡ img self.old p }
        ensures marked { set_of self.new s ≡ marked (set_of self.old s) p }
        ensures only { ChangesSet s self.old self.new }
        ensures places { SamePlaces self.old self.new }
        ensures views { KeepsViews self.old self.new }
        ensures dues { (q : PageId) → NoneNewDue self.old self.new q }
        ensures done { is_copied (set_of self.new s) p ≡ true }
    {
        let set = &mut self.sets[s.0 as usize];
        set.mark(p);
    }

    /// Makes this a snapshot's state. A snapshot that becomes suspect leaves all other views as they were. Takes no
    /// memory.
    pub fn set_state(&mut self, s: SnapNo, to: SnapState)
        requires { IsOpen self.old s }
        ensures only { self.new ≡ with_catalog self.old (with_state (catalog self.old) s to) }
        ensures same { view self.new ≡ view self.old }
        ensures places { SamePlaces self.old self.new }
        ensures views { (to ≡ Suspect) ⊎ (state_of self.old s ≢ Suspect) → KeepsViews self.old self.new }
        ensures dues { (q : PageId) → to ≡ Suspect → NoneNewDue self.old self.new q }
        ensures done { (q : PageId) → to ≡ Suspect → ¬ IsDue self.new q s }
    {
        self.cat.set_state(s, to);
    }
}
