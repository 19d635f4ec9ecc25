//! The source's pages in memory, and which calls keep what the snapshots over them show.

ghost use Rattle.std.specs.Prelude.{◌≡◌, ◌≢◌, ◌⊎◌, ◌↔◌, ◌-◌, ◌^◌, ◌<◌, ◌≤◌, true, false, ⊤, length, slice_index, IsTrue, IfOk, IfErr, OnOk, OnErr, MatchOption};
ghost use Rattle.page_base.specs.declared.numbers.PageId.{PageId};
ghost use Rattle.page_base.specs.declared.numbers.SnapNo.{SnapNo};
ghost use Rattle.page_base.specs.Pages.{blank, set_at};
ghost use Rattle.page_base.specs.Slots.{with_slot};
ghost use Rattle.page_dev.specs.Faults.{HasCause};
ghost use Rattle.page_fmt.specs.Spelling.{used};
ghost use Rattle.page_fmt.specs.Content.{content, IsPage};
ghost use Rattle.page_fmt.specs.Edits.{edited, LacksRoom};
ghost use Rattle.early_pages.specs.Sparse.{is_copied, sparse_page, faults, marked, Copies, Reads, IsEmptyMap};
ghost use Rattle.early_pages.specs.Catalog.{IsCatalog, LacksName, empty, with_new, without, with_state, with_set};
ghost use Rattle.early_pages.specs.Shown.{img, counts, IsThere, catalog, count, IsOpen, set_of, state_of, with_catalog};
ghost use Rattle.early_pages.specs.Views.{view, IsKept, KeepsViews, CutsView, ClosesUp, IsDue, IsPushed, IsFirstDue, NoneNewDue};
ghost use Rattle.early_pages.specs.Slots.{slots_of};
ghost use Rattle.early_pages.specs.declared.state.SnapState.TheVariants.{Suspect};

use crate::images::blank_images;
use crate::{FileNames, Place, SnapCat, SnapState, SparseSet};
use page_base::{Failed, Image, Name, NoMemory, PageId, SnapNo, Table};
use page_dev::PageFile;
use page_fmt::{NoRoom, edit};
use std::alloc::Global;
use std::marker::Model;

/// The source's pages, with the snapshots over them.
#[derive(Drop)]
pub struct SnapPages<P: PageFile> {
    images: Table<Image>,
    cat: SnapCat<P>,
}

impl<P: PageFile> Model for SnapPages<P> {
    ghost use Rattle.early_pages.specs.Shown.{Shown, IsWhole};

    ghost Value = { Shown };

    ghost view = { λ a. record { images = a.images; cat = a.cat } };

    ghost invariant = { λ a. IsWhole (record { images = a.images; cat = a.cat }) };
}

impl<P: PageFile> SnapPages<P> {
    /// Blank pages of files of so many pages, with no snapshot and room for eight.
    pub fn new(alloc: Global, pages: &[u32], next_cut: u64) -> Result<SnapPages<P>, NoMemory>
        ensures source { IfOk result (λ v. img v ≡ (λ p. blank)) }
        ensures counts { IfOk result (λ v. counts v ≡ pages.now) }
        ensures catalog { IfOk result (λ v. catalog v ≡ empty next_cut) }
    {
        let images = blank_images(alloc, pages)?;
        let cat = SnapCat::new(alloc, next_cut)?;
        Ok(SnapPages { images, cat })
    }

    /// How many pages a source file has, 0 where there is no such file.
    pub fn pages(&self, file: u8) -> usize
        ensures { result ≡ slice_index (counts self.now) file }
    {
        self.images.pages(file)
    }

    /// The image of a source page, for reading.
    pub fn image(&self, p: PageId) -> &Image
        requires { IsThere self.now p }
        ensures { result.now ≡ img self.now p }
    {
        self.images.get(p)
    }

    /// The catalog of snapshots, for reading.
    pub fn cat(&self) -> &SnapCat<P>
        ensures cat { result.now ≡ catalog self.now }
        ensures few { IsCatalog (catalog self.now) }
        ensures alike { (s : SnapNo) → IsOpen self.now s → (set_of self.now s).files.counts ≡ counts self.now }
    {
        let _snaps = self.cat.count();
        &self.cat
    }

    /// A snapshot's sparse files, for reading.
    pub fn set(&self, s: SnapNo) -> &SparseSet<P>
        requires { IsOpen self.now s }
        ensures { result.now ≡ set_of self.now s }
    {
        self.cat.set(s)
    }

    /// Where a reader of the snapshot finds the page: `Sparse` exactly where the map has it.
    pub fn look(&self, s: SnapNo, p: PageId) -> Place
        requires { IsOpen self.now s }
        ensures { result ≡ Place.Sparse ↔ (is_copied (set_of self.now s) p ≡ true) }
    {
        if self.cat.set(s).copied(p) {
            Place::Sparse
        } else {
            Place::Through
        }
    }

    // Whether the page has to be pushed to the snapshot before it changes.
    fn is_due(&self, s: SnapNo, p: PageId) -> bool
        requires { IsOpen self.now s }
        ensures { IsTrue result ↔ IsDue self.now p s }
    {
        self.cat.state(s) != SnapState::Suspect && !self.cat.set(s).copied(p)
    }

    /// The lowest snapshot that isn't suspect and whose map lacks the page. None exactly where there is none.
    pub fn next_push(&self, p: PageId) -> Option<SnapNo>
        ensures due { MatchOption result (IsPushed self.now p) (IsFirstDue self.now p) }
        ensures there { MatchOption result ⊤ (IsOpen self.now) }
        ensures few { count self.now ≤ 8 }
    {
        for s in 0..self.cat.count() {
            if self.is_due(SnapNo(s), p) {
                return Some(SnapNo(s));
            }
        }
        None
    }

    /// Reads the snapshot's own copy of a page, once. `Failed` only where its count of faults rose. Takes no memory.
    pub fn fetch_sparse(&mut self, s: SnapNo, p: PageId, into: &mut Image) -> Result<(), Failed>
        requires snap { IsOpen self.old s }
        requires page { IsThere self.old p }
        requires copied { is_copied (set_of self.old s) p ≡ true }
        ensures reads { Reads p into.new (set_of self.old s) (set_of self.new s) result }
        ensures seen { IsTrue (set_of self.old s).files.tells → OnOk result (into.new ≡ view self.old s p) }
        ensures only { self.new ≡ with_catalog self.old (with_set (catalog self.old) s (set_of self.new s)) }
        ensures cause { HasCause (faults (set_of self.old s)) (faults (set_of self.new s)) result }
        ensures views { KeepsViews self.old self.new }
    {
        self.cat.read(s, p, into)
    }

    /// Copies the source page to the snapshot's sparse file, whose map lacks it. `Failed` only where that snapshot's
    /// count of faults rose. Failed or not, no view changes. Takes no memory.
    pub fn push_copy(&mut self, s: SnapNo, p: PageId) -> Result<(), Failed>
        requires snap { IsOpen self.old s }
        requires page { IsThere self.old p }
        requires lacks { is_copied (set_of self.old s) p ≡ false }
        ensures copies { Copies p (img self.old p) (set_of self.old s) (set_of self.new s) result }
        ensures copied { OnOk result (IsTrue (set_of self.new s).files.tells → sparse_page (set_of self.new s) p ≡ img self.new p) }
        ensures only { self.new ≡ with_catalog self.old (with_set (catalog self.old) s (set_of self.new s)) }
        ensures cause { HasCause (faults (set_of self.old s)) (faults (set_of self.new s)) result }
        ensures views { KeepsViews self.old self.new }
        ensures dues { NoneNewDue self.old self.new p }
    {
        self.cat.copy(s, p, self.images.get(p))
    }

    /// Puts the page into the snapshot's map. A snapshot whose view is promised has the page as it is in the source:
    /// its copy succeeded, and the page hasn't changed since. Takes no memory.
    pub fn push_mark(&mut self, s: SnapNo, p: PageId)
        requires snap { IsOpen self.old s }
        requires page { IsThere self.old p }
        requires copied { IsKept self.old s → sparse_page (set_of self.old s) p ≡ img self.old p }
        ensures only { self.new ≡ with_catalog self.old (with_set (catalog self.old) s (marked (set_of self.old s) p)) }
        ensures views { KeepsViews self.old self.new }
        ensures dues { NoneNewDue self.old self.new p }
        ensures done { ¬ IsDue self.new p s }
    {
        self.cat.mark(s, p);
    }

    /// Makes these bytes a slot of the page, which no snapshot lacks; no bytes empty the slot. `NoRoom` exactly where
    /// they don't fit, and then nothing changes. Takes no memory.
    pub fn change(&mut self, p: PageId, slot: u16, after: &[u8]) -> Result<(), NoRoom>
        requires page { IsThere self.old p }
        requires pushed { IsPushed self.old p }
        requires spelled { IsPage (img self.old p) }
        requires few { length after.now ≤ 8094 }
        requires index { slot < 4048 }
        ensures slots { OnOk result (slots_of (img self.new) ≡ with_slot (slots_of (img self.old)) p slot after.now) }
        ensures content { OnOk result (content (img self.new p) ≡ edited (content (img self.old p)) slot after.now) }
        ensures err { OnErr result (self.new ≡ self.old) }
        ensures room { OnOk result (used (edited (content (img self.old p)) slot after.now) ≤ 8192) }
        ensures no_room { IfErr result (λ e. LacksRoom (content (img self.old p)) (edited (content (img self.old p)) slot after.now) e.need e.free) }
        ensures img { img self.new ≡ set_at (img self.old) p (img self.new p) }
        ensures page { IsPage (img self.new p) }
        ensures counts { counts self.new ≡ counts self.old }
        ensures catalog { catalog self.new ≡ catalog self.old }
        ensures views { KeepsViews self.old self.new }
    {
        edit(self.images.get_mut(p), slot, after)
    }

    /// Makes this the image of the page, which no snapshot lacks. Takes no memory.
    pub fn set_image(&mut self, p: PageId, from: &Image)
        requires page { IsThere self.old p }
        requires pushed { IsPushed self.old p }
        ensures img { img self.new ≡ set_at (img self.old) p from.now }
        ensures counts { counts self.new ≡ counts self.old }
        ensures catalog { catalog self.new ≡ catalog self.old }
        ensures views { KeepsViews self.old self.new }
    {
        self.images.get_mut(p).set(from);
    }

    /// Makes this a snapshot's state. A snapshot that becomes suspect leaves all other views as they were. Takes no
    /// memory.
    pub fn set_state(&mut self, s: SnapNo, to: SnapState)
        requires { IsOpen self.old s }
        ensures only { self.new ≡ with_catalog self.old (with_state (catalog self.old) s to) }
        ensures same { view self.new ≡ view self.old }
        ensures views { (to ≡ Suspect) ⊎ (state_of self.old s ≢ Suspect) → KeepsViews self.old self.new }
        ensures dues { (p : PageId) → to ≡ Suspect → NoneNewDue self.old self.new p }
        ensures done { (p : PageId) → to ≡ Suspect → ¬ IsDue self.new p s }
    {
        self.cat.set_state(s, to);
    }

    /// A new snapshot in the making, which sees the source as it is now. Its cut number is the next one, which rises by
    /// one. Takes no memory.
    pub fn add(&mut self, name: Name, files: FileNames, set: SparseSet<P>) -> SnapNo
        requires few { count self.old < 8 }
        requires name { LacksName (catalog self.old) name }
        requires cut { (catalog self.old).next_cut < 2 ^ 64 - 1 }
        requires empty { IsEmptyMap set }
        requires alike { set.files.counts ≡ counts self.old }
        ensures place { result.0 ≡ count self.old }
        ensures only { self.new ≡ with_catalog self.old (with_new (catalog self.old) name files set) }
        ensures views { CutsView self.old self.new }
    {
        self.cat.add(name, files, set)
    }

    /// Takes a snapshot out, and hands out its sparse files. The later ones close up. Takes no memory.
    pub fn remove(&mut self, s: SnapNo) -> SparseSet<P>
        requires { IsOpen self.old s }
        ensures set { result ≡ set_of self.old s }
        ensures only { self.new ≡ with_catalog self.old (without (catalog self.old) s) }
        ensures views { ClosesUp s self.old self.new }
    {
        self.cat.remove(s)
    }
}
