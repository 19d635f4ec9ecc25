//! A snapshot comes with an empty map, so at its cut it sees the source and no page is copied; or it is taken in as it was.

ghost use Rattle.std.specs.Prelude.{◌≡◌, ◌+◌, ◌-◌, ◌^◌, ◌<◌, ◌≤◌, ◌++◌, ◌∷◌, []};
ghost use Rattle.page_base.specs.declared.numbers.PageId.{PageId};
ghost use Rattle.sparse_set.specs.Sparse.{IsEmptyMap};
ghost use Rattle.snap_cat.specs.Catalog.{LacksName, IsBehind, with_new, with_opened};
ghost use Rattle.buf_pool.specs.Steps.{SameShown};
ghost use Rattle.snap_pages.specs.Shown.{pins, counts, catalog, count, set_of, IsPinned};
ghost use Rattle.snap_pages.specs.Views.{CutsView, OpensView};
ghost use Rattle.snap_pages.specs.Owed.{count_on, with_pins_of, AreOwed};
ghost use Rattle.snap_pages.specs.Cuts.{ComesBy};
ghost use Rattle.snap_pages.specs.Steps.{SamePool};

use crate::SnapPages;
use crate::pinning::pin_each;
use page_base::{Name, SnapNo};
use page_dev::PageFile;
use rec_log::Work;
use snap_cat::{FileNames, SnapState};
use sparse_set::SparseSet;
use std::alloc::Global;

impl<P: PageFile> SnapPages<P> {
    /// A new snapshot in the making, which sees the source as it is now, with records that are to be taken back from it.
    /// The page of each of these is pinned once more. Its cut number is the next one, which rises by one. Takes no
    /// memory.
    pub fn add(&mut self, name: Name, files: FileNames, set: SparseSet<P>, owed: Work) -> SnapNo
        requires few { count self.old < 8 }
        requires name { LacksName (catalog self.old) name }
        requires cut { (catalog self.old).next_cut < 2 ^ 64 - 1 }
        requires empty { IsEmptyMap set }
        requires alike { set.files.counts ≡ counts self.old }
        requires held { (p : PageId) → 0 < count_on owed.recs p → IsPinned self.old p }
        requires bound { (p : PageId) → pins self.old p + count_on owed.recs p ≤ 2 ^ 100 }
        ensures place { result.0 ≡ count self.old }
        ensures added { catalog self.new ≡ with_new (catalog self.old) name files owed }
        ensures sets { self.new.sets ≡ self.old.sets ++ set ∷ [] }
        ensures set { set_of self.new result ≡ set }
        ensures pins { pins self.new ≡ with_pins_of owed.recs (pins self.old) }
        ensures shown { SameShown self.old.pool self.new.pool }
        ensures owed { AreOwed self.new result }
        ensures cuts { ComesBy (catalog self.old).next_cut self.old self.new }
        ensures views { CutsView self.old self.new }
    {
        let _snaps = self.cat.count();
        pin_each(&mut self.pool, owed.as_slice());
        self.sets.push_reserved(set);
        self.cat.add(name, files, owed)
    }

    /// Takes in a snapshot of an opened catalog, behind all others, with its sparse files and their map; it owes nothing.
    /// The next cut stays.
    pub fn opened(
        &mut self,
        alloc: Global,
        name: Name,
        files: FileNames,
        set: SparseSet<P>,
        cut: u64,
        state: SnapState,
    ) -> SnapNo
        requires few { count self.old < 8 }
        requires name { LacksName (catalog self.old) name }
        requires above { IsBehind (catalog self.old) cut }
        requires below { cut < (catalog self.old).next_cut }
        requires alike { set.files.counts ≡ counts self.old }
        ensures place { result.0 ≡ count self.old }
        ensures added { catalog self.new ≡ with_opened (catalog self.old) name files cut state }
        ensures sets { self.new.sets ≡ self.old.sets ++ set ∷ [] }
        ensures set { set_of self.new result ≡ set }
        ensures pool { SamePool self.old self.new }
        ensures cuts { ComesBy cut self.old self.new }
        ensures views { OpensView set self.old self.new }
    {
        self.sets.push_reserved(set);
        self.cat.opened(alloc, name, files, cut, state)
    }
}
