//! A snapshot goes with the pins of the records that it still owes, and the later ones close up.

ghost use Rattle.std.specs.Prelude.{◌≡◌, remove};
ghost use Rattle.snap_cat.specs.Catalog.{without};
ghost use Rattle.buf_pool.specs.Steps.{SameShown};
ghost use Rattle.snap_pages.specs.Shown.{pins, catalog, IsOpen, set_of, owes_of, cut_of};
ghost use Rattle.snap_pages.specs.Views.{ClosesUp};
ghost use Rattle.snap_pages.specs.Owed.{without_pins_of, AreOwed};
ghost use Rattle.snap_pages.specs.Cuts.{GoesBy};

use crate::SnapPages;
use crate::pinning::unpin_each;
use page_base::SnapNo;
use page_dev::PageFile;
use sparse_set::SparseSet;

impl<P: PageFile> SnapPages<P> {
    /// Takes a snapshot out with the pins of the records that it owes, and hands out its sparse files. The later ones
    /// close up. Takes no memory.
    pub fn remove(&mut self, s: SnapNo) -> SparseSet<P>
        requires snap { IsOpen self.old s }
        requires owed { AreOwed self.old s }
        ensures set { result ≡ set_of self.old s }
        ensures cat { catalog self.new ≡ without (catalog self.old) s }
        ensures sets { self.new.sets ≡ remove self.old.sets s.0 }
        ensures pins { pins self.new ≡ without_pins_of (owes_of self.old s) (pins self.old) }
        ensures shown { SameShown self.old.pool self.new.pool }
        ensures cuts { GoesBy (cut_of self.old s) self.old self.new }
        ensures views { ClosesUp s self.old self.new }
    {
        let _snaps = self.cat.count();
        unpin_each(&mut self.pool, self.cat.owes(s).as_slice());
        self.cat.remove(s);
        self.sets.remove(s.0 as usize)
    }
}
