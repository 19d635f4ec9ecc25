//! How pages with snapshots over them are kept: the data files' pages, the catalog, and sparse files in the catalog's order.

ghost use Rattle.std.specs.Prelude.{◌≡◌, ◌<◌, IfOk, IfErr};
ghost use Rattle.page_base.specs.declared.numbers.PageId.{PageId};
ghost use Rattle.page_fmt.specs.Content.{IsPage};
ghost use Rattle.buf_pool.specs.Pool.{IsSound};
ghost use Rattle.snap_cat.specs.Catalog.{IsCatalog};
ghost use Rattle.snap_pages.specs.Shown.{unshared, catalog, count, img, IsOpen, IsPinned, IsThere, IsWhole, set_of};

use buf_pool::Pool;
use page_base::{MAX_SNAPSHOTS, SnapNo};
use page_dev::{FileList, PageFile, PoolRefused};
use snap_cat::SnapCat;
use sparse_set::SparseSet;
use std::alloc::Global;
use std::marker::Model;

/// The source's pages, with the snapshots over them.
#[derive(Drop)]
pub struct SnapPages<P: PageFile> {
    pub(crate) pool: Pool<P>,
    pub(crate) cat: SnapCat,
    pub(crate) sets: Vec<SparseSet<P>>,
}

impl<P: PageFile> Model for SnapPages<P> {
    ghost use Rattle.std.specs.Prelude.{◌≤◌, vec_capacity};
    ghost use Rattle.snap_pages.specs.Shown.{Shown, IsWhole};

    ghost Value = { Shown };

    ghost view = { λ a. record { pool = a.pool; cat = a.cat; sets = a.sets.items } };

    ghost invariant = { λ a. IsWhole (record { pool = a.pool; cat = a.cat; sets = a.sets.items }) × (8 ≤ vec_capacity a.sets) };
}

impl<P: PageFile> SnapPages<P> {
    /// The pages of these files, so many of them in memory at most, with no snapshot and room for eight. The next cut
    /// has this number. Refused only for memory.
    pub fn new(
        alloc: Global,
        files: FileList<P>,
        frames: u32,
        next_cut: u64,
    ) -> Result<SnapPages<P>, PoolRefused<P>>
        requires { 0 < frames }
        ensures ok { IfOk result (λ v. v ≡ unshared files frames next_cut) }
        ensures err { IfErr result (λ refused. refused.files ≡ files) }
    {
        let Ok(cat) = SnapCat::new(alloc, next_cut) else {
            return Err(PoolRefused { files });
        };
        let Ok(sets) = Vec::with_capacity(alloc, MAX_SNAPSHOTS) else {
            return Err(PoolRefused { files });
        };
        match Pool::new(alloc, files, frames) {
            Ok(pool) => Ok(SnapPages { pool, cat, sets }),
            Err(refused) => Err(refused),
        }
    }

    /// The source's pages, for reading. A pinned page is one of the source's and a page of the format.
    pub fn pool(&self) -> &Pool<P>
        ensures pool { result.now ≡ self.now.pool }
        ensures sound { IsSound self.now.pool }
        ensures there { (p : PageId) → IsPinned self.now p → IsThere self.now p × IsPage (img self.now p) }
    {
        self.pool.keeps_pages();
        &self.pool
    }

    /// The catalog of snapshots, for reading.
    pub fn cat(&self) -> &SnapCat
        ensures cat { result.now ≡ catalog self.now }
        ensures few { IsCatalog (catalog self.now) }
        ensures whole { IsWhole self.now }
    {
        let _snaps = self.cat.count();
        &self.cat
    }

    /// A snapshot's sparse files, for reading.
    pub fn set(&self, s: SnapNo) -> &SparseSet<P>
        requires { IsOpen self.now s }
        ensures { result.now ≡ set_of self.now s }
    {
        &self.sets[s.0 as usize]
    }

    /// Hands the source's files out, where there is no snapshot, and drops all images, dirty ones too. Takes no memory.
    pub fn into_files(self) -> FileList<P>
        requires { count self ≡ 0 }
        ensures { result ≡ self.pool.files }
    {
        let SnapPages { pool, .. } = self;
        pool.into_files()
    }
}

fn needs_send<T: Send>(_value: &T) {}

/// Pages over files that may move to another thread may move there too.
pub fn may_move<P: PageFile + Send>(pages: &SnapPages<P>) {
    needs_send(pages);
}
