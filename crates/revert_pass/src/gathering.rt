//! A page of a snapshot is gathered: it is found and pinned in the source, and its copy is kept.

ghost use Rattle.std.specs.Prelude.{◌≡◌, ◌<◌, ◌^◌, true, false, IsTrue, OnOk, OnErr, IfErr};
ghost use Rattle.page_fmt.specs.Content.{IsPage};
ghost use Rattle.buf_pool.specs.Pool.{with_pin};
ghost use Rattle.sparse_set.specs.Sparse.{is_copied, sparse_page};
ghost use Rattle.snap_pages.specs.Shown.{pins, IsOpen, IsThere, set_of};
ghost use Rattle.snap_pages.specs.Steps.{SamePool};
ghost use Rattle.revert_pass.specs.Got.{has};
ghost use Rattle.revert_pass.specs.Gathers.{Adds, CopyRefused, GatherRefused, IsOneCall, IsOneFetch, ShowsSame};

use crate::{Gathered, RevertRefusal};
use buf_pool::FetchRefusal;
use page_base::{Image, PageId, SnapNo};
use page_dev::PageFile;
use page_fmt::{BadPage, check};
use snap_pages::SnapPages;
use std::alloc::Global;

// Reads the snapshot's copy of a page.
fn read_copy<P: PageFile>(
    pages: &mut SnapPages<P>,
    s: SnapNo,
    p: PageId,
    into: &mut Image,
) -> Result<(), RevertRefusal>
    requires snap { IsOpen pages.old s }
    requires there { IsThere pages.old p }
    requires copied { is_copied (set_of pages.old s) p ≡ true }
    ensures same { ShowsSame s pages.old pages.new }
    ensures pool { SamePool pages.old pages.new }
    ensures pins { pins pages.new ≡ pins pages.old }
    ensures called { OnOk result (IsOneCall s p pages.old pages.new) }
    ensures page { OnOk result (IsPage into.new) }
    ensures bytes { OnOk result (IsTrue (set_of pages.old s).files.tells → into.new ≡ sparse_page (set_of pages.old s) p) }
    ensures refused { IfErr result (CopyRefused s p pages.old pages.new) }
{
    if pages.fetch_sparse(s, p, into).is_err() {
        return Err(RevertRefusal::Sparse);
    }
    match check(into) {
        Ok(()) => Ok(()),
        Err(BadPage { at }) => Err(RevertRefusal::Fetch(FetchRefusal::Damaged { at })),
    }
}

// Pins a source page and reads the snapshot's copy of it; where that is refused the pin is taken back.
fn pin_and_read<P: PageFile>(
    alloc: Global,
    pages: &mut SnapPages<P>,
    s: SnapNo,
    p: PageId,
    into: &mut Image,
) -> Result<(), RevertRefusal>
    requires snap { IsOpen pages.old s }
    requires there { IsThere pages.old p }
    requires copied { is_copied (set_of pages.old s) p ≡ true }
    requires few { pins pages.old p < 2 ^ 100 }
    ensures same { ShowsSame s pages.old pages.new }
    ensures once { OnOk result (pins pages.new ≡ with_pin (pins pages.old) p) }
    ensures pins { OnErr result (pins pages.new ≡ pins pages.old) }
    ensures fetched { OnOk result (IsOneFetch p pages.old pages.new) }
    ensures called { OnOk result (IsOneCall s p pages.old pages.new) }
    ensures page { OnOk result (IsPage into.new) }
    ensures bytes { OnOk result (IsTrue (set_of pages.old s).files.tells → into.new ≡ sparse_page (set_of pages.old s) p) }
    ensures refused { IfErr result (GatherRefused s p pages.old pages.new) }
{
    pages.fetch_source(alloc, p)?;
    let read = read_copy(pages, s, p, into);
    if read.is_err() {
        pages.unpin(p);
    }
    read
}

/// Pins a source page once more and keeps the snapshot's copy of it. The snapshot's map has the page, and `got` lacks
/// it. After a refusal all pins and `got` are as before. `Fetch` has the pool's refusal by its cause, or `Damaged` where
/// the bytes that were read of the copy are no page; `Sparse` comes only where the sparse file's count of faults rose.
/// The page is fetched once, and the copy is read by one call: neither is tried again.
pub fn gather<P: PageFile>(
    alloc: Global,
    pages: &mut SnapPages<P>,
    s: SnapNo,
    p: PageId,
    got: &mut Gathered,
) -> Result<(), RevertRefusal>
    requires snap { IsOpen pages.old s }
    requires there { IsThere pages.old p }
    requires copied { is_copied (set_of pages.old s) p ≡ true }
    requires lacks { has got.old p ≡ false }
    requires few { pins pages.old p < 2 ^ 100 }
    ensures adds { OnOk result (Adds s p pages.old got.old got.new) }
    ensures once { OnOk result (pins pages.new ≡ with_pin (pins pages.old) p) }
    ensures fetched { OnOk result (IsOneFetch p pages.old pages.new) }
    ensures called { OnOk result (IsOneCall s p pages.old pages.new) }
    ensures got { OnErr result (got.new ≡ got.old) }
    ensures pins { OnErr result (pins pages.new ≡ pins pages.old) }
    ensures same { ShowsSame s pages.old pages.new }
    ensures refused { IfErr result (GatherRefused s p pages.old pages.new) }
{
    let mut image = Image::blank(alloc)?;
    got.kept.reserve(1)?;
    pin_and_read(alloc, pages, s, p, &mut image)?;
    got.kept.push_reserved((p, image));
    Ok(())
}
