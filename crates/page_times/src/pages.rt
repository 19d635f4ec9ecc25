//! Pages over a blank file, and a page of them that comes in and goes again.

ghost use Rattle.std.specs.Prelude.{◌≡◌, ◌<◌, [], ◌∷◌, IfOk, IfSome};
ghost use Rattle.page_base.specs.declared.limits.TheConstants.{MAX_FRAMES};
ghost use Rattle.page_base.specs.declared.numbers.PageId.{PageId};
ghost use Rattle.snap_pages.specs.Shown.{counts, pins};

use crate::blank::Blank;
use buf_pool::FetchRefusal;
use ghost_log::Tally;
use page_base::{NoMemory, PageId};
use page_dev::FileList;
use snap_pages::SnapPages;
use std::alloc::Global;

/// A list of one blank file.
pub fn files(alloc: Global) -> Result<FileList<Blank>, NoMemory>
    ensures { IfOk result (λ list. list.counts ≡ MAX_FRAMES ∷ []) }
{
    let mut files = Vec::new(alloc);
    files.push(Blank {
        calls: Tally::zero(),
    })?;
    Ok(FileList::from(files))
}

/// Pages of which none is pinned, so many of them in memory at most.
pub fn source(alloc: Global, frames: u32) -> Option<SnapPages<Blank>>
    requires { 0 < frames }
    ensures counts { IfSome result (λ v. counts v ≡ MAX_FRAMES ∷ []) }
    ensures free { IfSome result (λ v. (p : PageId) → pins v p ≡ 0) }
{
    let files = files(alloc).ok()?;
    SnapPages::new(alloc, files, frames, 1).ok()
}

/// Brings in a page and lets it go.
pub fn visit(alloc: Global, pages: &mut SnapPages<Blank>, p: PageId) -> Result<(), FetchRefusal>
    requires counts { counts pages.old ≡ MAX_FRAMES ∷ [] }
    requires free { (q : PageId) → pins pages.old q ≡ 0 }
    requires there { p.file ≡ 0 }
    requires within { p.page < MAX_FRAMES }
    ensures counts { counts pages.new ≡ MAX_FRAMES ∷ [] }
    ensures free { (q : PageId) → pins pages.new q ≡ 0 }
{
    pages.fetch_source(alloc, p)?;
    pages.unpin(p);
    Ok(())
}
