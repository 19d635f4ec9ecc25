//! Looks for the next snapshot that lacks a page, where none does.

ghost use Rattle.std.specs.Prelude.{◌≡◌, ◌<◌, ◌≤◌, [], ◌∷◌};
ghost use Rattle.page_base.specs.declared.limits.TheConstants.{MAX_FRAMES};
ghost use Rattle.page_base.specs.declared.numbers.PageId.{PageId};
ghost use Rattle.snap_pages.specs.Shown.{counts, pins, IsPinned};

use crate::blank::Blank;
use crate::pages::{files, source};
use buf_pool::FetchRefusal;
use page_base::{Name, PageId, SnapNo};
use rec_log::Work;
use snap_cat::FileNames;
use snap_pages::SnapPages;
use sparse_set::SparseSet;
use std::alloc::Global;

/// How many pages are asked for, each in its turn.
const PAGES: u32 = 16;

// Adds a snapshot that owes nothing, where one of this name may come.
fn cut(alloc: Global, pages: &mut SnapPages<Blank>, name: &[u8]) -> Option<SnapNo>
    requires counts { counts pages.old ≡ MAX_FRAMES ∷ [] }
    requires free { (p : PageId) → pins pages.old p ≡ 0 }
    ensures counts { counts pages.new ≡ MAX_FRAMES ∷ [] }
    ensures free { (p : PageId) → pins pages.new p ≡ 0 }
{
    let name = Name::read(name).ok()?;
    let None = pages.cat().find(&name) else {
        return None;
    };
    if pages.cat().count() >= 8 || pages.cat().next_cut() == u64::MAX {
        return None;
    }
    let set = SparseSet::new(alloc, files(alloc).ok()?).ok()?;
    Some(pages.add(name, FileNames::new(alloc), set, Work::none(alloc)))
}

// Copies and marks a pinned page for the next snapshot that lacks it, if one does.
fn push(pages: &mut SnapPages<Blank>, p: PageId)
    requires { IsPinned pages.old p }
    ensures pins { pins pages.new ≡ pins pages.old }
    ensures counts { counts pages.new ≡ counts pages.old }
{
    let Some(s) = pages.next_push(p) else {
        return;
    };
    let _pool = pages.pool();
    if let Ok(()) = pages.push_copy(s, p) {
        pages.push_mark(s, p);
    }
}

// Copies and marks a pinned page for each snapshot, of which there are eight at most.
fn push_each(pages: &mut SnapPages<Blank>, p: PageId)
    requires { IsPinned pages.old p }
    ensures pins { pins pages.new ≡ pins pages.old }
    ensures counts { counts pages.new ≡ counts pages.old }
{
    for _ in 0..8 {
        push(pages, p);
    }
}

// Brings in a page, copies and marks it for each snapshot, and lets it go.
fn push_all(alloc: Global, pages: &mut SnapPages<Blank>, p: PageId) -> Result<(), FetchRefusal>
    requires counts { counts pages.old ≡ MAX_FRAMES ∷ [] }
    requires free { (q : PageId) → pins pages.old q ≡ 0 }
    requires there { p.file ≡ 0 }
    requires within { p.page < MAX_FRAMES }
    ensures counts { counts pages.new ≡ MAX_FRAMES ∷ [] }
    ensures free { (q : PageId) → pins pages.new q ≡ 0 }
{
    pages.fetch_source(alloc, p)?;
    push_each(pages, p);
    pages.unpin(p);
    Ok(())
}

fn page(n: u32) -> PageId
    ensures file { result.file ≡ 0 }
    ensures within { result.page < 16 }
{
    PageId {
        file: 0,
        page: n % PAGES,
    }
}

// So many snapshots, of which none lacks one of the pages.
fn pushed(alloc: Global, snapshots: u32) -> Option<SnapPages<Blank>>
    requires { snapshots ≤ 8 }
{
    let mut pages = source(alloc, PAGES)?;
    for i in 0..snapshots {
        cut(alloc, &mut pages, &[b's', b'0'.saturating_add(i as u8)])?;
    }
    for n in 0..PAGES {
        push_all(alloc, &mut pages, page(n)).ok()?;
    }
    Some(pages)
}

/// Asks so often which snapshot lacks a page, where so many snapshots all have it. How often one lacked it, or nothing
/// where there are too many snapshots, or no memory.
pub fn pushes(alloc: Global, snapshots: u32, calls: u32) -> Option<u32> {
    if snapshots > 8 {
        return None;
    }
    let pages = pushed(alloc, snapshots)?;
    let mut lacked: u32 = 0;
    for i in 0..calls {
        if pages.next_push(page(i)).is_some() {
            lacked = lacked.saturating_add(1);
        }
    }
    Some(lacked)
}
