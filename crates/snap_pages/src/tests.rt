//! A caller of the pages, whose proof only joins clauses; and the worked example of a page that was copied.

ghost use Rattle.std.proofs.Common.{rules};
ghost use Rattle.std.specs.Prelude.{◌≡◌, ◌<◌, ◌≤◌, ◌^◌, [], ◌∷◌, IfOk};
ghost use Rattle.page_base.specs.declared.numbers.PageId.{PageId};
ghost use Rattle.sparse_set.specs.Sparse.{IsEmptyMap};
ghost use Rattle.snap_pages.specs.Shown.{counts, pins, IsOpen, IsPinned, IsThere};
ghost use Rattle.snap_pages.specs.Views.{KeepsViews};
ghost use Rattle.snap_pages.specs.Dues.{IsDue, IsFirstDue, NoneNewDue};

use crate::{Place, SnapPages};
use buf_pool::FetchRefusal;
use ghost_log::Tally;
use page_base::{Bytes, Failed, Image, Name, NoMemory, PageId, SnapNo};
use page_dev::{FileList, PageFile};
use rec_log::{Rec, Work};
use snap_cat::{FileNames, SnapState};
use sparse_set::SparseSet;
use std::alloc::Global;
use std::test::Fail;

// Pushes a page to the lowest snapshot that lacks it; where the copy fails that one is suspect.
#[tactic(auto, using(crate::proofs::CallerLemmas::keeps_on, crate::proofs::CallerLemmas::dues_on))]
fn push<P: PageFile>(pages: &mut SnapPages<P>, s: SnapNo, p: PageId)
    requires pinned { IsPinned pages.old p }
    requires snap { IsOpen pages.old s }
    requires due { IsFirstDue pages.old p s }
    ensures views { KeepsViews pages.old pages.new }
    ensures pins { pins pages.new ≡ pins pages.old }
    ensures counts { counts pages.new ≡ counts pages.old }
    ensures dues { NoneNewDue pages.old pages.new p }
    ensures done { ¬ IsDue pages.new p s }
{
    let _pool = pages.pool();
    match pages.push_copy(s, p) {
        Ok(()) => pages.push_mark(s, p),
        Err(_) => pages.set_state(s, SnapState::Suspect),
    }
}

// Pushes a page once where a snapshot lacks it, and changes it where none does. Answers whether one did.
fn push_or_change<P: PageFile>(pages: &mut SnapPages<P>, p: PageId, rec: &Rec) -> bool
    requires { IsPinned pages.old p }
    ensures views { KeepsViews pages.old pages.new }
    ensures pins { pins pages.new ≡ pins pages.old }
    ensures counts { counts pages.new ≡ counts pages.old }
{
    match pages.next_push(p) {
        Some(s) => {
            push(pages, s, p);
            true
        }
        None => {
            let _ = pages.change(p, rec);
            false
        }
    }
}

// Brings in a page, pushes or changes it, and lets it go.
#[tactic(auto, using(crate::proofs::CallerLemmas::keeps_on))]
fn touch<P: PageFile>(
    alloc: Global,
    pages: &mut SnapPages<P>,
    p: PageId,
    rec: &Rec,
) -> Result<bool, FetchRefusal>
    requires there { IsThere pages.old p }
    requires few { pins pages.old p < 2 ^ 100 }
    ensures views { KeepsViews pages.old pages.new }
    ensures pins { pins pages.new ≡ pins pages.old }
    ensures counts { counts pages.new ≡ counts pages.old }
{
    pages.fetch_source(alloc, p)?;
    let pushed = push_or_change(pages, p, rec);
    pages.unpin(p);
    Ok(pushed)
}

// A file of 16 blank pages.
#[derive(Drop)]
struct Fake {
    calls: Tally,
}

impl PageFile for Fake {
    ghost use Rattle.std.specs.Prelude.{false, []};

    ghost tells = { λ _. false };

    ghost content = { λ _. [] };

    ghost count = { λ _. 16 };

    ghost failures = { λ _. 0 };

    ghost calls = { λ file. file.calls };

    ghost counted = { λ file t. Prim.search rules };

    ghost sized = { λ file t. Prim.search rules };

    fn faults(&self) -> u64 {
        0
    }

    fn pages(&self) -> u32 {
        16
    }

    fn read_page(&mut self, _n: u32, into: &mut Image) -> Result<(), Failed> {
        self.calls.count();
        into.clear();
        Ok(())
    }

    fn write_page(&mut self, _n: u32, _from: &Image) -> Result<(), Failed> {
        self.calls.count();
        Ok(())
    }
}

fn files(alloc: Global) -> Result<FileList<Fake>, NoMemory>
    ensures { IfOk result (λ list. list.counts ≡ 16 ∷ []) }
{
    let mut files = Vec::new(alloc);
    files.push(Fake {
        calls: Tally::zero(),
    })?;
    Ok(FileList::from(files))
}

fn source(alloc: Global) -> Result<SnapPages<Fake>, NoMemory>
    ensures counts { IfOk result (λ v. counts v ≡ 16 ∷ []) }
    ensures free { IfOk result (λ v. (p : PageId) → pins v p ≡ 0) }
{
    match SnapPages::new(alloc, files(alloc)?, 4, 1) {
        Ok(pages) => Ok(pages),
        Err(_) => Err(NoMemory),
    }
}

fn sparse(alloc: Global) -> Result<SparseSet<Fake>, NoMemory>
    ensures counts { IfOk result (λ set. set.files.counts ≡ 16 ∷ []) }
    ensures empty { IfOk result (λ set. IsEmptyMap set) }
{
    match SparseSet::new(alloc, files(alloc)?) {
        Ok(set) => Ok(set),
        Err(_) => Err(NoMemory),
    }
}

// Adds a snapshot of this name that owes nothing, where it may come.
fn cut(alloc: Global, pages: &mut SnapPages<Fake>, name: &[u8]) -> Option<SnapNo>
    requires counts { counts pages.old ≡ 16 ∷ [] }
    requires free { (p : PageId) → pins pages.old p ≡ 0 }
    ensures counts { counts pages.new ≡ 16 ∷ [] }
    ensures free { (p : PageId) → pins pages.new p ≡ 0 }
{
    let name = Name::read(name).ok()?;
    let None = pages.cat().find(&name) else {
        return None;
    };
    if pages.cat().count() >= 8 {
        return None;
    }
    if pages.cat().next_cut() == u64::MAX {
        return None;
    }
    let set = sparse(alloc).ok()?;
    Some(pages.add(name, FileNames::new(alloc), set, Work::none(alloc)))
}

// Touches a page of which no other is pinned, with a record that empties its first slot. Answers whether it was pushed.
fn touched(alloc: Global, pages: &mut SnapPages<Fake>, page: u32) -> Option<bool>
    requires counts { counts pages.old ≡ 16 ∷ [] }
    requires free { (p : PageId) → pins pages.old p ≡ 0 }
    requires there { page < 16 }
    ensures counts { counts pages.new ≡ 16 ∷ [] }
    ensures free { (p : PageId) → pins pages.new p ≡ 0 }
{
    let p = PageId { file: 0, page };
    let rec = Rec {
        page: p,
        slot: 0,
        before: Bytes::new(alloc),
        after: Bytes::new(alloc),
    };
    touch(alloc, pages, p, &rec).ok()
}

#[test]
fn a_copied_page_is_not_copied_again(rt: HostRuntime) -> Result<(), Fail> {
    let mut pages = source(rt.alloc())?;
    cut(rt.alloc(), &mut pages, b"s1").ok_or("a snapshot")?;
    assert_eq!(rt; touched(rt.alloc(), &mut pages, 7), Some(true));
    assert_eq!(rt; touched(rt.alloc(), &mut pages, 8), Some(true));
    assert!(rt; 0 < pages.cat().count());
    assert_eq!(rt; pages.set(SnapNo(0)).size_on_disk(0), 131072);
    assert_eq!(rt; touched(rt.alloc(), &mut pages, 7), Some(false));
    assert_eq!(rt; touched(rt.alloc(), &mut pages, 6), Some(true));
    assert!(rt; 0 < pages.cat().count());
    assert_eq!(rt; pages.set(SnapNo(0)).size_on_disk(0), 131072);
    assert_eq!(rt;
        pages.look(SnapNo(0), PageId { file: 0, page: 8 }),
        Place::Sparse
    );
    assert_eq!(rt;
        pages.look(SnapNo(0), PageId { file: 0, page: 9 }),
        Place::Through
    );
    Ok(())
}
