//! A caller of the pass, whose proof only joins clauses; and a page that is gathered and put back.

ghost use Rattle.std.proofs.Common.{rules};
ghost use Rattle.std.specs.Prelude.{◌≡◌, ◌<◌, ◌^◌, [], ◌∷◌, true, IfOk};
ghost use Rattle.page_base.specs.declared.numbers.PageId.{PageId};
ghost use Rattle.sparse_set.specs.Sparse.{is_copied, IsEmptyMap};
ghost use Rattle.snap_pages.specs.Shown.{counts, pins, set_of, IsOpen, IsPinned, IsThere};
ghost use Rattle.snap_pages.specs.Views.{KeepsViews};
ghost use Rattle.snap_pages.specs.Dues.{IsFirstDue};

use crate::{Gathered, RevertRefusal, gather, let_go, swap};
use buf_pool::FetchRefusal;
use ghost_log::Tally;
use page_base::{Failed, Image, Name, NoMemory, PageId, SnapNo};
use page_dev::{FileList, PageFile};
use rec_log::Work;
use snap_cat::FileNames;
use snap_pages::SnapPages;
use sparse_set::SparseSet;
use std::alloc::Global;
use std::test::Fail;

// Puts a snapshot's copy of a page in the source's place where no snapshot lacks the page; else lets it go. Answers
// whether it was put.
#[tactic(auto, using(snap_pages::proofs::CallerLemmas::keeps_on))]
fn put_back<P: PageFile>(
    alloc: Global,
    pages: &mut SnapPages<P>,
    s: SnapNo,
    p: PageId,
) -> Result<bool, RevertRefusal>
    requires snap { IsOpen pages.old s }
    requires there { IsThere pages.old p }
    requires copied { is_copied (set_of pages.old s) p ≡ true }
    requires few { pins pages.old p < 2 ^ 100 }
    ensures pins { pins pages.new ≡ pins pages.old }
    ensures views { KeepsViews pages.old pages.new }
{
    let mut got = Gathered::new(alloc)?;
    gather(alloc, pages, s, p, &mut got)?;
    match pages.next_push(p) {
        Some(_) => {
            let_go(pages, got);
            Ok(false)
        }
        None => {
            swap(pages, got);
            Ok(true)
        }
    }
}

// Pushes a page to a snapshot that lacks it.
fn push<P: PageFile>(pages: &mut SnapPages<P>, s: SnapNo, p: PageId)
    requires pinned { IsPinned pages.old p }
    requires snap { IsOpen pages.old s }
    requires due { IsFirstDue pages.old p s }
    ensures pins { pins pages.new ≡ pins pages.old }
    ensures counts { counts pages.new ≡ counts pages.old }
{
    let _pool = pages.pool();
    match pages.push_copy(s, p) {
        Ok(()) => pages.push_mark(s, p),
        Err(_) => (),
    }
}

// Pushes a page to the lowest snapshot that lacks it, if there is one.
fn push_next<P: PageFile>(pages: &mut SnapPages<P>, p: PageId)
    requires { IsPinned pages.old p }
    ensures pins { pins pages.new ≡ pins pages.old }
    ensures counts { counts pages.new ≡ counts pages.old }
{
    match pages.next_push(p) {
        Some(s) => push(pages, s, p),
        None => (),
    }
}

// Brings in a page, pushes it, and lets it go.
fn touch<P: PageFile>(
    alloc: Global,
    pages: &mut SnapPages<P>,
    p: PageId,
) -> Result<(), FetchRefusal>
    requires there { IsThere pages.old p }
    requires few { pins pages.old p < 2 ^ 100 }
    ensures pins { pins pages.new ≡ pins pages.old }
    ensures counts { counts pages.new ≡ counts pages.old }
{
    pages.fetch_source(alloc, p)?;
    push_next(pages, p);
    pages.unpin(p);
    Ok(())
}

// A file of 16 blank pages.
#[derive(Drop)]
struct Fake {
    calls: Tally,
}

impl PageFile for Fake {
    ghost use Rattle.std.specs.Prelude.{false, []};

    ghost tells = { λ _. false };

    ghost content = { λ _. [] };

    ghost count = { λ _. 16 };

    ghost failures = { λ _. 0 };

    ghost calls = { λ file. file.calls };

    ghost counted = { λ file t. Prim.search rules };

    ghost sized = { λ file t. Prim.search rules };

    fn faults(&self) -> u64 {
        0
    }

    fn pages(&self) -> u32 {
        16
    }

    fn read_page(&mut self, _n: u32, into: &mut Image) -> Result<(), Failed> {
        self.calls.count();
        into.clear();
        Ok(())
    }

    fn write_page(&mut self, _n: u32, _from: &Image) -> Result<(), Failed> {
        self.calls.count();
        Ok(())
    }
}

fn files(alloc: Global) -> Result<FileList<Fake>, NoMemory>
    ensures { IfOk result (λ list. list.counts ≡ 16 ∷ []) }
{
    let mut files = Vec::new(alloc);
    files.push(Fake {
        calls: Tally::zero(),
    })?;
    Ok(FileList::from(files))
}

fn source(alloc: Global) -> Result<SnapPages<Fake>, NoMemory>
    ensures counts { IfOk result (λ v. counts v ≡ 16 ∷ []) }
    ensures free { IfOk result (λ v. (p : PageId) → pins v p ≡ 0) }
{
    match SnapPages::new(alloc, files(alloc)?, 4, 1) {
        Ok(pages) => Ok(pages),
        Err(_) => Err(NoMemory),
    }
}

fn sparse(alloc: Global) -> Result<SparseSet<Fake>, NoMemory>
    ensures counts { IfOk result (λ set. set.files.counts ≡ 16 ∷ []) }
    ensures empty { IfOk result (λ set. IsEmptyMap set) }
{
    match SparseSet::new(alloc, files(alloc)?) {
        Ok(set) => Ok(set),
        Err(_) => Err(NoMemory),
    }
}

// Adds a snapshot of this name that owes nothing, where it may come.
fn cut(alloc: Global, pages: &mut SnapPages<Fake>, name: &[u8]) -> Option<SnapNo>
    requires counts { counts pages.old ≡ 16 ∷ [] }
    requires free { (p : PageId) → pins pages.old p ≡ 0 }
    ensures counts { counts pages.new ≡ 16 ∷ [] }
    ensures free { (p : PageId) → pins pages.new p ≡ 0 }
{
    let name = Name::read(name).ok()?;
    let None = pages.cat().find(&name) else {
        return None;
    };
    if pages.cat().count() >= 8 {
        return None;
    }
    if pages.cat().next_cut() == u64::MAX {
        return None;
    }
    let set = sparse(alloc).ok()?;
    Some(pages.add(name, FileNames::new(alloc), set, Work::none(alloc)))
}

// Brings in page 7, of which no other is pinned, and pushes it.
fn touched(alloc: Global, pages: &mut SnapPages<Fake>) -> Option<()>
    requires counts { counts pages.old ≡ 16 ∷ [] }
    requires free { (p : PageId) → pins pages.old p ≡ 0 }
    ensures counts { counts pages.new ≡ 16 ∷ [] }
    ensures free { (p : PageId) → pins pages.new p ≡ 0 }
{
    touch(alloc, pages, PageId { file: 0, page: 7 }).ok()
}

// Puts page 7 of the first snapshot back, where its map has it.
fn reverted(alloc: Global, pages: &mut SnapPages<Fake>) -> Option<bool>
    requires counts { counts pages.old ≡ 16 ∷ [] }
    requires free { (p : PageId) → pins pages.old p ≡ 0 }
{
    let p = PageId { file: 0, page: 7 };
    if pages.cat().count() == 0 {
        return None;
    }
    if !pages.set(SnapNo(0)).copied(p) {
        return None;
    }
    put_back(alloc, pages, SnapNo(0), p).ok()
}

#[test]
fn a_copied_page_is_put_back(rt: HostRuntime) -> Result<(), Fail> {
    let mut pages = source(rt.alloc())?;
    cut(rt.alloc(), &mut pages, b"s1").ok_or("a snapshot")?;
    assert_eq!(rt; touched(rt.alloc(), &mut pages), Some(()));
    assert_eq!(rt; reverted(rt.alloc(), &mut pages), Some(true));
    Ok(())
}
