//! A caller of both passes, whose proof only joins clauses; and a change that is taken back.

ghost use Rattle.std.proofs.Common.{rules};
ghost use Rattle.std.specs.Prelude.{◌≡◌, ◌≢◌, ◌<◌, ◌≤◌, ◌^◌, [], ◌∷◌, ◌++◌, List, length, true, false, IfOk};
ghost use Rattle.page_base.specs.declared.numbers.PageId.{PageId};
ghost use Rattle.rec_log.specs.Records.{Record};
ghost use Rattle.sparse_set.specs.Sparse.{is_copied};
ghost use Rattle.snap_cat.specs.declared.snapshot.SnapState.TheVariants.{Suspect};
ghost use Rattle.snap_pages.specs.Shown.{counts, owes_of, pins, set_of, state_of, IsOpen, IsPinned};
ghost use Rattle.snap_pages.specs.Views.{KeepsViews};
ghost use Rattle.snap_pages.specs.Dues.{IsPushed};
ghost use Rattle.snap_pages.specs.Owed.{AreOwed};

use crate::{back, heal};
use ghost_log::Tally;
use page_base::{Bytes, Failed, Image, NoMemory, PageId, SnapNo};
use page_dev::{FileList, PageFile};
use rec_log::{Rec, Work};
use snap_cat::SnapState;
use snap_pages::SnapPages;
use std::alloc::Global;
use std::test::Fail;

// Changes a slot and takes the change back.
fn change_and_back<P: PageFile>(pages: &mut SnapPages<P>, work: &mut Work, rec: Rec)
    requires pinned { IsPinned pages.old rec.page }
    requires pushed { IsPushed pages.old rec.page }
    requires few { pins pages.old rec.page < 2 ^ 100 }
    requires room { 0 < work.old.spare }
    ensures recs { work.new.recs ≡ work.old.recs }
    ensures pins { pins pages.new ≡ pins pages.old }
    ensures views { KeepsViews pages.old pages.new }
{
    let page = rec.page;
    let _ = pages.change(page, &rec);
    pages.pin(page);
    work.push(rec);
    back(pages, work);
}

// Heals a snapshot's last record, or gives the snapshot up. Answers whether it was healed.
#[tactic(auto, using(crate::proofs::LostLemmas::lost_keeps))]
fn heal_or_lose<P: PageFile>(pages: &mut SnapPages<P>, s: SnapNo, scratch: &mut Image) -> bool
    requires snap { IsOpen pages.old s }
    requires sound { state_of pages.old s ≢ Suspect }
    requires some { owes_of pages.old s ≢ [] }
    requires copied { (front : List Record) (r : Record) → owes_of pages.old s ≡ front ++ r ∷ [] → is_copied (set_of pages.old s) r.page ≡ true }
    requires owed { AreOwed pages.old s }
    ensures lost { result ≡ false → KeepsViews pages.old pages.new }
    ensures counts { counts pages.new ≡ counts pages.old }
{
    match heal(pages, s, scratch) {
        Ok(()) => true,
        Err(_) => {
            pages.set_state(s, SnapState::Suspect);
            false
        }
    }
}

// A file of 16 blank pages.
#[derive(Drop)]
struct Fake {
    calls: Tally,
}

impl PageFile for Fake {
    ghost use Rattle.std.specs.Prelude.{false, []};

    ghost tells = { λ _. false };

    ghost content = { λ _. [] };

    ghost count = { λ _. 16 };

    ghost failures = { λ _. 0 };

    ghost calls = { λ file. file.calls };

    ghost counted = { λ file t. Prim.search rules };

    ghost sized = { λ file t. Prim.search rules };

    fn faults(&self) -> u64 {
        0
    }

    fn pages(&self) -> u32 {
        16
    }

    fn read_page(&mut self, _n: u32, into: &mut Image) -> Result<(), Failed> {
        self.calls.count();
        into.clear();
        Ok(())
    }

    fn write_page(&mut self, _n: u32, _from: &Image) -> Result<(), Failed> {
        self.calls.count();
        Ok(())
    }
}

fn source(alloc: Global) -> Result<SnapPages<Fake>, NoMemory>
    ensures counts { IfOk result (λ v. counts v ≡ 16 ∷ []) }
    ensures free { IfOk result (λ v. (p : PageId) → pins v p ≡ 0) }
{
    let mut files = Vec::new(alloc);
    files.push(Fake {
        calls: Tally::zero(),
    })?;
    match SnapPages::new(alloc, FileList::from(files), 4, 1) {
        Ok(pages) => Ok(pages),
        Err(_) => Err(NoMemory),
    }
}

// Changes slot 0 of page 7, which no snapshot lacks, and takes the change back.
fn undone(alloc: Global, pages: &mut SnapPages<Fake>, after: Bytes) -> Option<usize>
    requires counts { counts pages.old ≡ 16 ∷ [] }
    requires free { (p : PageId) → pins pages.old p ≡ 0 }
    requires few { length after ≤ 8094 }
{
    let p = PageId { file: 0, page: 7 };
    let mut work = Work::new(alloc).ok()?;
    work.reserve(1).ok()?;
    let Ok(()) = pages.fetch_source(alloc, p) else {
        return None;
    };
    let None = pages.next_push(p) else {
        return None;
    };
    let rec = Rec {
        page: p,
        slot: 0,
        before: Bytes::new(alloc),
        after,
    };
    change_and_back(pages, &mut work, rec);
    Some(work.len())
}

#[test]
fn a_change_is_taken_back(rt: HostRuntime) -> Result<(), Fail> {
    let mut pages = source(rt.alloc())?;
    let mut after = Bytes::new(rt.alloc());
    after.push(7)?;
    assert_eq!(rt; undone(rt.alloc(), &mut pages, after), Some(0));
    Ok(())
}
