//! Page files in memory.

ghost use Rattle.std.specs.Prelude.{◌≡◌, ◌⊎◌, ◌+◌, ◌<◌, IsTrue, IsErr, IsOk, None, Some, OnOk, OnErr, length, is_err, is_some, slice_set, slice_index_or, if◌then◌else◌, refl};
ghost use Rattle.page_dev.specs.Faults.{HasCause};
ghost use Rattle.page_dev.specs.PageFile.{file_page, WritesPage};
ghost use Rattle.mem_dev.specs.Plan.{planned, fails_next, one_call_less, after_call, one_more};
ghost use Rattle.mem_dev.specs.Store.{content_of, are_images, are_sized, is_full, is_over, written};
ghost use Rattle.mem_dev.specs.StoreLaws.{AreImages-sized, length-content};

use crate::fault_plan::FaultPlan;
use crate::file_rule::FileRule;
use crate::page_store::PageStore;
use ghost_log::Tally;
use page_base::{Failed, Image};
use page_dev::PageFile;
use std::alloc::Global;
use std::marker::Model;

/// A page file in memory. Chosen reads and writes of it fail, and so does a write that would give it more written
/// pages than it may have, or that finds no memory for one. It tells its content.
#[derive(Drop)]
pub struct MemPages {
    store: PageStore,
    limit: Option<u32>,
    plan: FaultPlan,
    calls: Tally,
    alloc: Global,
}

impl Model for MemPages {
    ghost use Rattle.mem_dev.specs.Store.{PagesState};

    ghost Value = { PagesState };

    ghost view = { λ a. record { pages = a.store; limit = a.limit; plan = a.plan; calls = a.calls } };
}

impl MemPages {
    /// A file of these pages that meets a rule.
    pub(crate) fn new(alloc: Global, store: PageStore, rule: FileRule) -> MemPages
        ensures { result ≡ record { pages = store; limit = rule.limit; plan = planned rule.due; calls = 0 } }
    {
        let (due, limit) = rule.into_parts();
        MemPages {
            store,
            limit,
            plan: FaultPlan::of(due),
            calls: Tally::zero(),
            alloc,
        }
    }

    /// The pages, and what is left of the rule.
    pub(crate) fn into_parts(self) -> (PageStore, FileRule)
        ensures store { result.0 ≡ self.pages }
        ensures rule { result.1 ≡ record { due = self.plan.due; limit = self.limit } }
    {
        let MemPages {
            store,
            limit,
            plan,
            calls: _,
            alloc: _,
        } = self;
        (store, FileRule::new(plan.into_due(), limit))
    }
}

fn is_over(limit: Option<u32>, store: &PageStore, n: u32) -> bool
    requires { n < length store.now }
    ensures { result ≡ is_over limit store.now n }
{
    match limit {
        None => false,
        Some(most) => !store.has(n) && most as usize <= store.written(),
    }
}

// Writes a page where the file may have it.
fn put_page(
    store: &mut PageStore,
    limit: Option<u32>,
    alloc: Global,
    n: u32,
    from: &Image,
) -> Result<(), Failed>
    requires { n < length store.old }
    ensures ok { OnOk result (store.new ≡ slice_set store.old n (Some from.now)) }
    ensures err { OnErr result (store.new ≡ store.old) }
    ensures over { IsTrue (is_over limit store.old n) → IsErr result }
    ensures there { IsTrue (is_some (slice_index_or store.old n None)) → IsOk result }
    ensures images { are_images store.new ≡ are_images store.old }
{
    if is_over(limit, store, n) {
        return Err(Failed);
    }
    match store.write(alloc, n, from) {
        Ok(()) => Ok(()),
        Err(_) => Err(Failed),
    }
}

impl PageFile for MemPages {
    ghost tells = { λ file. are_images file.pages };

    ghost content = { λ file. content_of file.pages };

    ghost count = { λ file. length file.pages };

    ghost failures = { λ file. file.plan.failures };

    ghost calls = { λ file. file.calls };

    ghost counted = { λ file t. length-content file.pages };

    ghost sized = { λ file t. AreImages-sized (content_of file.pages) t };

    fn faults(&self) -> u64 {
        self.plan.failures()
    }

    fn pages(&self) -> u32 {
        self.store.count()
    }

    fn read_page(&mut self, n: u32, into: &mut Image) -> Result<(), Failed>
        requires { n < length self.old.pages }
        ensures read { OnOk result (into.new ≡ file_page (content_of self.old.pages) n) }
        ensures calls { self.new.calls ≡ self.old.calls + 1 }
        ensures cause { HasCause self.old.plan.failures self.new.plan.failures result }

        // the call fails exactly where it was to, and nothing else changes
        ensures fails { is_err result ≡ fails_next self.old.plan.due }
        ensures plan { self.new.plan ≡ after_call self.old.plan }
        ensures pages { self.new.pages ≡ self.old.pages }
        ensures limit { self.new.limit ≡ self.old.limit }
    {
        self.calls.count();
        if self.plan.meets_fault() {
            return Err(Failed);
        }
        self.store.read(n, into);
        Ok(())
    }

    fn write_page(&mut self, n: u32, from: &Image) -> Result<(), Failed>
        requires { n < length self.old.pages }
        ensures written { WritesPage n from.now (content_of self.old.pages) (content_of self.new.pages) result }
        ensures tells { are_images self.new.pages ≡ are_images self.old.pages }
        ensures calls { self.new.calls ≡ self.old.calls + 1 }
        ensures cause { HasCause self.old.plan.failures self.new.plan.failures result }

        // after a failure nothing changed but the count, which rose by one
        ensures ok { OnOk result (self.new.pages ≡ slice_set self.old.pages n (Some from.now)) }
        ensures err { OnErr result (self.new.pages ≡ self.old.pages) }
        ensures due { self.new.plan.due ≡ one_call_less self.old.plan.due }
        ensures counted { self.new.plan.failures ≡ (if is_err result then one_more self.old.plan.failures else self.old.plan.failures) }
        ensures limit { self.new.limit ≡ self.old.limit }

        // the call fails where it was to, where the file would have too many pages, and else only for want of memory
        ensures planned { IsTrue (fails_next self.old.plan.due) → IsErr result }
        ensures over { IsTrue (is_over self.old.limit self.old.pages n) → IsErr result }
        ensures only { IsErr result → IsTrue (is_some (slice_index_or self.old.pages n None)) → IsTrue (fails_next self.old.plan.due) }
    {
        self.calls.count();
        if self.plan.meets_fault() {
            return Err(Failed);
        }
        let done = put_page(&mut self.store, self.limit, self.alloc, n, from);
        if done.is_err() {
            self.plan.count_fault();
        }
        done
    }
}

/// A page file in memory that has all its pages from the start and never fails: its count of faults is the constant 0.
#[derive(Drop)]
pub struct SurePages {
    store: PageStore,
    calls: Tally,
}

impl Model for SurePages {
    ghost use Rattle.std.specs.Prelude.{IsTrue};
    ghost use Rattle.mem_dev.specs.Store.{SureState, content_of, is_full};

    ghost Value = { SureState };

    ghost view = { λ a. record { pages = content_of a.store; calls = a.calls } };

    ghost invariant = { λ a. IsTrue (is_full a.store) };
}

impl SurePages {
    /// A file of these pages, of which each was written.
    pub(crate) fn new(store: PageStore) -> SurePages
        requires { IsTrue (is_full store) }
        ensures { result ≡ record { pages = content_of store; calls = 0 } }
    {
        SurePages {
            store,
            calls: Tally::zero(),
        }
    }

    /// The pages.
    pub(crate) fn into_store(self) -> PageStore
        ensures { content_of result ≡ self.pages }
    {
        let SurePages { store, calls: _ } = self;
        store
    }
}

impl PageFile for SurePages {
    ghost tells = { λ file. are_sized file.pages };

    ghost content = { λ file. file.pages };

    ghost count = { λ file. length file.pages };

    ghost failures = { λ _. 0 };

    ghost calls = { λ file. file.calls };

    ghost counted = { λ file t. refl };

    ghost sized = { λ file t. AreImages-sized file.pages t };

    fn faults(&self) -> u64 {
        0
    }

    fn pages(&self) -> u32 {
        self.store.count()
    }

    fn read_page(&mut self, n: u32, into: &mut Image) -> Result<(), Failed>
        requires { n < length self.old.pages }
        ensures ok { IsOk result }
        ensures read { into.new ≡ file_page self.old.pages n }
        ensures pages { self.new.pages ≡ self.old.pages }
        ensures calls { self.new.calls ≡ self.old.calls + 1 }
    {
        self.calls.count();
        self.store.read(n, into);
        Ok(())
    }

    fn write_page(&mut self, n: u32, from: &Image) -> Result<(), Failed>
        requires { n < length self.old.pages }
        ensures ok { IsOk result }
        ensures pages { self.new.pages ≡ slice_set self.old.pages n from.now }
        ensures tells { are_sized self.new.pages ≡ are_sized self.old.pages }
        ensures calls { self.new.calls ≡ self.old.calls + 1 }
    {
        self.calls.count();
        self.store.overwrite(n, from);
        Ok(())
    }
}
