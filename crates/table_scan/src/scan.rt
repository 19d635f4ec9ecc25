//! A table that is read page by page: what was read is kept, and each page costs only itself.

ghost use Rattle.std.specs.Prelude.{◌≡◌, ℕ, IsSome, IfSome, IfOk, IfErr, []};
ghost use Rattle.page_base.specs.declared.numbers.PageId.{PageId};
ghost use Rattle.page_fmt.specs.Content.{content, IsPage};
ghost use Rattle.page_fmt.specs.Seen.{Saw};
ghost use Rattle.table_walk.specs.Index.{Indexes};
ghost use Rattle.table_walk.specs.declared.visit.Visit.{Visit};
ghost use Rattle.table_walk.specs.Answers.{IsAt};
ghost use Rattle.page_tables.specs.Layout as spec;
ghost use Rattle.table_scan.specs.Scanned.{IsScan, IsBadThen, with_page};

use crate::layout::{first, kids};
use page_base::{Image, NoMemory, PageId};
use page_fmt::Seen;
use std::alloc::Global;
use std::collections::BTreeMap;
use std::marker::Model;
use table_walk::{SeenRefusal, Visit, place};

/// The pages that were read of a table, and which one is read next.
#[derive(Drop)]
pub struct Scan {
    root: PageId,
    seen: Seen,
    places: BTreeMap<PageId, usize>,
    stack: Vec<Visit>,
    next: Option<Visit>,
}

impl Model for Scan {
    ghost use Rattle.table_scan.specs.Scanned.{Scanned, IsWalking};

    ghost Value = { Scanned };

    ghost view = { λ s. record { root = s.root; seen = s.seen; next = s.next } };

    ghost invariant = { λ s. IsWalking s.root s.seen s.places s.stack.items s.next };
}

// The visit that comes next, unless its page was read before.
fn not_twice(
    next: Option<Visit>,
    places: &BTreeMap<PageId, usize>,
    seen: &Seen,
) -> Result<Option<Visit>, SeenRefusal>
    requires { Indexes places.now seen.now }
    ensures same { IfOk result (λ n. n ≡ next) }
    ensures new { IfOk result (λ n. IfSome n (λ v. ¬ Saw seen.now v.page)) }
    ensures twice { IfErr result (λ e. (v : Visit) × (next ≡ Some v) × Saw seen.now v.page × (e ≡ SeenRefusal.Damaged v.from v.slot)) }
{
    let Some(visit) = next else {
        return Ok(None);
    };
    match place(places, seen, visit.page) {
        None => Ok(next),
        Some(_) => Err(SeenRefusal::Damaged {
            page: visit.from,
            slot: visit.slot,
        }),
    }
}

impl Scan {
    /// Nothing was read yet: the root comes first.
    pub fn new(alloc: Global, root: PageId) -> Result<Scan, NoMemory>
        ensures is { IfOk result (λ s. s ≡ record { root = root; seen = []; next = Some (spec.first root) }) }
        ensures scan { IfOk result IsScan }
    {
        Ok(Scan {
            root,
            seen: Seen::new(alloc)?,
            places: BTreeMap::new(alloc),
            stack: Vec::new(alloc),
            next: Some(first(root)),
        })
    }

    /// The visit of the page that is read next, which wasn't read yet; None where all were read. Takes no memory.
    pub fn next(&self) -> Option<Visit>
        ensures is { result ≡ self.now.next }
        ensures scan { IsScan self.now }
    {
        self.next
    }

    /// What was read. Takes no memory.
    pub fn seen(&self) -> &Seen
        ensures is { result.now ≡ self.now.seen }
        ensures scan { IsScan self.now }
    {
        &self.seen
    }

    /// With the page that was to be read next, of which this is the image. Damaged exactly names a slot of it that is no
    /// address, or the slot that names the page behind it where that was read before; never where the pages are a table.
    pub fn read(self, alloc: Global, image: &Image) -> Result<Scan, SeenRefusal>
        requires next { IsSome self.next }
        requires page { IsPage image.now }
        ensures root { IfOk result (λ s. s.root ≡ self.root) }
        ensures seen { IfOk result (λ s. (v : Visit) → self.next ≡ Some v → s.seen ≡ with_page self.seen v.page (content image.now)) }
        ensures scan { IfOk result IsScan }
        ensures bad { IfErr result (IsAt (IsBadThen self (content image.now))) }
    {
        let Scan {
            root,
            mut seen,
            mut places,
            mut stack,
            next,
        } = self;
        let visit = next.unwrap();
        let mut more = kids(alloc, visit, image)?;
        places.insert(visit.page, seen.len())?;
        seen.add(alloc, visit.page, image)?;
        more.reverse();
        stack.append(&mut more)?;
        let next = not_twice(stack.pop(), &places, &seen)?;
        Ok(Scan {
            root,
            seen,
            places,
            stack,
            next,
        })
    }
}
