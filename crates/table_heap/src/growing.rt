//! Which claimed pages become leaves and root pages, and which root page names which leaf.

ghost use Rattle.std.specs.Prelude.{ℕ, List, [], ◌∷◌, ◌++◌, ◌≡◌, ◌≤◌, ◌<◌, ◌+◌, ◌-◌, None, Some, IfSome, IfOk, OnOk, length, slice_index_or};
ghost use Rattle.table_walk.specs.declared.plan.Spot.{Spot};
ghost use Rattle.table_walk.specs.declared.plan.Spot.TheVariants.{New, Old};
ghost use Rattle.table_heap.specs.Growth.{IsGrowing, pages_in, slots_made};
ghost use Rattle.table_heap.specs.declared.growing.RootPage.{RootPage};

use page_base::{ListOf, NoMemory, PageId};
use std::alloc::Global;
use table_walk::Spot;

/// The most slots that a root page has.
pub(crate) const SLOTS: usize = 1001;

/// A root page that has so many slots, none where it is claimed, and is to name more: leaves by their claims, and perhaps
/// the next root page.
#[derive(Drop)]
pub(crate) struct RootPage {
    pub spot: Spot,
    pub slots: usize,
    pub names: ListOf<u32>,
    pub next: Option<u32>,
}

/// What is claimed so far: how many pages, the leaves among them, and the root pages that change, of which the last one
/// has so much room.
#[derive(Drop)]
pub(crate) struct Growth {
    pub claims: u32,
    pub leaves: ListOf<u32>,
    pub full: ListOf<RootPage>,
    pub last: RootPage,
    pub room: usize,
}

// A root page that names no more.
fn root_page(alloc: Global, spot: Spot, slots: usize) -> RootPage
    ensures { result ≡ record { spot = spot; slots = slots; names = []; next = None } }
{
    RootPage {
        spot,
        slots,
        names: ListOf::new(alloc),
        next: None,
    }
}

impl Growth {
    // Nothing is claimed, and the last root page has so many slots.
    fn new(alloc: Global, last: PageId, slots: usize) -> Self
        requires some { 0 < slots }
        requires short { slots ≤ 1001 }
        ensures { IsGrowing (Old last) slots 0 [] result }
    {
        Growth {
            claims: 0,
            leaves: ListOf::new(alloc),
            full: ListOf::new(alloc),
            last: root_page(alloc, Spot::Old(last), slots),
            room: SLOTS - slots,
        }
    }

    /// How many pages change with so many leaves, if that is a number at all.
    pub(crate) fn pages(&self, leaves: usize) -> Option<usize>
        ensures { IfSome result (λ n. n ≡ leaves + length (pages_in self.now)) }
    {
        leaves.checked_add(self.full.len())?.checked_add(1)
    }

    /// A root page that changes, in order.
    pub(crate) fn root(&self, i: usize) -> &RootPage
        requires { i < length (pages_in self.now) }
        ensures { (d : RootPage) → slice_index_or (pages_in self.now) i d ≡ result.now }
    {
        if i < self.full.len() {
            return self.full.at(i);
        }
        &self.last
    }

    // Claims a page.
    fn claim(&mut self) -> Result<u32, NoMemory>
        ensures claim { IfOk result (λ claim. claim ≡ self.old.claims) }
        ensures next { OnOk result (self.new ≡ record self.old { claims = self.old.claims + 1 }) }
    {
        let claim = self.claims;
        match claim.checked_add(1) {
            Some(next) => {
                self.claims = next;
                Ok(claim)
            }
            None => Err(NoMemory),
        }
    }

    // Claims a root page, which the last one names.
    fn add_root(&mut self, alloc: Global) -> Result<(), NoMemory>
        requires { self.old.room ≡ 0 }
        ensures grows { (spot : Spot) (count n leaf : ℕ) → self.old.claims ≡ leaf + 1 → IsGrowing spot count n (leaf ∷ []) self.old → OnOk result (IsGrowing spot count n (leaf ∷ []) self.new) }
        ensures room { OnOk result (self.new.room ≡ 1000) }
    {
        let root = self.claim()?;
        let new = root_page(alloc, Spot::New(root), 0);
        let mut full = std::mem::replace(&mut self.last, new);
        full.next = Some(root);
        self.full.push(full)?;
        self.room = SLOTS - 1;
        Ok(())
    }

    // Claims a root page where the last one has no room.
    fn make_room(&mut self, alloc: Global) -> Result<(), NoMemory>
        ensures grows { (spot : Spot) (count n leaf : ℕ) → self.old.claims ≡ leaf + 1 → IsGrowing spot count n (leaf ∷ []) self.old → OnOk result (IsGrowing spot count n (leaf ∷ []) self.new) }
        ensures room { OnOk result (0 < self.new.room) }
    {
        if self.room == 0 {
            return self.add_root(alloc);
        }
        Ok(())
    }

    // The last root page names a leaf.
    fn name_leaf(&mut self, leaf: u32) -> Result<(), NoMemory>
        requires { 0 < self.old.room }
        ensures { (spot : Spot) (count n : ℕ) → IsGrowing spot count n (leaf ∷ []) self.old → OnOk result (IsGrowing spot count (n + 1) [] self.new) }
    {
        self.leaves.push(leaf)?;
        self.last.names.push(leaf)?;
        self.room -= 1;
        Ok(())
    }

    // Claims a leaf, and a root page to name it where the last one has no room.
    fn add_leaf(&mut self, alloc: Global) -> Result<(), NoMemory>
        ensures { (spot : Spot) (count n : ℕ) → IsGrowing spot count n [] self.old → OnOk result (IsGrowing spot count (n + 1) [] self.new) }
    {
        let leaf = self.claim()?;
        self.make_room(alloc)?;
        self.name_leaf(leaf)
    }
}

/// What is claimed for so many leaves, where the last root page has so many slots.
pub(crate) fn grown(
    alloc: Global,
    last: PageId,
    slots: usize,
    leaves: usize,
) -> Result<Growth, NoMemory>
    requires some { 0 < slots }
    requires short { slots ≤ 1001 }
    ensures { IfOk result (IsGrowing (Old last) slots leaves []) }
{
    let mut growth = Growth::new(alloc, last, slots);
    for _ in 0..leaves {
        growth.add_leaf(alloc)?;
    }
    Ok(growth)
}
