//! The slots of a leaf in memory, with the bytes that they take on a page.

ghost use Rattle.std.specs.Prelude.{ℕ, List, [], true, false, ◌≡◌, ◌≢◌, ◌<◌, ◌≤◌, ◌-◌, ◌+◌, ◌*◌, IfOk, OnOk, IfSome, IfNone, length, take, slice_index_or};
ghost use Rattle.page_fmt.specs.Edits.{set_slot, cleared, trimmed};
ghost use Rattle.page_fmt.specs.Seen.{Looked};
ghost use Rattle.page_fmt.specs.Spelling.{used, FitsPage};
ghost use Rattle.table_heap.specs.Places.{IsFirstEmpty};

use page_base::{Bytes, NoMemory};
use page_fmt::Seen;
use std::alloc::Global;
use std::marker::Model;

// The most bytes that a page has for its slots and what it says of them.
const PAGE: usize = 8192;

// The slots of a leaf, and how many bytes they take on a page.
#[derive(Drop)]
pub(crate) struct LeafSlots {
    slots: Vec<Bytes>,
    taken: usize,
}

impl Model for LeafSlots {
    ghost use Rattle.std.specs.Prelude.{ℕ, List, ◌≡◌};
    ghost use Rattle.page_fmt.specs.Spelling.{used, FitsPage};

    ghost Value = { List (List ℕ) };

    ghost view = { λ a. a.slots.items };

    ghost invariant = { λ a. (a.taken ≡ used a.slots.items) × FitsPage a.slots.items };
}

// The slots of a page that was read.
pub(crate) fn copied(alloc: Global, seen: &Seen, i: usize) -> Result<Vec<Bytes>, NoMemory>
    requires { i < length seen.now }
    ensures are { IfOk result (λ slots. (d : Looked) → slots.items ≡ (slice_index_or seen.now i d).slots) }
    ensures fits { IfOk result (λ slots. FitsPage slots.items) }
{
    let mut slots = Vec::new(alloc);
    for j in 0..seen.slots(i) {
        slots.push(Bytes::from(Vec::from_slice(alloc, seen.slot(i, j))?))?;
    }
    Ok(slots)
}

// How many bytes these slots take on a page.
fn used(slots: &[Bytes]) -> usize
    requires { used slots.now ≤ 8192 }
    ensures { result ≡ used slots.now }
{
    let mut used = 96;
    for bytes in slots {
        used += bytes.len() + 2;
    }
    used
}

// How many slots there are without the empty ones at the end.
fn filled(slots: &[Bytes]) -> usize
    ensures { take result slots.now ≡ trimmed slots.now }
{
    let mut filled = 0;
    for (i, bytes) in slots.iter().enumerate() {
        if bytes.is_empty() {
            continue;
        }
        filled = i + 1;
    }
    filled
}

impl LeafSlots {
    // No slots.
    pub(crate) fn new(alloc: Global) -> Self
        ensures { result ≡ [] }
    {
        LeafSlots {
            slots: Vec::new(alloc),
            taken: 96,
        }
    }

    // The slots of a page that was read.
    pub(crate) fn read(alloc: Global, seen: &Seen, i: usize) -> Result<Self, NoMemory>
        requires { i < length seen.now }
        ensures { IfOk result (λ leaf. (d : Looked) → leaf ≡ (slice_index_or seen.now i d).slots) }
    {
        let slots = copied(alloc, seen, i)?;
        let taken = used(slots.as_slice());
        Ok(LeafSlots { slots, taken })
    }

    // All slots, in order.
    pub(crate) fn as_slice(&self) -> &[Bytes]
        ensures value { result.now ≡ self.now }
        ensures fits { FitsPage self.now }
    {
        self.slots.as_slice()
    }

    // The first empty slot, or the one behind the last.
    fn first_empty(&self) -> usize
        ensures { IsFirstEmpty self.now result }
    {
        for (i, bytes) in self.slots.iter().enumerate() {
            if bytes.is_empty() {
                return i;
            }
        }
        self.slots.len()
    }

    // Where a new row of so many bytes goes, if there is room.
    pub(crate) fn slot_for(&self, size: usize) -> Option<usize>
        ensures slot { IfSome result (IsFirstEmpty self.now) }
        ensures room { IfSome result (λ j. (x : List ℕ) → length x ≡ size → used (set_slot self.now j x) ≤ 8192) }
        ensures none { IfNone result ((x : List ℕ) (j : ℕ) → length x ≡ size → IsFirstEmpty self.now j → 8192 < used (set_slot self.now j x)) }
    {
        if PAGE - self.taken < size {
            return None;
        }
        let slot = self.first_empty();
        if slot == self.slots.len() && PAGE - self.taken < size.saturating_add(2) {
            return None;
        }
        Some(slot)
    }

    // Whether a row of so many bytes has room in the slot of another one.
    pub(crate) fn has_room(&self, slot: usize, size: usize) -> bool
        ensures there { result ≡ true → slot < length self.now }
        ensures yes { result ≡ true → (x : List ℕ) → length x ≡ size → used (set_slot self.now slot x) ≤ 8192 }
        ensures no { result ≡ false → slot < length self.now → (x : List ℕ) → length x ≡ size → 8192 < used (set_slot self.now slot x) }
    {
        if self.slots.len() <= slot {
            return false;
        }
        size <= PAGE - self.taken + self.slots[slot].len()
    }

    // Puts bytes into a slot, where there is room.
    pub(crate) fn set(&mut self, slot: usize, bytes: Bytes) -> Result<(), NoMemory>
        requires there { slot ≤ length self.old }
        requires some { bytes ≢ [] }
        requires room { used (set_slot self.old slot bytes) ≤ 8192 }
        ensures { OnOk result (self.new ≡ set_slot self.old slot bytes) }
    {
        let size = bytes.len();
        if slot == self.slots.len() {
            self.slots.push(bytes)?;
            self.taken += size + 2;
            return Ok(());
        }
        self.taken = self.taken - self.slots[slot].len() + size;
        self.slots[slot] = bytes;
        Ok(())
    }

    // Empties a slot, if it is there.
    pub(crate) fn clear(&mut self, alloc: Global, slot: usize)
        ensures { slot < length self.old → self.new ≡ cleared self.old slot }
    {
        if self.slots.len() <= slot {
            return;
        }
        self.slots[slot] = Bytes::new(alloc);
        let filled = filled(self.slots.as_slice());
        self.slots.truncate(filled);
        self.taken = used(self.slots.as_slice());
    }
}
