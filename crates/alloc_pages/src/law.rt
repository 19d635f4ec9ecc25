//! What setting one slot does to the owners of pages, as a function whose contract says it.

ghost use Rattle.std.specs.Prelude.{◌≡◌, ◌≢◌, ◌<◌, ◌^◌, ℕ, List};
ghost use Rattle.page_base.specs.declared.numbers.PageId.{PageId};
ghost use Rattle.page_base.specs.Slots.{Slots, with_slot};
ghost use Rattle.alloc_pages.specs.Owners.{owner_in, owner_bytes, page_owner};
ghost use Rattle.alloc_pages.specs.Spots.{spot_of};

/// A page's slot that is given an owner's bytes makes that owner the page's and leaves all other pages' owners; and a slot
/// of another page than the one that tells of a page leaves that page's owner.
pub fn a_claim_changes_one_owner()
    ensures read { (owner : ℕ) → owner < 2 ^ 32 → owner_in (owner_bytes owner) ≡ owner }
    ensures here { (slots : Slots) (p : PageId) (owner : ℕ) → owner < 2 ^ 32 → page_owner (with_slot slots (spot_of p).page (spot_of p).slot (owner_bytes owner)) p ≡ owner }
    ensures others { (slots : Slots) (p q : PageId) (bytes : List ℕ) → q ≢ p → page_owner (with_slot slots (spot_of p).page (spot_of p).slot bytes) q ≡ page_owner slots q }
    ensures elsewhere { (slots : Slots) (p q : PageId) (i : ℕ) (bytes : List ℕ) → (spot_of q).page ≢ p → page_owner (with_slot slots p i bytes) q ≡ page_owner slots q }
{}
