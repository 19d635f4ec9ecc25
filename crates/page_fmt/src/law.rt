//! What pages keep, as functions whose contracts say it.

ghost use Rattle.std.specs.Prelude.{◌≡◌, ℕ, List};
ghost use Rattle.page_base.specs.declared.numbers.PageId.{PageId};
ghost use Rattle.page_base.specs.Pages.{set_at};
ghost use Rattle.page_base.specs.Slots.{with_slot};
ghost use Rattle.page_fmt.specs.Bridge.{slots_in, AreFull};
ghost use Rattle.page_fmt.specs.Edits.{edited};
ghost use Rattle.page_fmt.specs.Seen.{SlotsAt};

/// The bytes of their slots tell pages, of which none ends in an empty slot; and an edit of a page sets one slot.
pub fn slots_tell_pages()
    ensures same { (at other : SlotsAt) → AreFull at → AreFull other → slots_in at ≡ slots_in other → at ≡ other }
    ensures edit { (at : SlotsAt) (p : PageId) (i : ℕ) (x : List ℕ) → slots_in (set_at at p (edited (at p) i x)) ≡ with_slot (slots_in at) p i x }
    ensures full { (at : SlotsAt) (p : PageId) (i : ℕ) (x : List ℕ) → AreFull at → AreFull (set_at at p (edited (at p) i x)) }
{}
