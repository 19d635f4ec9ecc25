//! What records that can be taken back keep, as functions whose contracts say it.

ghost use Rattle.std.specs.Prelude.{◌≡◌, ◌≢◌, ◌⊎◌, ◌%◌, ◌≤◌, ◌∷◌, ◌++◌, [], true, false, ℕ, Bool, List, length};
ghost use Rattle.page_base.specs.declared.numbers.PageId.{PageId};
ghost use Rattle.page_base.specs.Slots.{Slots, with_slot};
ghost use Rattle.page_fmt.specs.Spelling.{used};
ghost use Rattle.alloc_pages.specs.Owners.{page_owner};
ghost use Rattle.alloc_pages.specs.Spots.{spot_of};
ghost use Rattle.rec_log.specs.Records.{Record};
ghost use Rattle.page_tables.specs.Sheets.{sheets};
ghost use Rattle.open_tables.specs.Back.{LiesIn, IsLast, Back};
ghost use Rattle.open_tables.specs.Names.{names, AreClaims};

/// A change on a page that fits, with its record, leaves records that can be taken back; and the last of such records can be,
/// behind which the others can.
pub fn records_are_kept_and_taken_back()
    ensures kept { (writes : ℕ → Bool) (records : List Record) (slots : Slots) (r : Record) → slots r.page r.slot ≡ r.before → (length r.before ≡ length r.after) ⊎ (used (sheets slots r.page) ≤ 8192) → LiesIn writes (with_slot slots r.page r.slot r.after) r → Back writes records slots → Back writes (records ++ r ∷ []) (with_slot slots r.page r.slot r.after) }
    ensures taken { (writes : ℕ → Bool) (records : List Record) (slots : Slots) (r : Record) → Back writes (records ++ r ∷ []) slots → Back writes records (with_slot slots r.page r.slot r.before) × IsLast writes slots r }
{}

/// Records that can be taken back are claims of free pages where they are of owners, name owners that their session writes
/// now, and are else of pages whose owner it writes now.
pub fn records_lie_where_their_session_writes()
    ensures claims { (writes : ℕ → Bool) (records : List Record) (slots : Slots) → Back writes records slots → AreClaims records }
    ensures claimed { (writes : ℕ → Bool) (records : List Record) (slots : Slots) → writes 0 ≡ false → Back writes records slots → (q : PageId) → names records (spot_of q).page (spot_of q).slot ≡ true → writes (page_owner slots q) ≡ true }
    ensures edits { (writes : ℕ → Bool) (records : List Record) (slots : Slots) → writes 0 ≡ false → Back writes records slots → (p : PageId) (i : ℕ) → names records p i ≡ true → ((p.page % 1280 ≢ 0) × (writes (page_owner slots p) ≡ true)) ⊎ ((q : PageId) × ((spot_of q).page ≡ p) × ((spot_of q).slot ≡ i)) }
{}
