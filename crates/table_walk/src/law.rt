//! What tables of pages keep, as functions whose contracts say it.

ghost use Rattle.std.specs.Prelude.{◌≡◌, ◌≢◌, ◌<◌, ◌∷◌, ◌++◌, [], true, ℕ, Bool, List, Some};
ghost use Rattle.std.specs.FinMap as finite;
ghost use Rattle.std.specs.List.{All, AllPairs};
ghost use Rattle.page_base.specs.declared.column.Column.{Column};
ghost use Rattle.page_base.specs.declared.numbers.PageId.{PageId};
ghost use Rattle.page_base.specs.declared.value.Value.{Value};
ghost use Rattle.page_fmt.specs.Edits.{slot_at};
ghost use Rattle.page_fmt.specs.Seen.{SlotsAt};
ghost use Rattle.plain_model.specs.Tables.{Rows, key_of};
ghost use Rattle.row_fmt.specs.Rows.{row_bytes};
ghost use Rattle.table_walk.specs.declared.plan.Edit.{Edit};
ghost use Rattle.table_walk.specs.declared.plan.Spot.{Spot};
ghost use Rattle.table_walk.specs.declared.visit.Visit.{Visit};
ghost use Rattle.table_walk.specs.Differences.{edit_at};
ghost use Rattle.table_walk.specs.Filling.{IsLike, IsLeafOf, KeepsByKeys};
ghost use Rattle.table_walk.specs.Walk.{IsWalk};
ghost use Rattle.table_walk.specs.Addresses.{address, page_at, IsTarget};
ghost use Rattle.table_walk.specs.Plans.{place, changed, after, Fits, also, IsBelow, IsOtherSlot, Carries};
ghost use Rattle.table_walk.specs.Tables.{Shape, HasRows};

/// The rows of pages are one map, whichever pages are said to be owned.
pub fn rows_are_one()
    ensures { (shape : Shape) (cols : List Column) (at : SlotsAt) (owns also : PageId → Bool) (start : Visit) (rows other : Rows) → HasRows shape cols at owns start rows → HasRows shape cols at also start other → rows ≡ other }
{}

/// The rows depend only on which pages are owned, and on what stands on these.
pub fn rows_depend_on_owned_pages()
    ensures { (shape : Shape) (cols : List Column) (at other : SlotsAt) (owns : PageId → Bool) (start : Visit) (rows : Rows) → ((p : PageId) → owns p ≡ true → at p ≡ other p) → HasRows shape cols at owns start rows → HasRows shape cols other owns start rows }
{}

/// A plan depends only on pages that the table owns or claims: others may change the rest between its edits.
pub fn plans_depend_on_owned_pages()
    ensures { (shape : Shape) (cols : List Column) (start : Visit) (claimed : ℕ → PageId) (n : ℕ) (at other : SlotsAt) (owns : PageId → Bool) (edits : List Edit) (rows : Rows) → ((p : PageId) → also owns claimed n p ≡ true → at p ≡ other p) → Carries shape cols start claimed n at owns edits rows → Carries shape cols start claimed n other owns edits rows }
{}

/// A plan depends only on the pages that it claims: a list of these may be read with any page behind its end.
pub fn plans_depend_on_the_claimed_pages()
    ensures { (shape : Shape) (cols : List Column) (start : Visit) (claimed other : ℕ → PageId) (n : ℕ) (at : SlotsAt) (owns : PageId → Bool) (edits : List Edit) (rows : Rows) → ((i : ℕ) → i < n → claimed i ≡ other i) → All (IsBelow n) edits → Carries shape cols start claimed n at owns edits rows → Carries shape cols start other n at owns edits rows }
{}

/// After its first edit a plan promises the same of the edits to come, and behind the last one the rows are there.
pub fn plans_are_carried_on()
    ensures first { (shape : Shape) (cols : List Column) (start : Visit) (claimed : ℕ → PageId) (n : ℕ) (at : SlotsAt) (owns : PageId → Bool) (e : Edit) (edits : List Edit) (rows : Rows) → Carries shape cols start claimed n at owns (e ∷ edits) rows → Fits claimed at e × (also owns claimed n (place claimed e.spot) ≡ true) }
    ensures later { (shape : Shape) (cols : List Column) (start : Visit) (claimed : ℕ → PageId) (n : ℕ) (at : SlotsAt) (owns : PageId → Bool) (e : Edit) (edits : List Edit) (rows : Rows) → Carries shape cols start claimed n at owns (e ∷ edits) rows → Carries shape cols start claimed n (changed claimed at e) owns edits rows }
    ensures last { (shape : Shape) (cols : List Column) (start : Visit) (claimed : ℕ → PageId) (n : ℕ) (at : SlotsAt) (owns : PageId → Bool) (rows : Rows) → Carries shape cols start claimed n at owns [] rows → HasRows shape cols at (also owns claimed n) start rows }
{}

/// The address of a page that may be named is read as that page.
pub fn addresses_are_read()
    ensures { (p : PageId) → IsTarget p → page_at (address p) ≡ Some p }
{}

/// A row that a plan puts may be filled in when it is done: another row of its key, in as many bytes, goes to its slot in
/// place of it, and the table has that one.
pub fn a_row_may_be_filled_in()
    ensures { (shape : Shape) (cols : List Column) (start : Visit) (claimed : ℕ → PageId) (n : ℕ) (at : SlotsAt) (owns : PageId → Bool) (before later : List Edit) (spot : Spot) (slot : ℕ) (row new : List Value) (rows : Rows) → KeepsByKeys shape → IsLike cols row new → AllPairs (IsOtherSlot claimed) (before ++ edit_at spot (slot, row_bytes row) ∷ later) → slot_at (at (place claimed spot)) slot ≢ row_bytes new → ((done : List Visit) → IsWalk shape.kids (after claimed at (before ++ edit_at spot (slot, row_bytes row) ∷ later)) start done [] → IsLeafOf done (place claimed spot)) → Carries shape cols start claimed n at owns (before ++ edit_at spot (slot, row_bytes row) ∷ later) rows → Carries shape cols start claimed n at owns (before ++ edit_at spot (slot, row_bytes new) ∷ later) (finite.insert rows (key_of cols new) new) }
{}
