//! What databases on pages keep, as functions whose contracts say it.

ghost use Rattle.std.specs.Prelude.{◌≡◌, ◌≢◌, ◌<◌, ◌≤◌, ◌+◌, ◌%◌, true, ℕ, List, length, map, if◌then◌else◌};
ghost use Rattle.std.specs.FinMap as finite;
ghost use Rattle.std.specs.List.{Any};
ghost use Rattle.page_base.specs.declared.column.Column.{Column};
ghost use Rattle.page_base.specs.declared.limits.TheConstants.{MAX_SLOTS};
ghost use Rattle.page_base.specs.declared.numbers.PageId.{PageId};
ghost use Rattle.page_base.specs.Pages.{set_at};
ghost use Rattle.page_base.specs.Slots.{Slots, with_slot};
ghost use Rattle.page_fmt.specs.Bridge.{slots_in, AreFull};
ghost use Rattle.page_fmt.specs.Edits.{edited, slot_at};
ghost use Rattle.page_fmt.specs.Seen.{SlotsAt};
ghost use Rattle.plain_model.specs.Tables.{Rows, Tables};
ghost use Rattle.alloc_pages.specs.Owners.{page_owner};
ghost use Rattle.sys_cat.specs.declared.desc.TableDesc.{TableDesc};
ghost use Rattle.sys_cat.specs.Lists.{AreTables};
ghost use Rattle.sys_cat.specs.Rows.{table_0, zero_root};
ghost use Rattle.table_walk.specs.declared.plan.Edit.{Edit};
ghost use Rattle.table_walk.specs.Plans.{after, also, is_claimed, Go, Carries};
ghost use Rattle.page_tables.specs.Bases.{AreRowsOf, AreStanding, IsBase};
ghost use Rattle.page_tables.specs.Layout.{shape, first};
ghost use Rattle.page_tables.specs.Owners.{is_there, owner, owns, IsAllocPage, IsSpread};
ghost use Rattle.page_tables.specs.Sheets.{sheets};
ghost use Rattle.page_tables.specs.Writes.{done, claims, write_of, with_claims, AreClaimable};

/// Pages are one database: one list of descriptions and one set of tables.
pub fn bases_are_one()
    ensures descs { (counts : List ℕ) (at : SlotsAt) (ds es : List TableDesc) (tables others : Tables) → IsBase counts at ds tables → IsBase counts at es others → ds ≡ es }
    ensures tables { (counts : List ℕ) (at : SlotsAt) (ds es : List TableDesc) (tables others : Tables) → IsBase counts at ds tables → IsBase counts at es others → tables ≡ others }
{}

/// Slots as lists: each slot that a page can hold stands in its sheet, a slot that is set is an edit of the sheet, and pages
/// of the format are their own sheets.
pub fn sheets_are_pages()
    ensures full { (s : Slots) → AreFull (sheets s) }
    ensures slot { (s : Slots) (p : PageId) (i : ℕ) → i < MAX_SLOTS → slot_at (sheets s p) i ≡ s p i }
    ensures edit { (s : Slots) (p : PageId) (i : ℕ) (x : List ℕ) → i < MAX_SLOTS → sheets (with_slot s p i x) ≡ set_at (sheets s) p (edited (sheets s p) i x) }
    ensures pages { (at : SlotsAt) → AreFull at → ((p : PageId) → length (at p) ≤ MAX_SLOTS) → sheets (slots_in at) ≡ at }
    ensures owners { (s : Slots) (p : PageId) → owner (sheets s) p ≡ page_owner s p }
{}

/// Claims and edits over slots are the same over pages.
pub fn writes_are_claims_and_edits()
    ensures claims { (number : ℕ) (claimed : ℕ → PageId) (n : ℕ) (s : Slots) → sheets (done (claims number claimed n) s) ≡ with_claims number claimed n (sheets s) }
    ensures edits { (claimed : ℕ → PageId) (edits : List Edit) (s : Slots) (at : SlotsAt) → sheets s ≡ at → Go claimed at edits → sheets (done (map (write_of claimed) edits) s) ≡ after claimed at edits }
{}

/// A table depends on which pages are its own, and on what stands on these; so an edit of another table's page leaves it.
pub fn tables_depend_on_their_pages()
    ensures same { (counts : List ℕ) (at other : SlotsAt) (cols : List Column) (number : ℕ) (root : PageId) (rows : Rows) → owns counts other number ≡ owns counts at number → ((p : PageId) → owns counts at number p ≡ true → at p ≡ other p) → AreRowsOf counts at cols number root rows → AreRowsOf counts other cols number root rows }
    ensures edit { (counts : List ℕ) (at : SlotsAt) (p : PageId) (slots : List (List ℕ)) (cols : List Column) (number : ℕ) (root : PageId) (rows : Rows) → ((a : PageId) → IsAllocPage counts a → IsSpread counts at a) → is_there counts p ≡ true → owner at p ≢ 4294967295 → owner at p ≢ number + 1 → AreRowsOf counts at cols number root rows → AreRowsOf counts (set_at at p slots) cols number root rows }
{}

/// Claims give the claimed pages to their table and leave whose every other page is, and what stands on each page that tells
/// of no others.
pub fn claims_give_their_pages()
    ensures owners { (counts : List ℕ) (number : ℕ) (claimed : ℕ → PageId) → number + 1 < 4294967295 → (n : ℕ) (at : SlotsAt) (p : PageId) → ((i j : ℕ) → i < j → j < n → claimed i ≢ claimed j) → owner (with_claims number claimed n at) p ≡ (if is_claimed claimed n p then number + 1 else owner at p) }
    ensures owned { (counts : List ℕ) (number : ℕ) (claimed : ℕ → PageId) → number + 1 < 4294967295 → (n : ℕ) (at : SlotsAt) → AreClaimable counts at claimed n → owns counts (with_claims number claimed n at) number ≡ also (owns counts at number) claimed n }
    ensures pages { (counts : List ℕ) (number : ℕ) (claimed : ℕ → PageId) → number + 1 < 4294967295 → (n : ℕ) (at : SlotsAt) (p : PageId) → p.page % 1280 ≢ 0 → with_claims number claimed n at p ≡ at p }
{}

/// A plan of one table, behind its claims, leads from a database to the one in which that table has the plan's rows and all
/// else is as it was.
pub fn a_plan_is_one_of_the_database()
    ensures { (counts : List ℕ) (at : SlotsAt) (ds : List TableDesc) (tables : Tables) (d : TableDesc) (claimed : ℕ → PageId) (n : ℕ) (edits : List Edit) (rows : Rows) → IsBase counts at ds tables → Any (λ e. e ≡ d) ds → AreClaimable counts at claimed n → Carries shape d.cols (first d.root) claimed n at (owns counts at d.number.0) edits rows → IsBase counts (after claimed (with_claims d.number.0 claimed n at) edits) ds (finite.insert tables d.name (record { cols = d.cols; rows = rows })) }
{}

/// A plan of table 0, behind its claims, leads to its rows, and leaves all other tables as they stand; and pages on which the
/// tables stand that these rows tell are a database.
pub fn a_plan_of_table_0_leaves_the_tables()
    ensures plan { (counts : List ℕ) (at : SlotsAt) (ds : List TableDesc) (tables : Tables) (claimed : ℕ → PageId) (n : ℕ) (edits : List Edit) (rows : Rows) → IsBase counts at ds tables → AreClaimable counts at claimed n → Carries shape table_0 (first zero_root) claimed n at (owns counts at 0) edits rows → AreStanding counts (after claimed (with_claims 0 claimed n at) edits) rows ds tables }
    ensures base { (counts : List ℕ) (at : SlotsAt) (rows : Rows) (ds : List TableDesc) (tables : Tables) → AreStanding counts at rows ds tables → AreTables (finite.values rows) ds → IsBase counts at ds tables }
{}
