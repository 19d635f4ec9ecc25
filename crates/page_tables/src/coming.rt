//! What becomes of a database where a table is created, as functions whose contracts say it.

ghost use Rattle.std.specs.Prelude.{◌≡◌, true, ℕ, List};
ghost use Rattle.std.specs.FinMap as finite;
ghost use Rattle.std.specs.List.{Any};
ghost use Rattle.page_base.specs.declared.numbers.PageId.{PageId};
ghost use Rattle.page_base.specs.Slots.{Slots};
ghost use Rattle.page_base.specs.declared.value.Value.{Value};
ghost use Rattle.page_fmt.specs.Seen.{SlotsAt, Looked, Shows};
ghost use Rattle.plain_model.specs.Tables.{Tables};
ghost use Rattle.sys_cat.specs.declared.desc.TableDesc.{TableDesc};
ghost use Rattle.sys_cat.specs.Changing.{with_desc};
ghost use Rattle.sys_cat.specs.Lists.{IsDesc};
ghost use Rattle.sys_cat.specs.Rows.{table_0, zero_root, rows_of};
ghost use Rattle.table_walk.specs.declared.plan.Edit.{Edit};
ghost use Rattle.table_walk.specs.declared.plan.Spot.{Spot};
ghost use Rattle.table_walk.specs.Plans.{place, put_all, AreFree, Carries};
ghost use Rattle.page_tables.specs.Bases.{IsBase};
ghost use Rattle.page_tables.specs.Creating.{IsNew, creating, Creates};
ghost use Rattle.page_tables.specs.Layout.{shape, first, Promises};
ghost use Rattle.page_tables.specs.Mine.{MayWriteAll};
ghost use Rattle.page_tables.specs.Owners.{owns};
ghost use Rattle.page_tables.specs.Rooting.{rooted, telling, IsOnRows};
ghost use Rattle.page_tables.specs.Sheets.{sheets};
ghost use Rattle.page_tables.specs.Writes.{done, AreClaimable};

/// Pages of a database that may be claimed are such as the plan of a table counts on: blank, no table's, different, and such as
/// may be named.
pub fn claimable_pages_are_free()
    ensures { (counts : List ℕ) (at : SlotsAt) (ds : List TableDesc) (tables : Tables) (claimed : ℕ → PageId) (n number : ℕ) → IsBase counts at ds tables → AreClaimable counts at claimed n → AreFree claimed n at (owns counts at number) }
{}

/// The writes that create a table go in turn, and behind them the database has one table more, of no rows.
pub fn a_table_is_created()
    ensures go { (counts : List ℕ) (s : Slots) (ds : List TableDesc) (tables : Tables) (d : TableDesc) (bytes : List ℕ) (claimed : ℕ → PageId) (n : ℕ) (edits : List Edit) → Creates counts s ds tables d bytes claimed n edits → MayWriteAll counts s (creating d bytes claimed n edits) }
    ensures base { (counts : List ℕ) (s : Slots) (ds : List TableDesc) (tables : Tables) (d : TableDesc) (bytes : List ℕ) (claimed : ℕ → PageId) (n : ℕ) (edits : List Edit) → Creates counts s ds tables d bytes claimed n edits → IsBase counts (sheets (done (creating d bytes claimed n edits) s)) (with_desc ds d) (finite.insert tables d.name (record { cols = d.cols; rows = finite.empty })) }
{}

/// A plan that puts the rows of a new table with any root puts them with the true one, where the row that tells of the root is
/// written so in the one edit that writes it; and the edits of rows that a plan of table 0 has are on pages of rows.
pub fn a_root_is_told_later()
    ensures plan { (counts : List ℕ) (at : SlotsAt) (ds : List TableDesc) (tables : Tables) (d : TableDesc) (root : PageId) (claimed : ℕ → PageId) (n : ℕ) (before later : List Edit) (spot : Spot) (slot : ℕ) (b : IsBase counts at ds tables) → IsNew ds d → IsDesc (rooted d root) → AreClaimable counts at claimed n → IsOnRows claimed at (telling before spot slot d later) (place claimed spot) → Carries shape table_0 (first zero_root) claimed n at (owns counts at 0) (telling before spot slot d later) (put_all table_0 (rows_of d) b.zero_rows) → Carries shape table_0 (first zero_root) claimed n at (owns counts at 0) (telling before spot slot (rooted d root) later) (put_all table_0 (rows_of (rooted d root)) b.zero_rows) }
    ensures rows { (counts : List ℕ) (at : SlotsAt) (ds : List TableDesc) (tables : Tables) (seen : List Looked) (cut put : List (List Value)) (claimed : ℕ → PageId) (n : ℕ) (edits : List Edit) (e : Edit) → IsBase counts at ds tables → Shows seen at → AreClaimable counts at claimed n → Promises table_0 seen zero_root cut put n edits → Any (λ f. f ≡ e) edits → e.of_row ≡ true → IsOnRows claimed at edits (place claimed e.spot) }
{}
