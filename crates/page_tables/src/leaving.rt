//! What becomes of a database where a table is dropped, as a function whose contract says it.

ghost use Rattle.std.specs.Prelude.{◌≡◌, true, ℕ, List, [], map};
ghost use Rattle.std.specs.FinMap as finite;
ghost use Rattle.page_base.specs.declared.column.Column.{Column};
ghost use Rattle.page_base.specs.declared.numbers.PageId.{PageId};
ghost use Rattle.page_base.specs.Slots.{Slots};
ghost use Rattle.page_fmt.specs.Seen.{SlotsAt};
ghost use Rattle.plain_model.specs.Tables.{Rows, Tables};
ghost use Rattle.alloc_pages.specs.Owners.{page_owner};
ghost use Rattle.sys_cat.specs.declared.desc.TableDesc.{TableDesc};
ghost use Rattle.sys_cat.specs.Changing.{without_desc};
ghost use Rattle.table_walk.specs.declared.plan.Edit.{Edit};
ghost use Rattle.table_walk.specs.declared.visit.Visit.{Visit};
ghost use Rattle.table_walk.specs.Walk.{IsWalk};
ghost use Rattle.page_tables.specs.Bases.{AreRowsOf, IsBase};
ghost use Rattle.page_tables.specs.Dropping.{ArePagesOf, dropping, Drops};
ghost use Rattle.page_tables.specs.Layout.{shape, first};
ghost use Rattle.page_tables.specs.Mine.{MayWriteAll};
ghost use Rattle.page_tables.specs.Owners.{owns};
ghost use Rattle.page_tables.specs.Sheets.{sheets};
ghost use Rattle.page_tables.specs.Writes.{done};

/// The writes that drop a table go in turn, behind them the database has one table less, and the pages that it had are free. A
/// table's pages are those of a walk from its root.
pub fn a_table_is_dropped()
    ensures go { (counts : List ℕ) (s : Slots) (ds : List TableDesc) (tables : Tables) (d : TableDesc) (claimed : ℕ → PageId) (n : ℕ) (edits empties : List Edit) (pages : List PageId) → Drops counts s ds tables d claimed n edits empties pages → MayWriteAll counts s (dropping claimed n edits empties pages) }
    ensures base { (counts : List ℕ) (s : Slots) (ds : List TableDesc) (tables : Tables) (d : TableDesc) (claimed : ℕ → PageId) (n : ℕ) (edits empties : List Edit) (pages : List PageId) → Drops counts s ds tables d claimed n edits empties pages → IsBase counts (sheets (done (dropping claimed n edits empties pages) s)) (without_desc ds d.name) (finite.remove tables d.name) }
    ensures free { (counts : List ℕ) (s : Slots) (ds : List TableDesc) (tables : Tables) (d : TableDesc) (claimed : ℕ → PageId) (n : ℕ) (edits empties : List Edit) (pages : List PageId) (p : PageId) → Drops counts s ds tables d claimed n edits empties pages → owns counts (sheets s) d.number.0 p ≡ true → page_owner (done (dropping claimed n edits empties pages) s) p ≡ 0 }
    ensures walk { (counts : List ℕ) (at : SlotsAt) (cols : List Column) (number : ℕ) (root : PageId) (rows : Rows) (done : List Visit) → AreRowsOf counts at cols number root rows → IsWalk shape.kids at (first root) done [] → ArePagesOf counts at number (map (λ v. v.page) done) }
{}
