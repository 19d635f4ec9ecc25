//! What descriptions and their rows promise together, as a function whose contract says it.

ghost use Rattle.std.specs.Prelude.{◌≡◌, false, ℕ, List, All};
ghost use Rattle.std.specs.FinMap as finite;
ghost use Rattle.std.specs.List.{Any};
ghost use Rattle.page_base.specs.declared.value.Value.{Value};
ghost use Rattle.sys_cat.specs.declared.desc.TableDesc.{TableDesc};
ghost use Rattle.plain_model.specs.Tables.{Rows};
ghost use Rattle.sys_cat.specs.Changing.{has_name, with_desc, without_desc, keys_of, AreKeyed};
ghost use Rattle.sys_cat.specs.Lists.{IsDesc, AreTables, has_number};
ghost use Rattle.sys_cat.specs.Rows.{table_0, rows_of};
ghost use Rattle.table_walk.specs.Plans.{cut_all, put_all};
ghost use Rattle.table_walk.specs.Tables.{Gathers, MayPut};

/// Rows tell of one list of tables, and a list of tables has one list of rows.
pub fn rows_and_tables_determine_each_other()
    ensures tables { (rows : List (List Value)) (ds es : List TableDesc) → AreTables rows ds → AreTables rows es → ds ≡ es }
    ensures rows { (rows others : List (List Value)) (ds : List TableDesc) → AreTables rows ds → AreTables others ds → rows ≡ others }
{}

/// The rows of each table may be put into table 0.
pub fn rows_may_be_put()
    ensures { (d : TableDesc) → IsDesc d → All (MayPut table_0) (rows_of d) }
{}

/// A table whose rows are put into table 0 is one more in the list, and one whose rows are cut is one less.
pub fn tables_are_put_and_cut()
    ensures put { (rows : Rows) (ds : List TableDesc) (d : TableDesc) → AreTables (finite.values rows) ds → AreKeyed rows → IsDesc d → has_name ds d.name ≡ false → has_number ds d.number.0 ≡ false → AreTables (finite.values (put_all table_0 (rows_of d) rows)) (with_desc ds d) }
    ensures cut { (rows : Rows) (ds : List TableDesc) (d : TableDesc) → AreTables (finite.values rows) ds → AreKeyed rows → Any (λ e. e ≡ d) ds → AreTables (finite.values (cut_all (keys_of d) rows)) (without_desc ds d.name) }
{}

/// The rows of table 0 that pages hold stand each by its own key.
pub fn gathered_rows_are_keyed()
    ensures { (cells : List (List ℕ)) (rows : Rows) → Gathers table_0 cells rows → AreKeyed rows }
{}
