//! What a planned statement brings, and what it puts and changes, as functions whose contracts say it.

ghost use Rattle.std.specs.Prelude.{◌≡◌, ◌+◌, Bool, true, false, ℕ, List, [], All, Option, Some, None, map, replicate};
ghost use Rattle.std.specs.FinMap as finite;
ghost use Rattle.std.specs.List.{Any};
ghost use Rattle.page_base.specs.declared.column.Column.{Column};
ghost use Rattle.page_base.specs.declared.numbers.PageId.{PageId};
ghost use Rattle.page_base.specs.declared.value.Value.{Value};
ghost use Rattle.page_base.specs.Slots.{Slots};
ghost use Rattle.page_fmt.specs.Seen.{Looked, Shows};
ghost use Rattle.plain_model.specs.declared.reply.Reply.{Reply};
ghost use Rattle.plain_model.specs.declared.stmt.Stmt.{Stmt};
ghost use Rattle.plain_model.specs.Sound.{is_definition, is_sound};
ghost use Rattle.plain_model.specs.Statements.{data_over, is_of_rows, shape_over, table_named};
ghost use Rattle.plain_model.specs.Tables.{Rows, Table, Tables, apply, IsTable};
ghost use Rattle.sys_cat.specs.declared.desc.TableDesc.{TableDesc};
ghost use Rattle.sys_cat.specs.Changing.{keys_of, with_desc, without_desc};
ghost use Rattle.sys_cat.specs.Rows.{table_0, zero_root, rows_of};
ghost use Rattle.table_walk.specs.declared.plan.Edit.{Edit};
ghost use Rattle.table_walk.specs.declared.plan.Spot.{Spot};
ghost use Rattle.table_walk.specs.Plans.{cut_all, put_all};
ghost use Rattle.table_walk.specs.Tables.{Gathers, MayPut};
ghost use Rattle.page_tables.specs.Bases.{AreRowsOf, IsBase};
ghost use Rattle.page_tables.specs.Creating.{IsNew, IsNewRoot};
ghost use Rattle.page_tables.specs.Dropping.{ArePagesOf, Empty};
ghost use Rattle.page_tables.specs.Layout.{Promises};
ghost use Rattle.page_tables.specs.Rooting.{rooted, telling};
ghost use Rattle.page_tables.specs.Sheets.{sheets};
ghost use Rattle.step_words.specs.declared.stage.Stage.{Stage};
ghost use Rattle.step_words.specs.Courses.{Course, Plain};
ghost use Rattle.stmt_course.specs.Bringing.{Brings};
ghost use Rattle.stmt_course.specs.Defining.{owners_with, creation, removal};
ghost use Rattle.stmt_course.specs.Planning.{CanBeTold};
ghost use Rattle.stmt_eval.specs.declared.effect.Effect.{Effect};
ghost use Rattle.stmt_eval.specs.Verdicts.{IsEffect};

/// What claims and edits nothing brings the tables that are there.
pub fn nothing_comes()
    ensures { (files : List ℕ) (all : Bool) (mine : ℕ → Bool) (s : Slots) (ds : List TableDesc) (tables : Tables) (c : Course) → IsBase files (sheets s) ds tables → Brings files all mine s (record c { owners = []; taken = []; edits = [] }) (λ claimed. ds) tables }
{}

/// A plan that cuts rows from a table and puts rows into it brings the tables among which that one has its new rows, whoever
/// holds it alone, or all of them.
pub fn a_plan_brings_its_rows()
    ensures { (files : List ℕ) (s : Slots) (ds : List TableDesc) (tables : Tables) (b : IsBase files (sheets s) ds tables) (d : TableDesc) (some : Any (λ e. e ≡ d) ds) (rows : Rows) (pages : AreRowsOf files (sheets s) d.cols d.number.0 d.root rows) (seen : List Looked) (shows : Shows seen (sheets s)) (cut put : List (List Value)) (n : ℕ) (edits : List Edit) (p : Promises d.cols seen d.root cut put n edits) (old : Course) (stage : Stage) (reply : Option Reply) (all : Bool) (mine : ℕ → Bool) → (all ≡ false → mine (d.number.0 + 1) ≡ true) → (after : Tables) → after ≡ finite.insert tables d.name (record { cols = d.cols; rows = put_all d.cols put (cut_all cut rows) }) → Brings files all mine s (record old { stage = stage; base = []; seen = []; owners = replicate n d.number.0; taken = []; edits = map Plain edits; reply = reply }) (λ claimed. ds) after }
{}

/// A plan of table 0 that puts the rows of a new table, whatever root they tell, brings the tables and that one, which has no
/// rows, for who holds all tables: its root is the page that is claimed last, and the row that tells it is written so.
pub fn a_table_comes()
    ensures { (files : List ℕ) (s : Slots) (ds : List TableDesc) (tables : Tables) → IsBase files (sheets s) ds tables → CanBeTold files → (d : TableDesc) → IsNew ds d → (seen : List Looked) → Shows seen (sheets s) → (n : ℕ) (before later : List Edit) (spot : Spot) (slot : ℕ) → Promises table_0 seen zero_root [] (rows_of d) n (telling before spot slot d later) → (bytes : List ℕ) → IsNewRoot bytes → (old : Course) (stage : Stage) (reply : Option Reply) (mine : ℕ → Bool) → Brings files true mine s (record old { stage = stage; base = []; seen = []; owners = owners_with n d.number.0; taken = []; edits = creation n before spot slot d later bytes; reply = reply }) (λ claimed. with_desc ds (rooted d (claimed n))) (finite.insert tables d.name (record { cols = d.cols; rows = finite.empty })) }
{}

/// A plan of table 0 that cuts the rows of a table, and edits that empty this one's pages and give them back, bring the tables
/// without that one, for who holds all tables.
pub fn a_table_goes()
    ensures { (files : List ℕ) (s : Slots) (ds : List TableDesc) (tables : Tables) → IsBase files (sheets s) ds tables → (d : TableDesc) → Any (λ e. e ≡ d) ds → (seen : List Looked) → Shows seen (sheets s) → (n : ℕ) (edits empties : List Edit) → Promises table_0 seen zero_root (keys_of d) [] n edits → (pages : List PageId) → ArePagesOf files (sheets s) d.number.0 pages → Empty (sheets s) pages empties → (old : Course) (stage : Stage) (reply : Option Reply) (mine : ℕ → Bool) → Brings files true mine s (record old { stage = stage; base = []; seen = []; owners = replicate n 0; taken = []; edits = map Plain (removal edits empties pages); reply = reply }) (λ claimed. without_desc ds d.name) (finite.remove tables d.name) }
{}

/// The rows that pages hold are a table of the plain machine; what a statement about rows changes of it is rows that are cut,
/// and then rows that are put, each of which a plan may put.
pub fn effects_are_cuts_and_puts()
    ensures table { (cols : List Column) (cells : List (List ℕ)) (rows : Rows) → Gathers cols cells rows → IsTable cols (finite.values rows) (record { cols = cols; rows = rows }) }
    ensures changes { (stmt : Stmt) (effect : Effect) (tables : Tables) (t : Table) → is_of_rows stmt ≡ true → finite.get tables (table_named stmt) ≡ Some t → IsEffect stmt t effect → apply (data_over stmt t).0 tables ≡ finite.insert tables (table_named stmt) (record { cols = t.cols; rows = put_all t.cols effect.puts (cut_all effect.cuts t.rows) }) }
    ensures puts { (stmt : Stmt) (cols : List Column) (cells : List (List ℕ)) (rows : Rows) (effect : Effect) → is_sound stmt ≡ true → is_definition cols ≡ true → Gathers cols cells rows → shape_over stmt (Some (record { cols = cols; rows = rows })) ≡ None → IsEffect stmt (record { cols = cols; rows = rows }) effect → All (MayPut cols) effect.puts }
{}
