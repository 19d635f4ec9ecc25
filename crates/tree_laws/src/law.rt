//! What trees of pages keep, as functions whose contracts say it.

ghost use Rattle.std.specs.Prelude.{◌≡◌, ◌<◌, ◌≤◌, ◌+◌, ◌*◌, ◌++◌, [], true, false, ℕ, Bool, List, Option, Some, All, length};
ghost use Rattle.std.specs.FinMap as finite;
ghost use Rattle.page_base.specs.declared.column.Column.{Column};
ghost use Rattle.page_base.specs.declared.numbers.PageId.{PageId};
ghost use Rattle.page_base.specs.declared.value.Value.{Value};
ghost use Rattle.page_fmt.specs.Seen.{SlotsAt};
ghost use Rattle.plain_model.specs.Tables.{Rows};
ghost use Rattle.table_walk.specs.declared.visit.Visit.{Visit};
ghost use Rattle.table_walk.specs.Plans.{AreFree, also, cut_all, put_all};
ghost use Rattle.table_walk.specs.Tables.{Gathers, MayPut, cells};
ghost use Rattle.table_walk.specs.Walk.{IsWalk};
ghost use Rattle.tree_laws.specs.Keys.{Key};
ghost use Rattle.tree_laws.specs.Kids.{tree_kids, first};
ghost use Rattle.tree_laws.specs.LookUps.{IsOnePerLevel};
ghost use Rattle.tree_laws.specs.Order.{RowsAt};
ghost use Rattle.tree_laws.specs.Parts.{fill, joined, total, AreSmall, Fit};
ghost use Rattle.tree_laws.specs.Paths.{CutPaths, PutPaths, HasRoom};
ghost use Rattle.tree_laws.specs.Puts.{placed, cut_keys, level_in};
ghost use Rattle.tree_laws.specs.Reads.{AreRead, HasKey, IsTree, Reads};
ghost use Rattle.tree_laws.specs.Sheets.{Sheet, slots_in};

/// A look-up of one key comes to at most one page of each level, the leaf included.
pub fn a_look_up_has_one_page_a_level()
    ensures { (cols : List Column) (at : SlotsAt) (root : PageId) (key : Key) (done rest : List Visit) → IsWalk (tree_kids cols (Some key)) at (first root) done rest → IsOnePerLevel at root (done ++ rest) }
{}

/// Over pages that are a table, a look-up comes to pages of that table alone.
pub fn a_look_up_stays_in_its_tree()
    ensures { (cols : List Column) (at : SlotsAt) (owns : PageId → Bool) (root : PageId) (rows : Rows) (key : Key) (done rest : List Visit) → RowsAt cols at owns root rows → IsWalk (tree_kids cols (Some key)) at (first root) done rest → All (λ v. owns v.page ≡ true) (done ++ rest) }
{}

/// Over pages that are a table, the row of a key stands on the pages of its look-up, or there is none.
pub fn a_look_up_finds()
    ensures { (cols : List Column) (at : SlotsAt) (owns : PageId → Bool) (root : PageId) (rows : Rows) (key : Key) (done : List Visit) → RowsAt cols at owns root rows → IsWalk (tree_kids cols (Some key)) at (first root) done [] → (found : Rows) × Gathers cols (cells at done) found × (finite.get found key ≡ finite.get rows key) }
{}

/// The pages of a table are read as typed pages, and these are a tree of its rows.
pub fn a_table_is_a_tree()
    ensures { (cols : List Column) (at : SlotsAt) (owns : PageId → Bool) (root : PageId) (rows : Rows) → RowsAt cols at owns root rows → (sheets : PageId → Sheet) × AreRead cols at owns sheets × IsTree cols (λ p. false) sheets root owns rows }
{}

/// Pages that are read as a tree of typed pages are a table of its rows.
pub fn a_tree_is_a_table()
    ensures { (cols : List Column) (looked : PageId → Bool) (sheets : PageId → Sheet) (at : SlotsAt) (owns : PageId → Bool) (root : PageId) (rows : Rows) → IsTree cols looked sheets root owns rows → AreRead cols at owns sheets → RowsAt cols at owns root rows }
{}

/// Keys that are cut from a tree of typed pages, and rows that are then put into it, leave one tree: of the rows without those
/// that are cut and with those that are put, over its pages and those that were claimed, each with room.
pub fn a_tree_stays_one()
    ensures { (cols : List Column) (claimed : ℕ → PageId) (n : ℕ) (at : SlotsAt) (owns : PageId → Bool) (root : PageId) (sheets : PageId → Sheet) (rows : Rows) (cut : List Key) (put : List (List Value)) → HasKey cols → AreFree claimed n at owns → All (MayPut cols) put → IsTree cols (λ p. true) sheets root owns rows → (placed cols claimed root cut put sheets).claims ≤ n → IsTree cols (λ p. true) (placed cols claimed root cut put sheets).sheets root (also owns claimed (placed cols claimed root cut put sheets).claims) (put_all cols put (cut_all cut rows)) }
{}

/// The same where only some pages are looked at: those on the paths of the keys, as each path is when its turn comes, of which
/// each has room at first.
pub fn a_tree_stays_one_where_it_is_looked_at()
    ensures { (cols : List Column) (looked : PageId → Bool) (claimed : ℕ → PageId) (n : ℕ) (at : SlotsAt) (owns : PageId → Bool) (root : PageId) (sheets : PageId → Sheet) (rows : Rows) (cut : List Key) (put : List (List Value)) → HasKey cols → AreFree claimed n at owns → All (MayPut cols) put → IsTree cols (λ p. false) sheets root owns rows → ((p : PageId) → owns p ≡ true → looked p ≡ true → HasRoom cols (sheets p)) → CutPaths cols looked root cut (record { sheets = sheets; claims = 0 }) → PutPaths cols looked claimed root put (cut_keys cols root cut (record { sheets = sheets; claims = 0 })) → (placed cols claimed root cut put sheets).claims ≤ n → IsTree cols looked (placed cols claimed root cut put sheets).sheets root (also owns claimed (placed cols claimed root cut put sheets).claims) (put_all cols put (cut_all cut rows)) }
{}

/// A page of a tree that is looked at has room for its slots as they are spelled, and is read as it is spelled.
pub fn a_page_is_read_as_it_is_spelled()
    ensures { (cols : List Column) (looked : PageId → Bool) (sheets : PageId → Sheet) (root : PageId) (owns : PageId → Bool) (rows : Rows) (p : PageId) → IsTree cols looked sheets root owns rows → looked p ≡ true → owns p ≡ true → level_in (sheets p) < 4294967296 → Reads cols (slots_in (sheets p)) (sheets p) × HasRoom cols (sheets p) }
{}

/// Things laid in parts stand in them as they were, each part has room, and what overflows by little has few parts.
pub fn parts_are_filled()
    ensures joined { (size : Key → ℕ) (all : ℕ) (xs : List Key) → joined (fill size all all xs) ≡ xs }
    ensures fit { (size : Key → ℕ) (all : ℕ) (xs : List Key) → AreSmall size all xs → Fit size all (fill size all all xs) }
    ensures three { (size : Key → ℕ) (all : ℕ) (xs : List Key) → AreSmall size all xs → total size xs ≤ 2 * all + 1 → length (fill size all all xs) ≤ 3 }
    ensures two { (size : Key → ℕ) (all most : ℕ) (xs : List Key) → most ≤ all → AreSmall size most xs → total size xs + most ≤ 2 * all + 1 → length (fill size all all xs) ≤ 2 }
{}
