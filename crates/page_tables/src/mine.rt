//! What writes on a writer's own pages keep, as functions whose contracts say it.

ghost use Rattle.std.specs.Prelude.{◌≡◌, ◌≢◌, ◌<◌, ◌+◌, ◌++◌, ◌∷◌, [], length, true, false, ℕ, Bool, List, map};
ghost use Rattle.std.specs.FinMap as finite;
ghost use Rattle.std.specs.List.{Any};
ghost use Rattle.page_base.specs.declared.numbers.PageId.{PageId};
ghost use Rattle.page_base.specs.Slots.{Slots};
ghost use Rattle.plain_model.specs.Tables.{Rows, Tables};
ghost use Rattle.sys_cat.specs.declared.desc.TableDesc.{TableDesc};
ghost use Rattle.sys_cat.specs.Rows.{table_0, zero_root};
ghost use Rattle.table_walk.specs.declared.plan.Edit.{Edit};
ghost use Rattle.table_walk.specs.Plans.{Carries};
ghost use Rattle.page_tables.specs.Bases.{AreRowsOf, AreStanding, IsBase};
ghost use Rattle.page_tables.specs.Layout.{shape, first};
ghost use Rattle.page_tables.specs.Owners.{is_there, owns};
ghost use Rattle.alloc_pages.specs.Owners.{page_owner};
ghost use Rattle.page_tables.specs.Sheets.{sheets};
ghost use Rattle.page_tables.specs.Writes.{Write, done, claim, claims, write_of, AreClaimable};
ghost use Rattle.page_tables.specs.Claims.{claims_from, Claimable};
ghost use Rattle.page_tables.specs.Mine.{MayWriteAll, AreMine, AreSpread, Moves, written, is_of};
ghost use Rattle.page_base.specs.declared.column.Column.{Column};

/// Writes on pages of the writer's owners, and claims for these, leave the owners and the slots of all other pages, and so
/// each table of another owner.
pub fn writes_leave_the_rest()
    ensures moves { (counts : List ℕ) (writes : ℕ → Bool) (s : Slots) (ws : List Write) → writes 0 ≡ false → writes 4294967295 ≡ false → AreSpread counts (sheets s) → AreMine counts writes s ws → Moves counts writes s (done ws s) }
    ensures joined { (counts : List ℕ) (writes : ℕ → Bool) (s x y : Slots) → writes 0 ≡ false → Moves counts writes s x → Moves counts writes x y → Moves counts writes s y }
    ensures tables { (counts : List ℕ) (writes : ℕ → Bool) (s x : Slots) (cols : List Column) (number : ℕ) (root : PageId) (rows : Rows) → Moves counts writes s x → writes (number + 1) ≡ false → number + 1 < 4294967295 → AreRowsOf counts (sheets s) cols number root rows → AreRowsOf counts (sheets x) cols number root rows }
{}

/// The claims and edits of a plan of one table go in turn, are the table's own, and lead to the database in which it has the
/// plan's rows; those of a plan of table 0 to pages on which all other tables stand.
pub fn a_plan_is_written()
    ensures go { (counts : List ℕ) (s : Slots) (ds : List TableDesc) (tables : Tables) (d : TableDesc) (claimed : ℕ → PageId) (n : ℕ) (edits : List Edit) (rows : Rows) → IsBase counts (sheets s) ds tables → Any (λ e. e ≡ d) ds → AreClaimable counts (sheets s) claimed n → Carries shape d.cols (first d.root) claimed n (sheets s) (owns counts (sheets s) d.number.0) edits rows → MayWriteAll counts s (claims d.number.0 claimed n ++ map (write_of claimed) edits) }
    ensures mine { (counts : List ℕ) (s : Slots) (ds : List TableDesc) (tables : Tables) (d : TableDesc) (claimed : ℕ → PageId) (n : ℕ) (edits : List Edit) (rows : Rows) → IsBase counts (sheets s) ds tables → Any (λ e. e ≡ d) ds → AreClaimable counts (sheets s) claimed n → Carries shape d.cols (first d.root) claimed n (sheets s) (owns counts (sheets s) d.number.0) edits rows → AreMine counts (is_of d.number.0) s (claims d.number.0 claimed n ++ map (write_of claimed) edits) }
    ensures base { (counts : List ℕ) (s : Slots) (ds : List TableDesc) (tables : Tables) (d : TableDesc) (claimed : ℕ → PageId) (n : ℕ) (edits : List Edit) (rows : Rows) → IsBase counts (sheets s) ds tables → Any (λ e. e ≡ d) ds → AreClaimable counts (sheets s) claimed n → Carries shape d.cols (first d.root) claimed n (sheets s) (owns counts (sheets s) d.number.0) edits rows → IsBase counts (sheets (done (claims d.number.0 claimed n ++ map (write_of claimed) edits) s)) ds (finite.insert tables d.name (record { cols = d.cols; rows = rows })) }
    ensures zero { (counts : List ℕ) (s : Slots) (ds : List TableDesc) (tables : Tables) (claimed : ℕ → PageId) (n : ℕ) (edits : List Edit) (rows : Rows) → IsBase counts (sheets s) ds tables → AreClaimable counts (sheets s) claimed n → Carries shape table_0 (first zero_root) claimed n (sheets s) (owns counts (sheets s) 0) edits rows → MayWriteAll counts s (claims 0 claimed n ++ map (write_of claimed) edits) × AreMine counts (is_of 0) s (claims 0 claimed n ++ map (write_of claimed) edits) × AreStanding counts (sheets (done (claims 0 claimed n ++ map (write_of claimed) edits) s)) rows ds tables }
{}

/// All claims are those from the first one on; pages that may be claimed are those of a plan of which none was claimed yet;
/// and where one more was claimed, those that may be claimed then might have been before.
pub fn claims_come_in_turn()
    ensures none { (counts : List ℕ) (s : Slots) (n : ℕ) (claimed : ℕ → PageId) → Claimable counts s [] n claimed → AreClaimable counts (sheets s) claimed n }
    ensures more { (counts : List ℕ) (s : Slots) (taken : List PageId) (n number : ℕ) (p : PageId) (claimed : ℕ → PageId) → is_there counts p ≡ true → page_owner s p ≡ 0 → number + 1 < 4294967295 → length taken < n → Claimable counts (written (claim number p) s) (taken ++ p ∷ []) n claimed → Claimable counts s taken n claimed }
    ensures all { (number : ℕ) (claimed : ℕ → PageId) (n : ℕ) → claims_from number claimed 0 n ≡ claims number claimed n }
{}
