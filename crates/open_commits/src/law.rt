//! What open records leave of the tables of others, and what a commit makes of these, as functions whose contracts say it.

ghost use Rattle.std.specs.Prelude.{◌≡◌, ◌≢◌, ◌<◌, ◌+◌, [], true, false, ℕ, Bool, List};
ghost use Rattle.page_base.specs.declared.column.Column.{Column};
ghost use Rattle.page_base.specs.declared.numbers.PageId.{PageId};
ghost use Rattle.page_base.specs.Slots.{Slots};
ghost use Rattle.plain_model.specs.Tables.{Rows, Tables};
ghost use Rattle.rec_log.specs.Records.{Record};
ghost use Rattle.rec_log.specs.Undone.{undone};
ghost use Rattle.sys_cat.specs.declared.desc.TableDesc.{TableDesc};
ghost use Rattle.page_tables.specs.Bases.{AreRowsOf, IsBase};
ghost use Rattle.page_tables.specs.Mine.{AreMine};
ghost use Rattle.page_tables.specs.Sheets.{sheets};
ghost use Rattle.page_tables.specs.Writes.{Write, done};
ghost use Rattle.open_work.specs.Open.{Parts, all, with_part};
ghost use Rattle.open_tables.specs.Back.{Back};
ghost use Rattle.open_tables.specs.Names.{names, AreClaims};
ghost use Rattle.open_commits.specs.Joins.{Joins};
ghost use Rattle.open_commits.specs.Within.{AreApart, LieWithin, TellOwners};

/// Records that lie on pages of owners that their session writes leave the tables of all other owners, whether they are
/// taken back or stand.
pub fn records_of_others_leave_a_table()
    ensures back { (counts : List ℕ) (writes : ℕ → Bool) (s : Slots) (records : List Record) (cols : List Column) (number : ℕ) (root : PageId) (rows : Rows) → LieWithin writes s records → TellOwners counts s → writes (number + 1) ≡ false → number + 1 < 4294967295 → AreRowsOf counts (sheets s) cols number root rows → AreRowsOf counts (sheets (undone records s)) cols number root rows }
    ensures on { (counts : List ℕ) (writes : ℕ → Bool) (s : Slots) (records : List Record) (cols : List Column) (number : ℕ) (root : PageId) (rows : Rows) → LieWithin writes s records → TellOwners counts s → writes (number + 1) ≡ false → number + 1 < 4294967295 → AreRowsOf counts (sheets (undone records s)) cols number root rows → AreRowsOf counts (sheets s) cols number root rows }
{}

/// Records that can be taken back lie so, and do it still where others' records stand; records of two sessions whose owners
/// are apart name no slot both, and others' lie where they lay once the one's are taken back.
pub fn records_stand_beside_others()
    ensures lie { (writes : ℕ → Bool) (records : List Record) (s : Slots) → writes 0 ≡ false → Back writes records s → LieWithin writes s records }
    ensures stand { (writes : ℕ → Bool) (s : Slots) (others records : List Record) → writes 0 ≡ false → AreClaims others → LieWithin writes (undone others s) records → LieWithin writes s records }
    ensures apart { (mine theirs : ℕ → Bool) (s : Slots) → AreApart mine theirs → (records others : List Record) → LieWithin mine s records → LieWithin theirs s others → (p : PageId) (i : ℕ) → names others p i ≡ true → names records p i ≡ false }
    ensures without { (mine theirs : ℕ → Bool) (s : Slots) → AreApart mine theirs → (records others : List Record) → LieWithin mine s records → LieWithin theirs s others → LieWithin theirs (undone records s) others }
{}

/// Where no two sessions name one slot, one's records may be taken back behind those of all others.
pub fn the_records_of_one_come_last()
    ensures { (n j : ℕ) (part : Parts) (s : Slots) → j < n → ((m : ℕ) (p : PageId) (i : ℕ) → m ≢ j → names (part j) p i ≡ true → names (part m) p i ≡ false) → undone (all n part) s ≡ undone (part j) (undone (all n (with_part part j [])) s) }
{}

/// Where another session's records are taken back no more, the tables that a session sees are joined: theirs as they saw them,
/// all others as before.
pub fn a_commit_joins_tables()
    ensures { (counts : List ℕ) (ds : List TableDesc) (x : Slots) (mine theirs : ℕ → Bool) (own part others : List Record) (a b c : Tables) → AreApart mine theirs → LieWithin mine x own → LieWithin mine x part → LieWithin theirs x others → IsBase counts (sheets (undone own x)) ds a → IsBase counts (sheets (undone others (undone part x))) ds b → Joins ds theirs a b c → IsBase counts (sheets (undone part x)) ds c }
{}

/// And its writes to come lead to those to which they led, with theirs joined.
pub fn plans_outlive_a_commit()
    ensures { (ws : List Write) (counts : List ℕ) (ds : List TableDesc) (x : Slots) (mine theirs : ℕ → Bool) (own others : List Record) (a b c : Tables) → AreApart mine theirs → LieWithin mine x own → LieWithin theirs x others → AreMine counts mine x ws → IsBase counts (sheets (undone own x)) ds a → IsBase counts (sheets (done ws (undone others x))) ds b → Joins ds theirs a b c → IsBase counts (sheets (done ws x)) ds c }
{}
