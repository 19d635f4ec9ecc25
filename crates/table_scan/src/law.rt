//! What the reading of a table keeps, as a function whose contract says it.

ghost use Rattle.std.specs.Prelude.{◌≡◌, Bool, true, ℕ, List, Some};
ghost use Rattle.page_base.specs.declared.column.Column.{Column};
ghost use Rattle.page_base.specs.declared.numbers.PageId.{PageId};
ghost use Rattle.page_fmt.specs.Seen.{Shows, SlotsAt};
ghost use Rattle.plain_model.specs.Tables.{Rows};
ghost use Rattle.table_walk.specs.declared.refusal.SeenRefusal.{SeenRefusal};
ghost use Rattle.table_walk.specs.declared.visit.Visit.{Visit};
ghost use Rattle.table_walk.specs.Answers.{IsAt, IsMemory};
ghost use Rattle.table_walk.specs.Tables.{HasRows};
ghost use Rattle.page_tables.specs.Layout.{shape, first};
ghost use Rattle.table_scan.specs.Scanned.{Scanned, IsScan, IsBadThen, with_page};

/// Over pages that are a table the page that is read next is one of its pages, and no slot of it is damaged.
pub fn a_table_is_read_whole()
    ensures own { (s : Scanned) (v : Visit) (cols : List Column) (at : SlotsAt) (owns : PageId → Bool) (rows : Rows) → IsScan s → s.next ≡ Some v → HasRows shape cols at owns (first s.root) rows → Shows s.seen at → owns v.page ≡ true }
    ensures whole { (s : Scanned) (v : Visit) (slots : List (List ℕ)) (cols : List Column) (at : SlotsAt) (owns : PageId → Bool) (rows : Rows) (e : SeenRefusal) → IsAt (IsBadThen s slots) e → s.next ≡ Some v → HasRows shape cols at owns (first s.root) rows → Shows (with_page s.seen v.page slots) at → IsMemory e }
{}
