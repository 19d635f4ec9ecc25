//! When drafted pages give a plan of a tree, as a function whose contract says it.

ghost use Rattle.std.specs.Prelude.{ℕ, List, All};
ghost use Rattle.page_base.specs.declared.column.Column.{Column};
ghost use Rattle.page_base.specs.declared.numbers.PageId.{PageId};
ghost use Rattle.page_base.specs.declared.value.Value.{Value};
ghost use Rattle.page_fmt.specs.Seen.{Looked};
ghost use Rattle.page_draft.specs.Drafts.{Drafted, edits_in};
ghost use Rattle.page_draft.specs.Made.{HaveRoom, SpeaksBelow};
ghost use Rattle.table_walk.specs.Tables.{MayPut};
ghost use Rattle.tree_laws.specs.Keys.{Key};
ghost use Rattle.tree_laws.specs.Reads.{HasKey};
ghost use Rattle.tree_plans.specs.Drawn.{Draws};
ghost use Rattle.tree_plans.specs.Planning.{Promises};

/// Where drafted pages show, for whatever pages these are of which some were read, what cutting keys and putting rows makes of
/// them, their edits are a plan of the tree.
pub fn drawn_trees_are_promised()
    ensures { (cols : List Column) (seen : List Looked) (root : PageId) (cut : List Key) (put : List (List Value)) (n : ℕ) (ds : List Drafted) → HasKey cols → All (MayPut cols) put → HaveRoom seen ds → All (SpeaksBelow n) ds → Draws cols seen root cut put n ds → Promises cols seen root cut put n (edits_in seen ds) }
{}
