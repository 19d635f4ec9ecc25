//! A new tree: a root of level 1 without children.

ghost use Rattle.std.specs.Prelude.{◌≡◌, ◌↔◌, ◌∷◌, [], true, Bool, List};
ghost use Rattle.std.specs.FinMap as finite;
ghost use Rattle.page_base.specs.declared.column.Column.{Column};
ghost use Rattle.page_base.specs.declared.numbers.PageId.{PageId};
ghost use Rattle.page_fmt.specs.Seen.{SlotsAt};
ghost use Rattle.tree_laws.specs.Order.{RowsAt};

/// The bytes of slot 0 of a new root page, which by itself is a tree of no rows. Takes no memory.
pub fn new_root() -> [u8; 4]
    ensures { (cols : List Column) (at : SlotsAt) (owns : PageId → Bool) (root : PageId) → at root ≡ result ∷ [] → ((p : PageId) → (owns p ≡ true) ↔ (p ≡ root)) → RowsAt cols at owns root finite.empty }
{
    [1, 0, 0, 0]
}
