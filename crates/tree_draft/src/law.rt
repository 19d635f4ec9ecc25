//! Where entries are looked for, as a function whose contract says it.

ghost use Rattle.std.specs.Prelude.{◌≡◌, List, Option};
ghost use Rattle.tree_laws.specs.Keys.{Key};
ghost use Rattle.tree_laws.specs.Puts.{entry_for, in_key_order};
ghost use Rattle.tree_laws.specs.Sheets.{Entry};
ghost use Rattle.tree_draft.specs.Entries.{scanned};

/// The entry for a key is found by going over the slots once, without their order.
pub fn an_entry_is_found_slot_by_slot()
    ensures { (key : Key) (es : List (Option Entry)) → scanned key es ≡ entry_for key (in_key_order es) }
{}
