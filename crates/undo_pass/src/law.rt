//! What holds of a snapshot that is lost while it is healed; and that the last record is one.

ghost use Rattle.std.specs.Prelude.{◌≡◌, ◌∷◌, ◌++◌, [], List};
ghost use Rattle.page_base.specs.declared.numbers.SnapNo.{SnapNo};
ghost use Rattle.rec_log.specs.Records.{Record};
ghost use Rattle.snap_cat.specs.Catalog.{with_state};
ghost use Rattle.snap_cat.specs.declared.snapshot.SnapState.TheVariants.{Suspect};
ghost use Rattle.snap_pages.specs.Shown.{Shown, catalog, IsOpen, with_catalog};
ghost use Rattle.snap_pages.specs.Views.{KeepsViews};
ghost use Rattle.undo_pass.specs.Heals.{IsUnhealed};

/// A snapshot that turns suspect once it couldn't be healed leaves all other views as they were.
pub fn a_lost_heal_keeps_views()
    ensures { (s : SnapNo) (old mid new : Shown) → IsOpen old s → IsUnhealed s old mid → new ≡ with_catalog mid (with_state (catalog mid) s Suspect) → KeepsViews old new }
{}

/// Records end in one way: the last one, and those before it, are what they are.
pub fn the_last_record_is_one()
    ensures { (front other : List Record) (r q : Record) → front ++ r ∷ [] ≡ other ++ q ∷ [] → (front ≡ other) × (r ≡ q) }
{}
