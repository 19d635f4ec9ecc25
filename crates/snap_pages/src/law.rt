//! What the cuts of snapshots tell of their places, as functions whose contracts say it.

ghost use Rattle.std.specs.Prelude.{◌≡◌, ◌≢◌, ℕ, Some, None};
ghost use Rattle.rec_log.specs.Records.{WorkOf};
ghost use Rattle.page_base.specs.declared.numbers.SnapNo.{SnapNo};
ghost use Rattle.snap_cat.specs.Catalog.{IsCatalog, snap_at, with_owed, with_state};
ghost use Rattle.snap_cat.specs.declared.snapshot.SnapState.{SnapState};
ghost use Rattle.snap_pages.specs.Shown.{Shown, catalog, cut_of, IsOpen, set_of, IsWhole};
ghost use Rattle.snap_pages.specs.Cuts.{place_of, snap_by};
ghost use Rattle.snap_pages.specs.Steps.{ChangesSet, SameSnaps};

/// Each snapshot has the place of its cut, and a place of a cut is that of the snapshot with this cut.
pub fn cuts_name_places()
    ensures here { (v : Shown) (s : SnapNo) → IsCatalog (catalog v) → IsOpen v s → place_of v (cut_of v s) ≡ Some s }
    ensures there { (v : Shown) (c : ℕ) (s : SnapNo) → place_of v c ≡ Some s → IsOpen v s × (cut_of v s ≡ c) }
    ensures none { (v : Shown) (c : ℕ) (s : SnapNo) → place_of v c ≡ None → IsOpen v s → cut_of v s ≢ c }
{}

/// Where only one snapshot's sparse files change, the snapshots of all other cuts are the same.
pub fn sets_change_by_cut()
    ensures others { (s : SnapNo) (old new : Shown) (c : ℕ) → ChangesSet s old new → c ≢ cut_of old s → snap_by new c ≡ snap_by old c }
    ensures here { (s : SnapNo) (old new : Shown) → IsCatalog (catalog old) → IsOpen old s → ChangesSet s old new → snap_by new (cut_of old s) ≡ Some (snap_at (catalog old) s, set_of new s) }
{}

/// Where no snapshot changes, the snapshots of all cuts are the same.
pub fn snapshots_stay_by_cut()
    ensures { (old new : Shown) → SameSnaps old new → snap_by new ≡ snap_by old }
{}

/// Where one snapshot's state changes, the snapshots of all other cuts are the same.
pub fn states_change_by_cut()
    ensures others { (s : SnapNo) (to : SnapState) (old new : Shown) (c : ℕ) → IsOpen old s → catalog new ≡ with_state (catalog old) s to → new.sets ≡ old.sets → c ≢ cut_of old s → snap_by new c ≡ snap_by old c }
    ensures here { (s : SnapNo) (to : SnapState) (old new : Shown) → IsCatalog (catalog old) → IsOpen old s → catalog new ≡ with_state (catalog old) s to → new.sets ≡ old.sets → snap_by new (cut_of old s) ≡ Some (record (snap_at (catalog old) s) { state = to }, set_of old s) }
{}

/// Where the records change that one snapshot owes, the snapshots of all other cuts are the same.
pub fn debts_change_by_cut()
    ensures others { (s : SnapNo) (owed : WorkOf) (old new : Shown) (c : ℕ) → IsOpen old s → catalog new ≡ with_owed (catalog old) s owed → new.sets ≡ old.sets → c ≢ cut_of old s → snap_by new c ≡ snap_by old c }
    ensures here { (s : SnapNo) (owed : WorkOf) (old new : Shown) → IsCatalog (catalog old) → IsOpen old s → catalog new ≡ with_owed (catalog old) s owed → new.sets ≡ old.sets → snap_by new (cut_of old s) ≡ Some (record (snap_at (catalog old) s) { owed = owed }, set_of old s) }
{}
