//! Who holds what and who is in whose way, told by the strongest lock that each session holds under a name.

ghost use Rattle.std.specs.Prelude.{◌≡◌, ◌≢◌, ◌↔◌, ℕ, List, Some, None};
ghost use Rattle.std.specs.List.{list_any};
ghost use Rattle.page_base.specs.declared.numbers.Mode.{Mode};
ghost use Rattle.plain_model.specs.declared.event.Event.{Event};
ghost use Rattle.plain_model.specs.declared.event.LockName.{LockName};
ghost use Rattle.plain_model.specs.declared.event.LockName.TheVariants.{All, Table};
ghost use Rattle.plain_model.specs.declared.stmt.Level.TheVariants as levels;
ghost use Rattle.plain_model.specs.declared.stmt.Stmt.{Stmt};
ghost use Rattle.plain_model.specs.Holding.{same_lock, holds, is_in_the_way, held};
ghost use Rattle.plain_model.specs.Journal.{Opening};
ghost use Rattle.plain_model.specs.Keeping.{kept_at};
ghost use Rattle.plain_model.specs.Legal.{Legal, end};
ghost use Rattle.plain_model.specs.State.{Plain};
ghost use Rattle.plain_steps.specs.Modes.{mode_in, suffices, hinders, unless_gained, IsInWay, IsLowestInWay};
ghost use Rattle.plain_steps.specs.Orderly.{IsOrderly};

/// A session holds a lock, or is in another's way, by its strongest lock under that name.
pub fn locks_are_told_by_modes()
    ensures holds { (locks : List (LockName × Mode)) (name : LockName) (mode : Mode) → holds locks name mode ≡ suffices (mode_in locks name) mode }
    ensures way { (locks : List (LockName × Mode)) (name : LockName) (mode : Mode) → is_in_the_way locks name mode ≡ hinders (mode_in locks name) mode }
{}

/// A lock is free exactly where nobody is in the way, and else the lowest that is has it.
pub fn the_lowest_in_the_way_is_named()
    ensures free { (st : Plain) (k : ℕ) (name : LockName) (mode : Mode) → (held st k name mode ≡ None) ↔ ((j : ℕ) → ¬ IsInWay st k name mode j) }
    ensures lowest { (st : Plain) (k : ℕ) (name : LockName) (mode : Mode) (j : ℕ) → (held st k name mode ≡ Some j) ↔ IsLowestInWay st k name mode j }
{}

/// What a statement at READ COMMITTED leaves of a lock: one in S that it gained goes; that on the table of tables stays as
/// long as there is one on a table.
pub fn replies_free_by_modes()
    ensures table { (gained : List LockName) (locks : List (LockName × Mode)) (table : List ℕ) → mode_in (kept_at levels.Committed gained locks) (Table table) ≡ unless_gained (list_any (same_lock (Table table)) gained) (mode_in locks (Table table)) }
    ensures last { (gained : List LockName) (locks : List (LockName × Mode)) → ((table : List ℕ) → mode_in (kept_at levels.Committed gained locks) (Table table) ≡ None) → mode_in (kept_at levels.Committed gained locks) All ≡ unless_gained (list_any (same_lock All) gained) (mode_in locks All) }
    ensures stays { (gained : List LockName) (locks : List (LockName × Mode)) (table : List ℕ) → mode_in (kept_at levels.Committed gained locks) (Table table) ≢ None → mode_in (kept_at levels.Committed gained locks) All ≡ mode_in locks All }
{}

/// In each state of a legal history a table that is held in X is held by one session alone, who holds a table holds the
/// table of tables, and what waits for a commit is rows of tables that its session holds in X.
pub fn legal_states_are_orderly()
    ensures { (opening : Opening) (scripts : List (List Stmt)) (book : List Event) → Legal opening scripts book → IsOrderly (end opening scripts book) }
{}
