//! What one session's change leaves of what all see, as functions whose contracts say it.

ghost use Rattle.std.specs.Prelude.{◌≡◌, ◌≢◌, ◌≤◌, ℕ, length};
ghost use Rattle.page_base.specs.Slots.{Slots, with_slot};
ghost use Rattle.rec_log.specs.Records.{Record};
ghost use Rattle.open_work.specs.Moves.{Changes, TakesBack};
ghost use Rattle.open_work.specs.Open.{Parts, settled, alone, before};

/// A change with its record leaves what was committed, what every other session sees, and what each, its own session too,
/// saw before its statement; its own session sees it.
pub fn a_change_is_one_sessions_own()
    ensures settled { (n k : ℕ) (work more : Parts) (r : Record) (old new : Slots) → Changes n k work more r old new → settled n more new ≡ settled n work old }
    ensures others { (n k : ℕ) (work more : Parts) (r : Record) (old new : Slots) → Changes n k work more r old new → (j : ℕ) → j ≢ k → alone n more j new ≡ alone n work j old }
    ensures own { (n k : ℕ) (work more : Parts) (r : Record) (old new : Slots) → Changes n k work more r old new → alone n more k new ≡ with_slot (alone n work k old) r.page r.slot r.after }
    ensures before { (n k : ℕ) (work more : Parts) (r : Record) (old new : Slots) → Changes n k work more r old new → (j base : ℕ) → base ≤ length (work j) → before n more j base new ≡ before n work j base old }
{}

/// Taking back a session's last record leaves the same; its own session sees the slot as it was.
pub fn taking_back_is_one_sessions_own()
    ensures settled { (n k : ℕ) (work less : Parts) (r : Record) (old new : Slots) → TakesBack n k work less r old new → settled n less new ≡ settled n work old }
    ensures others { (n k : ℕ) (work less : Parts) (r : Record) (old new : Slots) → TakesBack n k work less r old new → (j : ℕ) → j ≢ k → alone n less j new ≡ alone n work j old }
    ensures own { (n k : ℕ) (work less : Parts) (r : Record) (old new : Slots) → TakesBack n k work less r old new → alone n less k new ≡ with_slot (alone n work k old) r.page r.slot r.before }
    ensures before { (n k : ℕ) (work less : Parts) (r : Record) (old new : Slots) → TakesBack n k work less r old new → (j base : ℕ) → base ≤ length (less j) → before n less j base new ≡ before n work j base old }
{}
