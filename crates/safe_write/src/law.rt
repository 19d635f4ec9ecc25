//! That steps which write pages keep the invariant, as functions whose contracts say it.

ghost use Rattle.std.specs.Prelude.{ℕ};
ghost use Rattle.step_state.specs.Safe.{Safe};
ghost use Rattle.step_state.specs.State.{State};
ghost use Rattle.step_state.specs.Steps.{Steps};
ghost use Rattle.safe_write.specs.Changing.{DoesChange};
ghost use Rattle.safe_write.specs.Claiming.{DoesClaim};
ghost use Rattle.safe_write.specs.Backing.{DoesBack};
ghost use Rattle.safe_write.specs.Pushing.{DoesCopy, DoesMark, DoesLoseCopy};

/// A change of one slot, of a page that every sound snapshot has, with its record, leaves to others what it owes them; so the
/// engine stays safe.
pub fn a_change_keeps_the_engine_safe()
    ensures steps { (e s : State) (k : ℕ) → Safe e → DoesChange e s k → Steps e s k }
    ensures safe { (e s : State) (k : ℕ) → Safe e → DoesChange e s k → Safe s }
{}

/// And so does the claim of a free page, with its record.
pub fn a_claim_keeps_the_engine_safe()
    ensures steps { (e s : State) (k : ℕ) → Safe e → DoesClaim e s k → Steps e s k }
    ensures safe { (e s : State) (k : ℕ) → Safe e → DoesClaim e s k → Safe s }
{}

/// And so does a record that is taken back: the last one of a session, of its statement or of its transaction.
pub fn a_record_taken_back_keeps_the_engine_safe()
    ensures steps { (e s : State) (k : ℕ) → Safe e → DoesBack e s k → Steps e s k }
    ensures safe { (e s : State) (k : ℕ) → Safe e → DoesBack e s k → Safe s }
{}

/// A page that is copied to a sparse file, and waits for its mark, leaves to others what it owes them; so the engine stays safe.
pub fn a_copy_keeps_the_engine_safe()
    ensures steps { (e s : State) (k : ℕ) → Safe e → DoesCopy e s k → Steps e s k }
    ensures safe { (e s : State) (k : ℕ) → Safe e → DoesCopy e s k → Safe s }
{}

/// And so does its mark, by the number of the cut.
pub fn a_mark_keeps_the_engine_safe()
    ensures steps { (e s : State) (k : ℕ) → Safe e → DoesMark e s k → Steps e s k }
    ensures safe { (e s : State) (k : ℕ) → Safe e → DoesMark e s k → Safe s }
{}

/// And so does a copy that fails: the snapshot turns suspect, and the source goes on.
pub fn a_lost_copy_keeps_the_engine_safe()
    ensures steps { (e s : State) (k : ℕ) → Safe e → DoesLoseCopy e s k → Steps e s k }
    ensures safe { (e s : State) (k : ℕ) → Safe e → DoesLoseCopy e s k → Safe s }
{}
