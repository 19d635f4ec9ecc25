//! That a commit keeps the invariant, as a function whose contract says it.

ghost use Rattle.std.specs.Prelude.{ℕ};
ghost use Rattle.step_state.specs.Safe.{Safe};
ghost use Rattle.step_state.specs.State.{State};
ghost use Rattle.step_state.specs.Steps.{Steps};
ghost use Rattle.safe_say.specs.Committing.{DoesCommit};
ghost use Rattle.safe_say.specs.Leaving.{DoesLeave};

/// A commit amid others' open transactions and plans leaves to these what it owes them: what they see is joined with what was
/// committed, and their plans lead there; so the engine stays safe.
pub fn a_commit_keeps_the_engine_safe()
    ensures steps { (e s : State) (k : ℕ) → Safe e → DoesCommit e s k → Steps e s k }
    ensures safe { (e s : State) (k : ℕ) → Safe e → DoesCommit e s k → Safe s }
{}

/// And so does a session that ends: it frees its locks, and has no record left.
pub fn a_leave_keeps_the_engine_safe()
    ensures steps { (e s : State) (k : ℕ) → Safe e → DoesLeave e s k → Steps e s k }
    ensures safe { (e s : State) (k : ℕ) → Safe e → DoesLeave e s k → Safe s }
{}
