//! That a cut keeps the invariant, as a function whose contract says it.

ghost use Rattle.std.specs.Prelude.{ℕ};
ghost use Rattle.step_state.specs.Safe.{Safe};
ghost use Rattle.step_state.specs.State.{State};
ghost use Rattle.step_state.specs.Steps.{Steps};
ghost use Rattle.safe_snap.specs.Cutting.{DoesCut};

/// A cut amid open transactions leaves to others what it owes them, and the new snapshot's view, with what it owes taken back,
/// is what was committed; so the engine stays safe.
pub fn a_cut_keeps_the_engine_safe()
    ensures steps { (e s : State) (k : ℕ) → Safe e → DoesCut e s k → Steps e s k }
    ensures safe { (e s : State) (k : ℕ) → Safe e → DoesCut e s k → Safe s }
{}
