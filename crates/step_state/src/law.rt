//! That the invariant is kept, as a function whose contract says it.

ghost use Rattle.std.specs.Prelude.{ℕ};
ghost use Rattle.step_state.specs.Safe.{Safe};
ghost use Rattle.step_state.specs.State.{State};
ghost use Rattle.step_state.specs.Steps.{Steps};

/// A step that leaves to others what it owes them, and shows what holds of its own session and of the whole, keeps the engine
/// safe.
pub fn steps_keep_the_engine_safe()
    ensures { (e s : State) (k : ℕ) → Safe e → Steps e s k → Safe s }
{}
