//! That steps which visit pages keep the invariant, as functions whose contracts say it.

ghost use Rattle.std.specs.Prelude.{ℕ};
ghost use Rattle.step_state.specs.Safe.{Safe};
ghost use Rattle.step_state.specs.State.{State};
ghost use Rattle.step_state.specs.Steps.{Steps};
ghost use Rattle.safe_visit.specs.Latching.{DoesLatch};
ghost use Rattle.safe_visit.specs.Looking.{DoesLook};
ghost use Rattle.safe_visit.specs.Passing.{DoesPass};
ghost use Rattle.safe_visit.specs.Fetching.{DoesFetch, DoesReadCopy, DoesLoseRead};
ghost use Rattle.safe_visit.specs.Beginning.{DoesBegin};

/// A latch that is taken where none is in the way, whatever it is needed for, leaves to others what it owes them; so the engine
/// stays safe.
pub fn a_latch_keeps_the_engine_safe()
    ensures steps { (e s : State) (k : ℕ) → Safe e → DoesLatch e s k → Steps e s k }
    ensures safe { (e s : State) (k : ℕ) → Safe e → DoesLatch e s k → Safe s }
{}

/// And so does a look at the map of the snapshot that a session reads.
pub fn a_look_keeps_the_engine_safe()
    ensures steps { (e s : State) (k : ℕ) → Safe e → DoesLook e s k → Steps e s k }
    ensures safe { (e s : State) (k : ℕ) → Safe e → DoesLook e s k → Safe s }
{}

/// And so does a page that is brought in and pinned, whatever for.
pub fn a_fetch_keeps_the_engine_safe()
    ensures steps { (e s : State) (k : ℕ) → Safe e → DoesFetch e s k → Steps e s k }
    ensures safe { (e s : State) (k : ℕ) → Safe e → DoesFetch e s k → Safe s }
{}

/// And so does an allocation page that is passed, since it tells of no free page.
pub fn a_pass_keeps_the_engine_safe()
    ensures steps { (e s : State) (k : ℕ) → Safe e → DoesPass e s k → Steps e s k }
    ensures safe { (e s : State) (k : ℕ) → Safe e → DoesPass e s k → Safe s }
{}

/// And so does a snapshot's own copy of a page that is read.
pub fn a_copy_read_keeps_the_engine_safe()
    ensures steps { (e s : State) (k : ℕ) → Safe e → DoesReadCopy e s k → Steps e s k }
    ensures safe { (e s : State) (k : ℕ) → Safe e → DoesReadCopy e s k → Safe s }
{}

/// And so does a statement on tables that begins: nobody reverts the source meanwhile.
pub fn a_beginning_keeps_the_engine_safe()
    ensures steps { (e s : State) (k : ℕ) → Safe e → DoesBegin e s k → Steps e s k }
    ensures safe { (e s : State) (k : ℕ) → Safe e → DoesBegin e s k → Safe s }
{}

/// And so does a copy that can't be read: its snapshot is suspect then, which is what the session answers.
pub fn a_lost_read_keeps_the_engine_safe()
    ensures steps { (e s : State) (k : ℕ) → Safe e → DoesLoseRead e s k → Steps e s k }
    ensures safe { (e s : State) (k : ℕ) → Safe e → DoesLoseRead e s k → Safe s }
{}
