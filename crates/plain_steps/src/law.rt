//! What legal histories promise, as functions whose contracts say it.

ghost use Rattle.std.specs.Prelude.{List};
ghost use Rattle.plain_model.specs.declared.stmt.Stmt.{Stmt};
ghost use Rattle.plain_model.specs.declared.pick.Pick.{Pick};
ghost use Rattle.plain_model.specs.declared.event.Event.{Event};
ghost use Rattle.plain_model.specs.Alone.{AreAlone, AreSeen};
ghost use Rattle.plain_model.specs.Complete.{AreKnown};
ghost use Rattle.plain_model.specs.Order.{IsInOrder};
ghost use Rattle.plain_model.specs.Unlocked.{AreUnlocked};
ghost use Rattle.plain_steps.specs.Good.{AreKeptGood};

/// Each statement on the source's tables has the reply that it gets by what its session sees, and, outside a transaction or
/// at SERIALIZABLE in one that commits, the reply that it gets alone just before the commit.
pub fn transactions_are_alone()
    ensures alone { AreAlone }
    ensures seen { AreSeen }
{}

/// No SELECT in a snapshot takes a lock or is refused for one.
pub fn snapshots_are_read_without_locks()
    ensures { AreUnlocked }
{}

/// The source's tables and those of each copy stay tables: their columns are a good definition, and each row fits them,
/// is within the limits and stands by its own key.
pub fn histories_keep_tables()
    ensures { AreKeptGood }
{}

/// A history in the order of a schedule tells of no session that has no script.
pub fn orders_know_no_stranger()
    ensures { (scripts : List (List Stmt)) (picks : List Pick) (book : List Event) → IsInOrder scripts picks book → AreKnown scripts book }
{}
