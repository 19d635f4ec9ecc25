//! What comes next of a statement on tables, phase by phase.

ghost use Rattle.std.specs.Prelude.{◌≡◌, ◌∷◌, [], ℕ, List, Some, true, false};
ghost use Rattle.page_base.specs.declared.numbers.Mode.{Mode};
ghost use Rattle.plain_model.specs.declared.event.LockName.{LockName};
ghost use Rattle.plain_model.specs.declared.reply.TheConstants.Message.{SUSPECT};
ghost use Rattle.plain_model.specs.declared.stmt.SelectStmt.{SelectStmt};
ghost use Rattle.plain_model.specs.declared.stmt.Stmt.{Stmt};
ghost use Rattle.plain_model.specs.declared.stmt.Stmt.TheVariants.{Select};
ghost use Rattle.plain_model.specs.Coming.{Next, unless, unless_shape, waits, under, answers};
ghost use Rattle.plain_model.specs.Free.{is_of_tables};
ghost use Rattle.plain_model.specs.Holding.{held};
ghost use Rattle.plain_model.specs.Meaning.{shape};
ghost use Rattle.plain_model.specs.Messages.{plain};
ghost use Rattle.plain_model.specs.Next.{next, is_built};
ghost use Rattle.plain_model.specs.State.{Plain, session, stmt_of, copy, is_source, is_snap, is_suspect};
ghost use Rattle.plain_steps.specs.Modes.{mode_in, suffices};
ghost use Rattle.plain_steps.specs.Phases.{by_phases};

/// A statement on the source's tables comes by its phases: early refusals, the table of tables, its shape, its own table,
/// its reply.
pub fn statements_come_by_phases()
    ensures { (st : Plain) (k : ℕ) (stmt : Stmt) → stmt_of st k ≡ Some stmt → is_built stmt ≡ true → is_of_tables stmt ≡ true → is_source st (session st k).current ≡ true → next st k ≡ by_phases st k stmt }
{}

/// Where a lock is lacking it is waited for, and where it is held the next phase comes.
pub fn a_phase_is_passed_under_its_lock()
    ensures lacks { (st : Plain) (k : ℕ) (name : LockName) (mode : Mode) (n : Next) → suffices (mode_in (session st k).locks name) mode ≡ false → under st k name mode n ≡ waits (held st k name mode) name mode }
    ensures has { (st : Plain) (k : ℕ) (name : LockName) (mode : Mode) (n : Next) → suffices (mode_in (session st k).locks name) mode ≡ true → under st k name mode n ≡ n }
{}
