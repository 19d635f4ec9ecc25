//! What single replies leave of the plain machine, as functions whose contracts say it: facts that a wrong definition would break.

ghost use Rattle.std.specs.Prelude.{◌≡◌, ℕ, true, false, List, [], None, Some, IsTrue, is_some};
ghost use Rattle.std.specs.List.{list_any};
ghost use Rattle.std.specs.Str.{bytes_eq};
ghost use Rattle.page_base.specs.declared.numbers.Mode.{Mode};
ghost use Rattle.page_base.specs.declared.numbers.Mode.TheVariants.{S, X};
ghost use Rattle.plain_model.specs.declared.event.LockName.{LockName};
ghost use Rattle.plain_model.specs.declared.event.LockName.TheVariants.{All};
ghost use Rattle.plain_model.specs.declared.reply.Reply.{Reply};
ghost use Rattle.plain_model.specs.declared.reply.Reply.TheVariants as reply;
ghost use Rattle.plain_model.specs.declared.stmt.Level.{Level};
ghost use Rattle.plain_model.specs.declared.stmt.Level.TheVariants as levels;
ghost use Rattle.plain_model.specs.declared.stmt.Stmt.TheVariants as stmt;
ghost use Rattle.plain_model.specs.Holding.{holds};
ghost use Rattle.plain_model.specs.Keeping.{is_on_table, kept_at};
ghost use Rattle.plain_model.specs.Messages.{plain, first_that};
ghost use Rattle.plain_model.specs.Next.{Replies, no_restore, next_restore};
ghost use Rattle.plain_model.specs.Legal.{answered, effect, undropped};
ghost use Rattle.plain_model.specs.State.{Plain, session, committed, files_of, is_session, is_being_made, is_suspect};
ghost use Rattle.plain_model.specs.Users.{user_of, other_snap};

use crate::Message;

/// A ROLLBACK leaves no change of its transaction, and the source as it was.
pub fn a_rollback_forgets_its_changes()
    ensures work { (st : Plain) (k : ℕ) → IsTrue (is_session st k) → (session (effect st k (Some stmt.Rollback) reply.Ok) k).work ≡ [] }
    ensures depth { (st : Plain) (k : ℕ) → IsTrue (is_session st k) → (session (effect st k (Some stmt.Rollback) reply.Ok) k).depth ≡ 0 }
    ensures source { (st : Plain) (k : ℕ) → committed (effect st k (Some stmt.Rollback) reply.Ok) ≡ committed st }
{}

/// A COMMIT for which there is no memory leaves no change of its transaction, the source as it was, and no lock.
pub fn a_commit_without_memory_keeps_nothing()
    ensures work { (st : Plain) (k : ℕ) → IsTrue (is_session st k) → (session (effect st k (Some stmt.Commit) (reply.Msg (plain Message.NO_MEMORY))) k).work ≡ [] }
    ensures locks { (st : Plain) (k n : ℕ) → IsTrue (is_session st k) → (session (answered (effect st k (Some stmt.Commit) (reply.Msg (plain Message.NO_MEMORY))) k n) k).locks ≡ [] }
    ensures source { (st : Plain) (k : ℕ) → committed (effect st k (Some stmt.Commit) (reply.Msg (plain Message.NO_MEMORY))) ≡ committed st }
{}

/// Behind every reply, a refusal too, nothing counts as gained any longer.
pub fn no_reply_leaves_gains()
    ensures { (st : Plain) (k n : ℕ) → IsTrue (is_session st k) → (session (answered st k n) k).gained ≡ [] }
{}

/// At SERIALIZABLE a transaction keeps its locks; at READ COMMITTED those in X, and that in S on the table of tables as
/// long as a lock on a table is left.
pub fn locks_are_kept_by_level()
    ensures serial { (gained : List LockName) (locks : List (LockName × Mode)) → kept_at levels.Serial gained locks ≡ locks }
    ensures exclusive { (level : Level) (gained : List LockName) (locks : List (LockName × Mode)) (name : LockName) → holds locks name X ≡ true → holds (kept_at level gained locks) name X ≡ true }
    ensures all { (level : Level) (gained : List LockName) (locks : List (LockName × Mode)) → holds locks All S ≡ true → list_any is_on_table (kept_at level gained locks) ≡ true → holds (kept_at level gained locks) All S ≡ true }
{}

/// A session is in its own current database, so it is in the way of dropping it.
pub fn the_asking_session_is_a_user()
    ensures { (st : Plain) (k : ℕ) → IsTrue (is_session st k) → is_some (user_of st (session st k).current) ≡ true }
{}

/// RESTORE from a snapshot that is being made is refused for that, also where it is suspect.
pub fn being_made_is_told_before_suspect()
    ensures { (st : Plain) (k : ℕ) (d snap : List ℕ) → first_that (no_restore st k d snap) ≡ None → other_snap st snap ≡ None → is_being_made st snap ≡ true → next_restore st k None d snap ≡ Replies (reply.Msg (plain Message.BEING_MADE)) }
{}

/// Behind a DROP DATABASE that couldn't remove a file nobody knows whether the snapshot's files are there.
pub fn files_not_removed_are_in_doubt()
    ensures { (st : Plain) (d name : List ℕ) → list_any (bytes_eq name) (files_of st d) ≡ true → list_any (bytes_eq name) (undropped st d (plain Message.FILE_NOT_REMOVED)).in_doubt ≡ true }
{}

/// A session has the level that it set.
pub fn a_level_is_the_one_that_was_set()
    ensures { (st : Plain) (k : ℕ) (level : Level) → IsTrue (is_session st k) → (session (effect st k (Some (stmt.SetLevel level)) reply.Ok) k).level ≡ level }
{}
