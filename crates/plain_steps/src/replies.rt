//! What single replies make of the plain machine, also those of statements that the program doesn't carry out yet.

ghost use Rattle.std.specs.Prelude.{◌≡◌, ◌+◌, ◌-◌, ℕ, true, false, nat_le, List, [], Some, IsTrue};
ghost use Rattle.std.specs.List.{list_any};
ghost use Rattle.std.specs.Str.{bytes_eq};
ghost use Rattle.page_base.specs.declared.numbers.Mode.{Mode};
ghost use Rattle.page_base.specs.declared.numbers.Mode.TheVariants.{S, X};
ghost use Rattle.plain_model.specs.declared.event.LockName.{LockName};
ghost use Rattle.plain_model.specs.declared.event.LockName.TheVariants.{All, Table};
ghost use Rattle.plain_model.specs.declared.reply.TheConstants.Message.{FILE_FAILED, FILE_NOT_REMOVED, LOG_FAILED};
ghost use Rattle.plain_model.specs.declared.reply.Reply.TheVariants as reply;
ghost use Rattle.plain_model.specs.declared.stmt.SnapFile.{SnapFile};
ghost use Rattle.plain_model.specs.declared.stmt.Level.TheVariants as levels;
ghost use Rattle.plain_model.specs.declared.stmt.Stmt.TheVariants as stmt;
ghost use Rattle.plain_model.specs.Holding.{same_lock, holds};
ghost use Rattle.plain_model.specs.Keeping.{is_on_table, kept_at, with_gain};
ghost use Rattle.plain_model.specs.Legal.{answered, effect};
ghost use Rattle.plain_model.specs.Messages.{plain, at_place};
ghost use Rattle.plain_model.specs.Next.{sparse_names};
ghost use Rattle.plain_model.specs.State.{Plain, session, committed, see, copy, files_of, is_session, is_snap};

/// At READ COMMITTED what a statement gained in S on a table goes, where the table isn't held in X; so does what it gained
/// on the table of tables, where no lock on a table is left.
pub fn read_committed_frees_what_was_gained()
    ensures tables { (gained : List LockName) (locks : List (LockName × Mode)) (table : List ℕ) → list_any (same_lock (Table table)) gained ≡ true → holds locks (Table table) X ≡ false → holds (kept_at levels.Committed gained locks) (Table table) S ≡ false }
    ensures last { (gained : List LockName) (locks : List (LockName × Mode)) → list_any (same_lock All) gained ≡ true → holds locks All X ≡ false → list_any is_on_table (kept_at levels.Committed gained locks) ≡ false → holds (kept_at levels.Committed gained locks) All S ≡ false }
    ensures gains { (gained : List LockName) (name : LockName) → list_any (same_lock name) (with_gain name S gained) ≡ true }
{}

/// BEGIN TRAN adds one to the depth.
pub fn a_begin_goes_deeper()
    ensures { (st : Plain) (k : ℕ) → IsTrue (is_session st k) → (session (effect st k (Some stmt.BeginTran) reply.Ok) k).depth ≡ (session st k).depth + 1 }
{}

/// The transaction's own COMMIT makes what its session sees the source, and ends the transaction; an inner one takes one off
/// the depth, and all else stays.
pub fn a_commit_makes_its_changes_the_source()
    ensures source { (st : Plain) (k : ℕ) → (session st k).depth ≡ 1 → committed (effect st k (Some stmt.Commit) reply.Ok) ≡ see st k }
    ensures depth { (st : Plain) (k : ℕ) → IsTrue (is_session st k) → (session st k).depth ≡ 1 → (session (effect st k (Some stmt.Commit) reply.Ok) k).depth ≡ 0 }
    ensures work { (st : Plain) (k : ℕ) → IsTrue (is_session st k) → (session st k).depth ≡ 1 → (session (effect st k (Some stmt.Commit) reply.Ok) k).work ≡ [] }
    ensures inner_depth { (st : Plain) (k : ℕ) → IsTrue (is_session st k) → nat_le 2 (session st k).depth ≡ true → (session (effect st k (Some stmt.Commit) reply.Ok) k).depth ≡ (session st k).depth - 1 }
    ensures inner_work { (st : Plain) (k : ℕ) → IsTrue (is_session st k) → nat_le 2 (session st k).depth ≡ true → (session (effect st k (Some stmt.Commit) reply.Ok) k).work ≡ (session st k).work }
    ensures inner_source { (st : Plain) (k : ℕ) → nat_le 2 (session st k).depth ≡ true → committed (effect st k (Some stmt.Commit) reply.Ok) ≡ committed st }
{}

/// A COMMIT whose log failed leaves no change of its transaction, the source as it was, and no lock.
pub fn a_commit_without_log_keeps_nothing()
    ensures work { (st : Plain) (k count : ℕ) → IsTrue (is_session st k) → (session (effect st k (Some stmt.Commit) (reply.Msg (at_place LOG_FAILED count))) k).work ≡ [] }
    ensures locks { (st : Plain) (k n count : ℕ) → IsTrue (is_session st k) → (session (answered (effect st k (Some stmt.Commit) (reply.Msg (at_place LOG_FAILED count))) k n) k).locks ≡ [] }
    ensures source { (st : Plain) (k count : ℕ) → committed (effect st k (Some stmt.Commit) (reply.Msg (at_place LOG_FAILED count))) ≡ committed st }
{}

/// A revert makes the snapshot's copy the source, and leaves every copy.
pub fn a_revert_makes_the_copy_the_source()
    ensures source { (st : Plain) (k : ℕ) (d snap : List ℕ) → committed (effect st k (Some (stmt.Restore d snap)) reply.Ok) ≡ copy st snap }
    ensures copies { (st : Plain) (k : ℕ) (d snap other : List ℕ) → copy (effect st k (Some (stmt.Restore d snap)) reply.Ok) other ≡ copy st other }
{}

/// A snapshot whose files failed while it was made isn't there, and nobody knows whether its files are.
pub fn a_snapshot_that_failed_is_gone()
    ensures gone { (st : Plain) (k : ℕ) (made snap : List ℕ) (files : List SnapFile) (of : List ℕ) → (session st k).making ≡ Some made → is_snap (effect st k (Some (stmt.CreateSnap snap files of)) (reply.Msg (plain FILE_FAILED))) made ≡ false }
    ensures doubt { (st : Plain) (k : ℕ) (snap name : List ℕ) (files : List SnapFile) (of : List ℕ) → list_any (bytes_eq name) (sparse_names files) ≡ true → list_any (bytes_eq name) (effect st k (Some (stmt.CreateSnap snap files of)) (reply.Msg (plain FILE_FAILED))).in_doubt ≡ true }
    ensures off { (st : Plain) (k : ℕ) (snap name : List ℕ) (files : List SnapFile) (of : List ℕ) → list_any (bytes_eq name) (sparse_names files) ≡ true → list_any (bytes_eq name) (effect st k (Some (stmt.CreateSnap snap files of)) (reply.Msg (plain FILE_FAILED))).on_volume ≡ false }
{}

/// A snapshot that was dropped isn't there, and its files aren't on the volume; also where one wasn't removed, since then
/// nobody knows. The source stays, and every other copy.
pub fn a_dropped_snapshot_is_gone()
    ensures gone { (st : Plain) (k : ℕ) (d : List ℕ) → is_snap (effect st k (Some (stmt.DropDb d)) reply.Ok) d ≡ false }
    ensures off { (st : Plain) (k : ℕ) (d name : List ℕ) → list_any (bytes_eq name) (files_of st d) ≡ true → list_any (bytes_eq name) (effect st k (Some (stmt.DropDb d)) reply.Ok).on_volume ≡ false }
    ensures gone_too { (st : Plain) (k : ℕ) (d : List ℕ) → is_snap (effect st k (Some (stmt.DropDb d)) (reply.Msg (plain FILE_NOT_REMOVED))) d ≡ false }
    ensures source { (st : Plain) (k : ℕ) (d : List ℕ) → committed (effect st k (Some (stmt.DropDb d)) reply.Ok) ≡ committed st }
    ensures copies { (st : Plain) (k : ℕ) (d other : List ℕ) → bytes_eq other d ≡ false → copy (effect st k (Some (stmt.DropDb d)) reply.Ok) other ≡ copy st other }
{}
