//! What one event leaves of the other sessions, of the source and of the copies.

ghost use Rattle.std.specs.Prelude.{◌≡◌, ◌≢◌, ◌≤◌, ℕ, List, [], true, IsTrue, if◌then◌else◌};
ghost use Rattle.std.specs.Str.{bytes_eq};
ghost use Rattle.page_base.specs.declared.numbers.SessNo.{SessNo};
ghost use Rattle.plain_model.specs.declared.event.Event.{Event};
ghost use Rattle.plain_model.specs.declared.event.Event.TheVariants.{CutAt, Said};
ghost use Rattle.plain_model.specs.declared.reply.Reply.{Reply};
ghost use Rattle.plain_model.specs.Legal.{MayCome, after};
ghost use Rattle.plain_model.specs.State.{Plain, session, stmt_of, is_session, is_snap, committed, see, copy};
ghost use Rattle.plain_model.specs.Tables.{apply};
ghost use Rattle.plain_steps.specs.Events.{who_of, source_next, sight_by};

/// An event leaves every other session as it was.
pub fn events_leave_the_others()
    ensures { (st : Plain) (e : Event) → MayCome st e → (j : ℕ) → 1 ≤ j → j ≢ who_of e → session (after st e) j ≡ session st j }
{}

/// What an event makes of the source, and so of what the other sessions see.
pub fn events_make_the_source()
    ensures source { (st : Plain) (e : Event) → committed (after st e) ≡ source_next st e }
    ensures others { (st : Plain) (e : Event) → MayCome st e → (j : ℕ) → 1 ≤ j → j ≢ who_of e → see (after st e) j ≡ apply (session st j).work (source_next st e) }
    ensures own { (st : Plain) (who number began : ℕ) (reply : Reply) → IsTrue (is_session st who) → ((session st who).depth ≡ 0 → (session st who).work ≡ []) → see (after st (Said (record { 0 = who }) number began reply)) who ≡ sight_by st who (stmt_of st who) reply }
{}

/// A cut copies the source, and the copy of each snapshot that is open after an event which didn't cut it is the one that
/// it was.
pub fn events_leave_the_copies()
    ensures cut { (st : Plain) (who : SessNo) (snap other : List ℕ) → copy (after st (CutAt who snap)) other ≡ (if bytes_eq other snap then committed st else copy st other) }
    ensures others { (st : Plain) (e : Event) (snap : List ℕ) → ((who : SessNo) → e ≡ CutAt who snap → ⊥) → is_snap (after st e) snap ≡ true → copy (after st e) snap ≡ copy st snap }
{}
