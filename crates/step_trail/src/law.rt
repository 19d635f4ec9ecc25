//! What holds of trails and of what is left to do, as functions whose contracts say it.

ghost use Rattle.std.specs.Prelude.{◌≡◌, ◌≢◌, ◌⊎◌, ◌↔◌, ℕ, ◌+◌, ◌*◌, ◌<◌, ◌≤◌, Bool, true, false, ◌||◌, List, [], ◌∷◌, ◌++◌, length, map, Option, Some, None};
ghost use Rattle.std.specs.List.{AllByRecursion, Any, list_any};
ghost use Rattle.alloc_pages.specs.Owners.{owner_at};
ghost use Rattle.page_base.specs.declared.numbers.PageId.{PageId};
ghost use Rattle.page_base.specs.declared.numbers.SessNo.{SessNo};
ghost use Rattle.latch_book.specs.Latches.{latch_of};
ghost use Rattle.page_dev.specs.Faults.{Rose};
ghost use Rattle.page_tables.specs.Owners.{is_there};
ghost use Rattle.plain_model.specs.declared.event.Event.{Event};
ghost use Rattle.plain_model.specs.declared.event.Event.TheVariants as event;
ghost use Rattle.plain_model.specs.declared.kind.Kind.{Kind};
ghost use Rattle.plain_model.specs.declared.kind.Kind.TheVariants as kind;
ghost use Rattle.plain_model.specs.declared.pick.Pick.{Pick};
ghost use Rattle.plain_model.specs.declared.reply.Message.{Message};
ghost use Rattle.plain_model.specs.declared.reply.Reply.TheVariants as reply;
ghost use Rattle.snap_pages.specs.Shown.{Shown};
ghost use Rattle.snap_pages.specs.Steps.{SameSnaps};
ghost use Rattle.step_words.specs.Seats.{Seated, Free, with_seat};
ghost use Rattle.step_state.specs.Own.{is_gone};
ghost use Rattle.step_state.specs.Safe.{Safe};
ghost use Rattle.step_state.specs.State.{State, IsSession, seat, sess};
ghost use Rattle.step_trail.specs.Counting.{AreApart, all_pages, count_pages, is_in};
ghost use Rattle.step_trail.specs.Entries.{Did, Entry, Step, End, Sizes, Amid, book_of, events_in, has_left, is_leaving, kind_after, last_kind, phase_after, phase_of, present, present_after, says, staying, Phase};
ghost use Rattle.step_trail.specs.Example.{small, reading, unlatched, unended, unfailed};
ghost use Rattle.step_trail.specs.Finished.{AreTried, IsRound, AreRounds, entries_in, Finished};
ghost use Rattle.step_trail.specs.Kinds.{is_kind, follows, follows_last};
ghost use Rattle.step_trail.specs.Left.{Left, IsBelow, Lowers, left_said, left_planned};
ghost use Rattle.step_trail.specs.Next.{has_free, kind_at, kind_of};
ghost use Rattle.step_trail.specs.Reached.{IsReached};
ghost use Rattle.step_trail.specs.Rose.{Counts, IsRisen, has_risen, names_snap, risen};
ghost use Rattle.step_trail.specs.Scheduled.{IsAmid, IsBetween, IsLast, IsOver, Scheduled, Takes, entries_of};
ghost use Rattle.step_trail.specs.Togo.{sound, togo, unmapped};
ghost use Rattle.step_trail.specs.Traced.{AreFresh, Flushes, Traced, Traces, sizes_of};
ghost use Rattle.step_trail.specs.Walked.{IsEnd, IsEntry, IsExplained, IsStep, Walked, fits_phase};

/// Pages that are there, none of them twice, are no more than there are pages; and fewer where another one is there.
pub fn pages_apart_are_counted()
    ensures all { (files : List ℕ) (ps : List PageId) → AreApart ps → AllByRecursion (λ (p : PageId). is_there files p ≡ true) ps → length ps ≤ all_pages files }
    ensures fewer { (files : List ℕ) (ps : List PageId) (q : PageId) → AreApart ps → AllByRecursion (λ (p : PageId). is_there files p ≡ true) ps → is_there files q ≡ true → is_in ps q ≡ false → length ps < all_pages files }
{}

/// An allocation page has a free slot exactly where some slot of it has the owner 0.
pub fn a_page_with_a_free_slot_has_one()
    ensures { (slots : List (List ℕ)) → has_free slots ≡ true ↔ (i : ℕ) × (owner_at slots i ≡ 0) }
{}

/// What a step names by its counts are the objects whose count rose in it.
pub fn what_rose_is_named()
    ensures counts { (before now : ℕ) → has_risen before now ≡ true ↔ Rose before now }
    ensures snaps { (before now : Counts) (name : List ℕ) → names_snap (risen before now) name ≡ true ↔ IsRisen before now name }
{}

/// The test of kinds tells them apart.
pub fn kinds_are_told_apart()
    ensures { (a b : Kind) → is_kind a b ≡ true → a ≡ b }
{}

/// Behind a reply by itself come the next statement, the session's leaving, or a latch to take its transaction back; behind
/// leaving comes nothing; a session begins with a statement or leaves; and it never does the flusher's step.
pub fn a_reply_ends_a_statement()
    ensures said { (b : Kind) → follows kind.Say b ≡ true → (b ≡ kind.Latch) ⊎ ((b ≡ kind.Start) ⊎ (b ≡ kind.Leave)) }
    ensures left { (b : Kind) → follows kind.Leave b ≡ false }
    ensures first { (b : Kind) → follows_last None b ≡ true → (b ≡ kind.Start) ⊎ (b ≡ kind.Leave) }
    ensures flusher { (a : Kind) → follows a kind.Flush ≡ false }
{}

/// A trail goes on with a step, or with the end of a pick, exactly where that may stand behind its entries; and each front of a
/// trail is one.
pub fn a_trail_goes_on()
    ensures step { (z : Sizes) (es : List Entry) (d : Did) (book : List Event) → Walked z es book → IsStep z es d → Walked z (es ++ Step d ∷ []) (book ++ d.events) }
    ensures end { (z : Sizes) (es : List Entry) (who : ℕ) (next : Option Kind) (book : List Event) → Walked z es book → IsEnd z es who next → Walked z (es ++ End who next ∷ []) book }
    ensures none { (z : Sizes) → Walked z [] [] }
    ensures each { (z : Sizes) (es : List Entry) (e : Entry) (fs : List Entry) (book : List Event) → Walked z (es ++ e ∷ fs) book → IsEntry z es e }
    ensures front { (z : Sizes) (es fs : List Entry) (book : List Event) → Walked z (es ++ fs) book → Walked z es (book_of es) }
{}

/// What a trail tells of a session is told anew by one more entry: its last kind, its phase, the steps of its present statement,
/// and whether it has left.
pub fn what_a_session_did_moves_by_one()
    ensures kind { (k : ℕ) (es : List Entry) (e : Entry) → last_kind k (es ++ e ∷ []) ≡ kind_after k (last_kind k es) e }
    ensures phase { (k : ℕ) (es : List Entry) (e : Entry) → phase_of k (es ++ e ∷ []) ≡ phase_after k (phase_of k es) e }
    ensures present { (k : ℕ) (es : List Entry) (e : Entry) → present k (es ++ e ∷ []) ≡ present_after k (present k es) e }
    ensures left { (k : ℕ) (es : List Entry) (e : Entry) → has_left k (es ++ e ∷ []) ≡ (has_left k es || list_any (is_leaving k) (events_in e)) }
{}

/// In a trail a session answers a statement that has begun: in its first step, or amid it.
pub fn an_answer_ends_what_has_begun()
    ensures { (z : Sizes) (es : List Entry) (d : Did) (fs : List Entry) (book : List Event) → Walked z (es ++ Step d ∷ fs) book → d.who ≢ 0 → says d ≡ true → (d.kind ≡ kind.Start) ⊎ (phase_of d.who es ≡ Amid) }
{}

/// In a trail a refusal has its cause among the steps of its statement, up to the one that says it.
pub fn a_refusal_has_its_cause()
    ensures { (z : Sizes) (es : List Entry) (d : Did) (fs : List Entry) (book : List Event) (who : SessNo) (number began : ℕ) (m : Message) → Walked z (es ++ Step d ∷ fs) book → Any (λ (e : Event). e ≡ event.Said who number began (reply.Msg m)) d.events → IsExplained z (present d.who es ++ d ∷ []) m.number }
{}

/// A pick begins without steps, goes on with a step that doesn't end it, and ends with one that does, or where it is over; and a
/// schedule goes on by the entries of one more pick.
pub fn a_schedule_goes_pick_by_pick()
    ensures begins { (pick : Pick) → IsAmid pick [] }
    ensures goes_on { (pick : Pick) (dids : List Did) (d : Did) → IsAmid pick dids → d.who ≡ pick.who → IsBetween pick.until d → IsAmid pick (dids ++ d ∷ []) }
    ensures ends { (pick : Pick) (dids : List Did) (d : Did) (next : Option Kind) → IsAmid pick dids → d.who ≡ pick.who → IsLast pick.until d → Takes pick (dids ++ d ∷ []) next }
    ensures stops { (pick : Pick) (dids : List Did) (next : Option Kind) → IsAmid pick dids → IsOver pick.until dids next → Takes pick dids next }
    ensures more { (picks : List Pick) (es : List Entry) (pick : Pick) (dids : List Did) (next : Option Kind) → Scheduled picks es → Takes pick dids next → Scheduled (picks ++ pick ∷ []) (es ++ entries_of pick dids next) }
    ensures joined { (ps qs : List Pick) (es fs : List Entry) → Scheduled ps es → Scheduled qs fs → Scheduled (ps ++ qs) (es ++ fs) }
{}

/// A round begins with nobody tried, goes on while nobody goes, and ends with the first who does; a run ends in rounds once all
/// have left.
pub fn a_run_ends_in_rounds()
    ensures begins { (whos : List ℕ) → AreTried whos [] whos }
    ensures goes_on { (whos : List ℕ) (busy : List Did) (d : Did) (rest : List ℕ) → AreTried whos busy (d.who ∷ rest) → d.went ≡ false → AreTried whos (busy ++ d ∷ []) rest }
    ensures ends { (whos : List ℕ) (busy : List Did) (d : Did) (rest : List ℕ) → AreTried whos busy (d.who ∷ rest) → d.went ≡ true → IsRound whos (busy ++ d ∷ []) }
    ensures more { (sessions : ℕ) (before : List Entry) (rs : List (List Did)) (r : List Did) → AreRounds sessions before rs → IsRound (staying sessions (before ++ entries_in rs)) r → AreRounds sessions before (rs ++ r ∷ []) }
    ensures entries { (rs : List (List Did)) (r : List Did) → entries_in (rs ++ r ∷ []) ≡ entries_in rs ++ map Step r }
    ensures over { (sessions : ℕ) (before : List Entry) (rs : List (List Did)) → AreRounds sessions before rs → staying sessions (before ++ entries_in rs) ≡ [] → Finished sessions before (entries_in rs) }
{}

/// What is left to do isn't below itself, is compared through a third, and can't fall for ever.
pub fn what_is_left_falls()
    ensures apart { (e : State) → Lowers e e → ⊥ }
    ensures through { (e s t : State) → Lowers e s → Lowers s t → Lowers e t }
    ensures ends { (f : ℕ → Left) → ((n : ℕ) → IsBelow (f (n + 1)) (f n)) → ⊥ }
{}

/// A step that changes one session's seat leaves less to do where the session then has fewer statements to answer, or as many and
/// fewer to plan, or as many of both and all in all fewer steps, of which no other session has more; where snapshots and the number
/// of pages stay, its own steps are enough.
pub fn a_step_leaves_less_to_do()
    ensures saying { (e s : State) (k : ℕ) (x : Seated) → IsSession e k → s.seats ≡ with_seat e.seats k x → left_said x.sitting < left_said (seat e k).sitting → Lowers e s }
    ensures planning { (e s : State) (k : ℕ) (x : Seated) → IsSession e k → s.seats ≡ with_seat e.seats k x → left_said x.sitting ≡ left_said (seat e k).sitting → left_planned x.sitting < left_planned (seat e k).sitting → Lowers e s }
    ensures stepping { (e s : State) (k : ℕ) (x : Seated) → IsSession e k → s.seats ≡ with_seat e.seats k x → left_said x.sitting ≡ left_said (seat e k).sitting → left_planned x.sitting ≡ left_planned (seat e k).sitting → ((j : ℕ) → IsSession e j → j ≢ k → togo s.pages (seat e j) ≤ togo e.pages (seat e j)) → 2 * unmapped s.pages + (sound s.pages + togo s.pages x) < 2 * unmapped e.pages + (sound e.pages + togo e.pages (seat e k)) → Lowers e s }
    ensures in_place { (e s : State) (k : ℕ) (x : Seated) → IsSession e k → s.seats ≡ with_seat e.seats k x → SameSnaps e.pages s.pages → s.pages.pool.files.counts ≡ e.pages.pool.files.counts → left_said x.sitting ≡ left_said (seat e k).sitting → left_planned x.sitting ≡ left_planned (seat e k).sitting → togo e.pages x < togo e.pages (seat e k) → Lowers e s }
{}

/// Where one page less passes a test, one less is counted; and where no other passes, no more are.
pub fn counts_of_pages_fall()
    ensures one { (t u : PageId → Bool) (p : PageId) → t p ≡ true → u p ≡ false → ((q : PageId) → q ≢ p → u q ≡ t q) → (files : List ℕ) → is_there files p ≡ true → count_pages files t ≡ count_pages files u + 1 }
    ensures fewer { (t u : PageId → Bool) → ((q : PageId) → u q ≡ true → t q ≡ true) → (files : List ℕ) → count_pages files u ≤ count_pages files t }
{}

/// A session has no next step exactly where it has left.
pub fn who_is_gone_has_no_step()
    ensures { (e : State) (k : ℕ) → IsSession e k → kind_of e k ≡ None ↔ is_gone (seat e k).sitting.point ≡ true }
{}

/// Who needs a latch next holds none; so where each session that hasn't left needs one, none is held, and none is in the way.
pub fn who_needs_a_latch_holds_none()
    ensures its { (e : State) (k : ℕ) → Safe e → IsSession e k → kind_of e k ≡ Some kind.Latch → (seat e k).hold ≡ Free }
    ensures all { (e : State) → Safe e → ((k : ℕ) → IsSession e k → (kind_of e k ≡ None) ⊎ (kind_of e k ≡ Some kind.Latch)) → (k : ℕ) → IsSession e k → latch_of e.latches (sess k) ≡ None }
{}

/// A session that has reached its point takes a step there that may stand behind its last one, whatever the pages are.
pub fn the_next_step_may_come()
    ensures { (v : Shown) (last : Option Kind) (phase : Phase) (x : Seated) (b : Kind) → IsReached v last phase x → kind_at v x x.sitting.point ≡ Some b → (follows_last last b ≡ true) × (fits_phase phase b ≡ true) }
{}

/// The trail of an engine keeps up with it: before the first step it has no entry, it takes in a step, one of the flusher, and the
/// end of a pick.
pub fn a_trail_keeps_up_with_its_engine()
    ensures none { (e : State) → AreFresh e → Traced (sizes_of e) e [] }
    ensures step { (z : Sizes) (e s : State) (k : ℕ) (d : Did) (entries : List Entry) → Traced z e entries → Traces z e s k d → Traced z s (entries ++ Step d ∷ []) }
    ensures flush { (z : Sizes) (e s : State) (d : Did) (entries : List Entry) → Traced z e entries → Flushes e s d → Traced z s (entries ++ Step d ∷ []) }
    ensures end { (z : Sizes) (e : State) (entries : List Entry) (who : ℕ) → Traced z e entries → who ≤ length e.seats → Traced z e (entries ++ End who (kind_of e who) ∷ []) }
{}

/// The steps of a SELECT are a trail; a page that is brought in without its latch is in none, and neither is a statement that goes
/// on behind its answer, or a failure of the log that no step names.
pub fn an_example_is_a_trail()
    ensures reading { Walked small reading (book_of reading) }
    ensures unlatched { (book : List Event) → Walked small unlatched book → ⊥ }
    ensures unended { (book : List Event) → Walked small unended book → ⊥ }
    ensures unfailed { (book : List Event) → Walked small unfailed book → ⊥ }
{}
