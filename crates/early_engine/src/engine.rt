//! The engine: a source in pages, its snapshots, its sessions, and the history of what they did.

ghost use Rattle.std.specs.Prelude.{All, ◌≡◌, ◌+◌, ◌<◌, ◌≤◌, ℕ, List, [], true, false, ◌∷◌, ◌*◌, length, sum_by, replicate, IfOk, IfErr, slice_index_or, slice_get, Some, IsTrue, ◌-◌, ◌↔◌};
ghost use Rattle.early_engine.specs.Steps.{next_stmt, HasNext, Goes, Says, Leaves, AreOthersSame, Moves, HaveLeft};
ghost use Rattle.early_engine.specs.Schedules.{Takes, Plays, Rounds, due_order};
ghost use Rattle.plain_model.specs.declared.pick.Pick.{Pick};
ghost use Rattle.plain_model.specs.Order.{closers, order, steps};
ghost use Rattle.early_engine.specs.declared.moved.Moved.TheVariants.{Went, Ended};
ghost use Rattle.early_engine.specs.Safe.{state, seen_by, seat_at, script_at, is_turn};
ghost use Rattle.early_engine.specs.Closing.{IsFault, Ends, StillLies};
ghost use Rattle.plain_model.specs.Legal.{Legal};
ghost use Rattle.plain_model.specs.Complete.{Complete};
ghost use Rattle.page_dev.specs.Faults.{Rose};
ghost use Rattle.std.specs.List.{list_any};
ghost use Rattle.early_engine.specs.Ready.{reply_of};
ghost use Rattle.early_engine.specs.Stepping.{tables_after};
ghost use Rattle.early_engine.specs.Deciding.{IsDecision, IsSeeing, IsCut};
ghost use Rattle.plain_model.specs.State.{committed};
ghost use Rattle.plain_model.specs.Tables.{Tables};
ghost use Rattle.plain_model.specs.Sound.{is_sound};
ghost use Rattle.std.specs.FinMap as finite;
ghost use Rattle.std.specs.FinSet as finset;
ghost use Rattle.page_base.specs.Pages.{blank};
ghost use Rattle.early_pages.specs.Shown.{img, counts, count, catalog};
ghost use Rattle.early_pages.specs.Catalog.{empty};
ghost use Rattle.early_engine.specs.Opened.{names_of, new_source};
ghost use Rattle.early_engine.specs.Disks.{disk_of};
ghost use Rattle.plain_model.specs.State.{master};
ghost use Rattle.plain_model.specs.Sound.{AreScripts};

use crate::answering::{carry_out, current_after, enter_reply};
use crate::choosing::choose;
use crate::closing::{CloseEnd, put_back};
use crate::course::Course;
use crate::creating::create_snapshot;
use crate::decision::Decision;
use crate::moved::Moved;
use crate::seeing::select_in;
use crate::{Ledger, Seat};
use early_pages::SnapPages;
use page_base::{Name, NoMemory, SessNo, SnapNo};
use page_dev::{PageFile, Volume};
use plain_model::{Book, Event, Pick, Scripts, Stmt};
use std::alloc::Global;
use std::marker::Model;
use std::snapshot::Snapshot;

/// A run of scripts over a new source: its pages in memory, its snapshots' sparse files taken from a volume, its sessions
/// and their history.
#[derive(Drop)]
pub struct Engine<V: Volume> {
    volume: V,
    pages: SnapPages<V::Pages>,
    source: Name,
    file: Name,
    // the volume as it was handed in, for proofs alone
    opened: Snapshot<V>,
    scripts: Scripts,
    seats: Vec<Seat>,
    ledger: Ledger,
}

impl<V: Volume> Model for Engine<V> {
    ghost use Rattle.std.specs.FinMap as finite;
    ghost use Rattle.std.specs.FinSet as finset;
    ghost use Rattle.page_base.specs.contracts.value.Value as v;
    ghost use Rattle.plain_model.specs.contracts.expr.Expr as e;
    ghost use Rattle.plain_model.specs.contracts.event.Event as ev;
    ghost use Rattle.std.specs.Coded.{codes};
    ghost use Rattle.early_engine.specs.Opened.{names_of, new_source};
    ghost use Rattle.early_engine.specs.Disks.{disk_of};
    ghost use Rattle.early_engine.specs.Safe.{Run, Safe};

    ghost Value = { Run };

    ghost coded = { Prim.hlevel (codes, finite.code, v.the_row.coded, e.the_row.coded, ev.the_row.coded) };

    ghost view = { λ a. record {
      opening = new_source a.source a.file (names_of (V.folder a.opened.value));
      scripts = a.scripts;
      disk = disk_of V.tells V.folder V.out V.failures V.file_failures a.volume;
      shown = a.pages;
      seats = a.seats.items;
      kept = a.ledger;
    } };

    ghost invariant = { λ a. Safe (record {
      opening = new_source a.source a.file (names_of (V.folder a.opened.value));
      scripts = a.scripts;
      disk = disk_of V.tells V.folder V.out V.failures V.file_failures a.volume;
      shown = a.pages;
      seats = a.seats.items;
      kept = a.ledger;
    }) };
}

impl<V: Volume> Engine<V> {
    /// How many sessions there are.
    pub fn sessions(&self) -> u8
        ensures { result ≡ length self.now.scripts }
    {
        let _kept = self.scripts.as_slice();
        self.scripts.len() as u8
    }

    /// The history so far: it is legal where the volume tells, and complete where all sessions have left.
    pub fn book(&self) -> &[Event]
        ensures events { result.now ≡ self.now.kept.events }
        ensures legal { IsTrue self.now.disk.told → Legal self.now.opening self.now.scripts self.now.kept.events }
        ensures complete { ((i : ℕ) → i < length self.now.scripts → (seat_at self.now i).gone ≡ true) → Complete self.now.scripts self.now.kept.events }
    {
        self.ledger.events()
    }
}

// What an engine keeps beside its volume and its scripts.
#[derive(Drop)]
struct Parts<P: PageFile> {
    pages: SnapPages<P>,
    seats: Vec<Seat>,
    ledger: Ledger,
}

// Blank pages, sessions at their beginning, and room for all events.
fn make_parts<P: PageFile>(
    alloc: Global,
    pages: u32,
    scripts: &Scripts,
) -> Result<Parts<P>, NoMemory>
    ensures images { IfOk result (λ a. img a.pages ≡ (λ p. blank)) }
    ensures counts { IfOk result (λ a. counts a.pages ≡ pages ∷ []) }
    ensures catalog { IfOk result (λ a. catalog a.pages ≡ empty 1) }
    ensures seats { IfOk result (λ a. a.seats.items ≡ replicate (length scripts.now) (record { current = master; said = 0; gone = false })) }
    ensures ledger { IfOk result (λ a. a.ledger ≡ record { events = []; room = 3 * sum_by length scripts.now + length scripts.now }) }
    ensures kept { AreScripts scripts.now }
{
    let room = 3 * statements(scripts) + scripts.len();
    Ok(Parts {
        pages: SnapPages::new(alloc, &[pages], 1)?,
        seats: first_seats(alloc, scripts.len())?,
        ledger: Ledger::new(alloc, room as u32)?,
    })
}

/// The volume of an engine for which no memory was found, handed back.
#[derive(Drop)]
pub struct OpenRefused<V: Volume> {
    pub volume: V,
}

// How many statements all sessions have.
fn statements(scripts: &Scripts) -> usize
    ensures sum { result ≡ sum_by length scripts.now }
    ensures kept { AreScripts scripts.now }
{
    let mut sum = 0;
    for script in scripts.as_slice() {
        sum += script.len();
    }
    sum
}

// The database in which each session begins, and that it has when it has left.
fn master() -> Name
    ensures { result ≡ master }
{
    Name::read(b"master").unwrap()
}

// A session at its beginning.
fn first_seat() -> Seat
    ensures { result ≡ record { current = master; said = 0; gone = false } }
{
    Seat {
        current: master(),
        said: 0,
        gone: false,
    }
}

// All sessions at their beginning.
fn first_seats(alloc: Global, sessions: usize) -> Result<Vec<Seat>, NoMemory>
    ensures { IfOk result (λ seats. seats.items ≡ replicate sessions (record { current = master; said = 0; gone = false })) }
{
    let mut seats = Vec::new(alloc);
    for _ in 0..sessions {
        seats.push(first_seat())?;
    }
    Ok(seats)
}

impl<V: Volume> Engine<V> {
    /// A run of these scripts over a new source `name` with one data file `file` of so many pages, at most 32,768,
    /// without tables. No file of the volume may be out. Room for all events is found here, so that no later call is
    /// refused for want of it. Refused only for want of memory, and then the volume is handed back.
    pub fn fresh(
        alloc: Global,
        volume: V,
        name: &Name,
        file: &Name,
        pages: u32,
        scripts: Scripts,
    ) -> Result<Engine<V>, OpenRefused<V>>
        requires out { (n : List ℕ) → finset.contains (V.out volume) n ≡ false }
        requires few { pages ≤ 32768 }
        ensures opening { IfOk result (λ e. e.opening ≡ new_source name.now file.now (names_of (V.folder volume))) }
        ensures scripts { IfOk result (λ e. e.scripts ≡ scripts) }
        ensures disk { IfOk result (λ e. e.disk ≡ disk_of V.tells V.folder V.out V.failures V.file_failures volume) }
        ensures seats { IfOk result (λ e. e.seats ≡ replicate (length scripts) (record { current = master; said = 0; gone = false })) }
        ensures book { IfOk result (λ e. e.kept.events ≡ []) }
        ensures pages { IfOk result (λ e. counts e.shown ≡ pages ∷ []) }
        ensures order { IfOk result (λ e. (picks : List Pick) → due_order e picks ≡ order (steps scripts) picks) }
        ensures refused { IfErr result (λ r. r.volume ≡ volume) }
    {
        let Ok(
            Parts {
                pages,
                seats,
                ledger,
            },
        ) = make_parts(alloc, pages, &scripts)
        else {
            return Err(OpenRefused { volume });
        };
        Ok(Engine {
            opened: Snapshot::of(&volume),
            volume,
            pages,
            source: *name,
            file: *file,
            scripts,
            seats,
            ledger,
        })
    }
}

// The statement at a place of a session's script.
fn stmt_at(scripts: &Scripts, place: usize, said: u32) -> &Stmt
    requires there { place < length scripts.now }
    requires more { said < length (slice_index_or scripts.now place []) }
    ensures is { slice_get (slice_index_or scripts.now place []) said ≡ Some result.now }
    ensures sound { is_sound result.now ≡ true }
{
    let script = scripts.at(place);
    &script.as_slice()[said as usize]
}

impl<V: Volume> Engine<V> {
    // The answer to a session's next statement is carried out.
    fn answer(&mut self, place: usize, decision: Decision)
        ghost tables: { Tables }
        requires next { HasNext self.old place }
        requires course { IsDecision self.old.opening (seat_at self.old place).current self.old.shown (seen_by (state self.old)) (next_stmt self.old place) decision }
        requires tables { tables ≡ tables_after (next_stmt self.old place) (reply_of decision.answer) (committed (state self.old)) }
        ensures { Says self.old self.new place }
    {
        let seat = self.seats[place];
        let stmt = stmt_at(&self.scripts, place, seat.said);
        let current = current_after(seat.current, stmt, &decision.answer);
        let who = SessNo(place as u8 + 1);
        carry_out(
            &mut self.pages,
            &mut self.ledger,
            who,
            seat.said + 1,
            decision,
        );
        self.seats[place] = Seat {
            current,
            said: seat.said + 1,
            gone: false,
        };
    }

    // A session's next statement reads a table of a snapshot.
    fn see(&mut self, alloc: Global, place: usize, s: SnapNo, name: &Name)
        requires next { HasNext self.old place }
        requires course { IsSeeing self.old.opening (seat_at self.old place).current self.old.shown (next_stmt self.old place) s name.now }
        ensures { Says self.old self.new place }
    {
        let seat = self.seats[place];
        let who = SessNo(place as u8 + 1);
        let began = self.ledger.len() as u32;
        let stmt = stmt_at(&self.scripts, place, seat.said);
        let reply = select_in(alloc, &mut self.pages, &mut self.ledger, s, stmt, name);
        let _snaps = self.pages.cat();
        enter_reply(&mut self.ledger, who, seat.said + 1, began, reply);
        self.seats[place] = Seat {
            said: seat.said + 1,
            ..seat
        };
    }

    // A session's next statement makes a snapshot.
    fn cut(&mut self, alloc: Global, place: usize)
        requires next { HasNext self.old place }
        requires course { IsCut (next_stmt self.old place) }
        ensures { Says self.old self.new place }
    {
        let seat = self.seats[place];
        let who = SessNo(place as u8 + 1);
        if let Stmt::CreateSnap { snap, files, of } = stmt_at(&self.scripts, place, seat.said) {
            create_snapshot(
                alloc,
                &mut self.volume,
                &mut self.pages,
                &mut self.ledger,
                &self.source,
                &self.file,
                who,
                seat.said + 1,
                snap,
                files,
                of,
            );
        }
        self.seats[place] = Seat {
            said: seat.said + 1,
            ..seat
        };
    }

    // A session without a statement left leaves.
    fn leave(&mut self, place: usize)
        requires there { place < length self.old.scripts }
        requires here { (seat_at self.old place).gone ≡ false }
        requires all { (seat_at self.old place).said ≡ length (script_at self.old place) }
        ensures { Leaves self.old self.new place }
    {
        let said = self.seats[place].said;
        let who = SessNo(place as u8 + 1);
        self.ledger.enter(Event::Left { who });
        self.seats[place] = Seat {
            current: master(),
            said,
            gone: true,
        };
    }

    // A session's next statement.
    fn statement(&mut self, alloc: Global, place: usize)
        requires next { HasNext self.old place }
        ensures { Says self.old self.new place }
    {
        let seat = self.seats[place];
        let stmt = stmt_at(&self.scripts, place, seat.said);
        let _snaps = self.pages.cat();
        match choose(alloc, &self.pages, &self.source, &seat.current, stmt) {
            Course::Answers(decision) => self.answer(place, decision),
            Course::See(s, name) => self.see(alloc, place, s, &name),
            Course::Cut => self.cut(alloc, place),
        }
    }
}

impl<V: Volume> Engine<V> {
    // A session answers all statements that it has left; all below it have left.
    fn answer_all(&mut self, alloc: Global, place: usize)
        requires there { place < length self.old.scripts }
        requires before { (j : ℕ) → j < place → (seat_at self.old j).gone ≡ true }
        ensures goes { Goes self.old self.new }
        ensures all { (seat_at self.new place).said ≡ length (script_at self.new place) }
        ensures others { AreOthersSame self.old self.new place }
        ensures rounds { Rounds self.old self.new }
        ensures order { due_order self.new [] ≡ due_order self.old [] }
    {
        let said = self.seats[place].said;
        let all = self.scripts.at(place).len() as u32;
        for _ in said..all {
            self.statement(alloc, place);
        }
    }

    // A session that has answered all its statements leaves, unless it has left; all below it have left.
    fn leave_last(&mut self, place: usize)
        requires there { place < length self.old.scripts }
        requires before { (j : ℕ) → j < place → (seat_at self.old j).gone ≡ true }
        requires all { (seat_at self.old place).said ≡ length (script_at self.old place) }
        ensures goes { Goes self.old self.new }
        ensures gone { (seat_at self.new place).gone ≡ true }
        ensures others { AreOthersSame self.old self.new place }
        ensures rounds { Rounds self.old self.new }
        ensures order { due_order self.new [] ≡ due_order self.old [] }
    {
        if !self.seats[place].gone {
            self.leave(place);
        }
    }

    // A session answers all statements that it has left, and leaves; all below it have left.
    fn end_session(&mut self, alloc: Global, place: usize)
        requires there { place < length self.old.scripts }
        requires before { (j : ℕ) → j < place → (seat_at self.old j).gone ≡ true }
        ensures goes { Goes self.old self.new }
        ensures gone { (seat_at self.new place).gone ≡ true }
        ensures others { AreOthersSame self.old self.new place }
        ensures rounds { Rounds self.old self.new }
        ensures order { due_order self.new [] ≡ due_order self.old [] }
    {
        self.answer_all(alloc, place);
        self.leave_last(place);
    }

    // Whether all sessions have left.
    fn have_left(&self) -> bool
        ensures { IsTrue result ↔ HaveLeft self.now }
    {
        let _scripts = self.scripts.len();
        self.seats.iter().all(|seat| seat.gone)
    }

    // A session's next step.
    fn session_step(&mut self, alloc: Global, place: usize) -> Moved
        requires there { place < length self.old.scripts }
        ensures ended { result ≡ Ended ↔ ((seat_at self.old place).gone ≡ true) }
        ensures still { result ≡ Ended → self.new ≡ self.old }
        ensures went { result ≡ Went → Moves self.old self.new place }
    {
        let seat = self.seats[place];
        if seat.gone {
            return Moved::Ended;
        }
        if (seat.said as usize) < self.scripts.at(place).len() {
            self.statement(alloc, place);
        } else {
            self.leave(place);
        }
        Moved::Went
    }

    /// The one next step of a session, numbered from 1: its next statement, or its leaving where it has none left. Ended
    /// exactly where the session has left; then nothing changes. Number 0 stands for a flusher of pages, which has
    /// nothing to do yet: it changes nothing, and has ended exactly where all sessions have left.
    pub fn step(&mut self, alloc: Global, who: u8) -> Moved
        requires { who ≤ length self.old.scripts }
        ensures goes { Goes self.old self.new }
        ensures takes { Takes self.old self.new who }
        ensures ended { 1 ≤ who → (result ≡ Ended ↔ ((seat_at self.old (who - 1)).gone ≡ true)) }
        ensures done { who ≡ 0 → (result ≡ Ended ↔ HaveLeft self.old) }
    {
        if who > 0 {
            return self.session_step(alloc, who as usize - 1);
        }
        if self.have_left() {
            Moved::Ended
        } else {
            Moved::Went
        }
    }

    /// Plays a schedule: each entry is one step of its session, however far it is meant to go, since a step is a whole
    /// statement or the leaving; an entry of a session that has left, or of number 0, changes nothing.
    pub fn run(&mut self, alloc: Global, picks: &[Pick])
        requires { All (λ (pick : Pick). pick.who ≤ length self.old.scripts) picks.now }
        ensures goes { Goes self.old self.new }
        ensures plays { Plays picks.now self.old self.new }
        ensures order { due_order self.new [] ≡ due_order self.old picks.now }
    {
        for pick in picks {
            let _moved = self.step(alloc, pick.who);
        }
    }

    /// The lowest session that hasn't left takes its next step, again and again, until all have left.
    pub fn finish(&mut self, alloc: Global)
        ensures goes { Goes self.old self.new }
        ensures rounds { Rounds self.old self.new }
        ensures left { HaveLeft self.new }
        ensures order { closers self.new.kept.events ≡ due_order self.old [] }
        ensures complete { Complete self.new.scripts self.new.kept.events }
    {
        for place in 0..self.scripts.len() {
            self.end_session(alloc, place);
        }
        let _book = self.book();
    }

    /// Ends the run: each sparse file is put back, in the order of the snapshots, also where one before it failed. Every
    /// name keeps its place. `Fault` names the first file that the volume failed to put back; all before it, and at
    /// `Done` all files, lie there with their bytes. Takes no memory.
    pub fn close(self) -> Closed<V>
        ensures book { result.book ≡ self.kept.events }
        ensures legal { IsTrue self.disk.told → Legal self.opening self.scripts result.book }
        ensures out { (n : List ℕ) → finset.contains (V.out result.volume) n ≡ false }
        ensures told { V.tells result.volume ≡ self.disk.told }
        ensures failures { self.disk.failures ≤ V.failures result.volume }
        ensures file_failures { self.disk.file_failures ≤ V.file_failures result.volume }
        ensures fault { IsFault result.end → Rose self.disk.failures (V.failures result.volume) }
        ensures blame { list_any is_turn result.book ≡ true → Rose self.disk.file_failures (V.file_failures result.volume) }
        ensures ends { Ends self.shown (count self.shown) (disk_of V.tells V.folder V.out V.failures V.file_failures result.volume) result.end }
        ensures lies { StillLies self.disk.told self.disk.folder (V.folder result.volume) }
        ensures folder { (name : List ℕ) → IsTrue self.disk.told → finite.contains_key (V.folder result.volume) name ≡ finite.contains_key self.disk.folder name }
    {
        let Engine {
            mut volume,
            pages,
            ledger,
            ..
        } = self;
        let end = put_back(&mut volume, pages);
        Closed {
            volume,
            book: ledger.into_book(),
            end,
        }
    }
}

/// What a run leaves: its volume, its history, and how its files were put back.
#[derive(Drop)]
pub struct Closed<V: Volume> {
    pub volume: V,
    pub book: Book,
    pub end: CloseEnd,
}
