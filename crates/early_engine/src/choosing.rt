//! Which course a statement takes, by its kind and by its session's current database.

ghost use Rattle.std.specs.Prelude.{◌≡◌, ◌<◌, ℕ, List, [], true, MatchResult, if◌then◌else◌};
ghost use Rattle.page_base.specs.declared.numbers.PageId.{PageId};
ghost use Rattle.page_fmt.specs.Content.{IsPage};
ghost use Rattle.plain_model.specs.declared.stmt.Stmt.TheVariants.{UseDb, CreateTable};
ghost use Rattle.plain_model.specs.Journal.{Opening};
ghost use Rattle.plain_model.specs.Sound.{is_sound, are_columns};
ghost use Rattle.plain_model.specs.Statements.{table_named};
ghost use Rattle.early_pages.specs.Shown.{img, catalog};
ghost use Rattle.early_pages.specs.Slots.{slots_of};
ghost use Rattle.table_pages.specs.Layout.{IsPacked};
ghost use Rattle.table_pages.specs.Carried.{data_pages};
ghost use Rattle.plain_model.specs.declared.reply.Reply.TheVariants.{Msg};
ghost use Rattle.plain_model.specs.Messages.{plain};
ghost use Rattle.early_engine.specs.declared.answer.Answer.TheVariants.{AtOnce};
ghost use Rattle.early_engine.specs.Databases.{Means, IsPlaced, is_lost};
ghost use Rattle.early_engine.specs.Ready.{Seen};
ghost use Rattle.early_engine.specs.Changing.{is_change};
ghost use Rattle.early_engine.specs.Deciding.{Setting, IsDecision, Decides, IsCourse};
ghost use Rattle.early_engine.specs.Seeing.{IsSelect};
ghost use Rattle.early_engine.specs.declared.database.Database.TheVariants.{Source};

use crate::answer::Answer;
use crate::course::Course;
use crate::database::{Database, find_database, is_home, is_lost, is_there};
use crate::deciding::{change_in_source, create_in_source, select_in_source};
use crate::decision::{Decision, only};
use crate::refusal::{refused, refused_at};
use early_pages::SnapPages;
use page_base::{Columns, Name, NoMemory};
use page_dev::PageFile;
use plain_model::{Message, Reply, Stmt};
use std::alloc::Global;

// The decision, or NO_MEMORY for want of memory.
fn or_no_memory(alloc: Global, decision: Result<Decision, NoMemory>) -> Decision
    ensures { MatchResult decision (λ d. result ≡ d) (λ _. result ≡ record { answer = AtOnce (Msg (plain Message.NO_MEMORY)); edits = [] }) }
{
    match decision {
        Ok(decision) => decision,
        Err(_) => only(alloc, Answer::AtOnce(refused(Message::NO_MEMORY))),
    }
}

// A refusal at once.
fn at_once(alloc: Global, number: u32) -> Decision
    ensures { result ≡ record { answer = AtOnce (Msg (plain number)); edits = [] } }
{
    only(alloc, Answer::AtOnce(refused(number)))
}

// A statement that changes tables, where the current database isn't the source.
fn refused_outside<P: PageFile>(alloc: Global, pages: &SnapPages<P>, db: Database) -> Decision
    requires { IsPlaced (catalog pages.now) db }
    ensures { result ≡ record { answer = AtOnce (Msg (if is_lost (catalog pages.now) db then plain Message.SUSPECT else plain Message.READ_ONLY)); edits = [] } }
{
    if is_lost(pages, db) {
        at_once(alloc, Message::SUSPECT)
    } else {
        at_once(alloc, Message::READ_ONLY)
    }
}

// CREATE TABLE
fn create<P: PageFile>(
    alloc: Global,
    pages: &SnapPages<P>,
    db: Database,
    name: &Name,
    cols: &Columns,
) -> Decision
    requires few { data_pages pages.now < 4294967295 }
    requires pages { (p : PageId) → IsPage (img pages.now p) }
    requires packed { IsPacked (data_pages pages.now) (slots_of (img pages.now)) }
    requires placed { IsPlaced (catalog pages.now) db }
    requires sound { are_columns cols.now ≡ true }
    ensures { Decides pages.now db (CreateTable name.now cols.now) result }
{
    if !is_home(db) {
        return refused_outside(alloc, pages, db);
    }
    if cols.is_empty() {
        return at_once(alloc, Message::BAD_DEFINITION);
    }
    or_no_memory(alloc, create_in_source(alloc, pages, name, cols))
}

// INSERT, UPDATE or DELETE
fn change<P: PageFile>(
    alloc: Global,
    pages: &SnapPages<P>,
    db: Database,
    stmt: &Stmt,
    name: &Name,
) -> Decision
    requires few { data_pages pages.now < 4294967295 }
    requires pages { (p : PageId) → IsPage (img pages.now p) }
    requires packed { IsPacked (data_pages pages.now) (slots_of (img pages.now)) }
    requires placed { IsPlaced (catalog pages.now) db }
    requires change { is_change stmt.now ≡ true }
    requires named { table_named stmt.now ≡ name.now }
    requires sound { is_sound stmt.now ≡ true }
    ensures { Decides pages.now db stmt.now result }
{
    if !is_home(db) {
        return refused_outside(alloc, pages, db);
    }
    or_no_memory(alloc, change_in_source(alloc, pages, stmt, name))
}

// USE
fn enter<P: PageFile>(alloc: Global, pages: &SnapPages<P>, source: &Name, name: &Name) -> Decision
    ensures { (opening : Opening) (current : List ℕ) (seen : Seen) → Setting opening opening.source pages.now seen → opening.source ≡ source.now →
        IsDecision opening current pages.now seen (UseDb name.now) result }
{
    let db = find_database(pages, source, name);
    if !is_there(db) {
        return at_once(alloc, Message::NO_DATABASE);
    }
    if is_lost(pages, db) {
        return at_once(alloc, Message::SUSPECT);
    }
    only(alloc, Answer::AtOnce(Reply::Ok))
}

// SELECT
fn select<P: PageFile>(
    alloc: Global,
    pages: &SnapPages<P>,
    db: Database,
    stmt: &Stmt,
    name: &Name,
) -> Course
    requires few { data_pages pages.now < 4294967295 }
    requires pages { (p : PageId) → IsPage (img pages.now p) }
    requires packed { IsPacked (data_pages pages.now) (slots_of (img pages.now)) }
    requires placed { IsPlaced (catalog pages.now) db }
    requires select { IsSelect stmt.now name.now }
    ensures { (opening : Opening) (current : List ℕ) (seen : Seen) → Setting opening opening.source pages.now seen →
        Means opening.source (catalog pages.now) current db → IsCourse opening current pages.now seen stmt.now result }
{
    if is_lost(pages, db) {
        return Course::Answers(at_once(alloc, Message::SUSPECT));
    }
    match db {
        Database::Source => Course::Answers(or_no_memory(
            alloc,
            select_in_source(alloc, pages, stmt, name),
        )),
        Database::Snap(s) => Course::See(s, *name),
        Database::Master => Course::Answers(at_once(alloc, Message::NO_TABLE)),
        Database::Absent => Course::Answers(at_once(alloc, Message::NO_TABLE)),
    }
}

/// The course that a statement of a session takes, by its current database.
pub(crate) fn choose<P: PageFile>(
    alloc: Global,
    pages: &SnapPages<P>,
    source: &Name,
    current: &Name,
    stmt: &Stmt,
) -> Course
    requires few { data_pages pages.now < 4294967295 }
    requires pages { (p : PageId) → IsPage (img pages.now p) }
    requires packed { IsPacked (data_pages pages.now) (slots_of (img pages.now)) }
    requires sound { is_sound stmt.now ≡ true }
    ensures { (opening : Opening) (seen : Seen) → Setting opening opening.source pages.now seen → opening.source ≡ source.now →
        IsCourse opening current.now pages.now seen stmt.now result }
{
    let db = find_database(pages, source, current);
    match stmt {
        Stmt::UseDb(name) => Course::Answers(enter(alloc, pages, source, name)),
        Stmt::CreateTable(name, cols) => Course::Answers(create(alloc, pages, db, name, cols)),
        Stmt::Insert(into) => Course::Answers(change(alloc, pages, db, stmt, &into.table)),
        Stmt::Update(of) => Course::Answers(change(alloc, pages, db, stmt, &of.table)),
        Stmt::Delete(from) => Course::Answers(change(alloc, pages, db, stmt, &from.table)),
        Stmt::Select(from) => select(alloc, pages, db, stmt, &from.table),
        Stmt::CreateSnap { .. } => Course::Cut,
        Stmt::Broken { at } => Course::Answers(only(
            alloc,
            Answer::AtOnce(refused_at(Message::SYNTAX, u64::from(*at))),
        )),
        _ => Course::Answers(at_once(alloc, Message::NOT_BUILT)),
    }
}
