//! A statement's events: its locks, the turns of snapshots before its edits, and its reply.

ghost use Rattle.std.specs.Prelude.{◌≡◌, ◌+◌, ◌<◌, ◌≤◌, ◌++◌, ◌∷◌, [], length};
ghost use Rattle.page_base.specs.declared.numbers.PageId.{PageId};
ghost use Rattle.page_fmt.specs.Content.{IsPage};
ghost use Rattle.plain_model.specs.declared.event.Event.TheVariants.{Locked, Said};
ghost use Rattle.plain_model.specs.Tables.{Tables};
ghost use Rattle.early_pages.specs.Shown.{img};
ghost use Rattle.table_pages.specs.Carried.{data_pages, Carries};
ghost use Rattle.early_engine.specs.Entering.{entered};
ghost use Rattle.early_engine.specs.Pushing.{sound};
ghost use Rattle.early_engine.specs.Stepping.{lock_events, current_after, is_refusal};
ghost use Rattle.early_engine.specs.Ready.{reply_of};
ghost use Rattle.early_engine.specs.Safe.{AreTables};
ghost use Rattle.early_engine.specs.Doing.{Does};

use crate::Ledger;
use crate::answer::Answer;
use crate::decision::Decision;
use crate::editing::do_edits;
use early_pages::SnapPages;
use page_base::{Mode, Name, SessNo};
use page_dev::PageFile;
use plain_model::{Event, LockName, Reply, Stmt};

// Enters a lock.
fn enter_lock(ledger: &mut Ledger, who: SessNo, table: LockName, mode: Mode)
    requires { 0 < ledger.old.room }
    ensures { ledger.new ≡ entered ledger.old (Locked who table mode) }
{
    ledger.enter(Event::Locked { who, table, mode });
}

// Enters the locks of an answer.
fn enter_locks(ledger: &mut Ledger, who: SessNo, answer: &Answer)
    requires { 3 ≤ ledger.old.room }
    ensures events { ledger.new.events ≡ ledger.old.events ++ lock_events who.0 answer.now }
    ensures room { ledger.new.room + length (lock_events who.0 answer.now) ≡ ledger.old.room }
{
    match answer {
        Answer::AtOnce(_) => {}
        Answer::UnderAll(mode, _) => enter_lock(ledger, who, LockName::All, *mode),
        Answer::UnderTable(name, mode, _) => {
            enter_lock(ledger, who, LockName::All, Mode::S);
            enter_lock(ledger, who, LockName::Table(*name), *mode);
        }
    }
}

// The reply of an answer.
fn into_reply(answer: Answer) -> Reply
    ensures { result ≡ reply_of answer }
{
    match answer {
        Answer::AtOnce(reply) => reply,
        Answer::UnderAll(_, reply) => reply,
        Answer::UnderTable(_, _, reply) => reply,
    }
}

/// Enters a reply.
pub(crate) fn enter_reply(ledger: &mut Ledger, who: SessNo, number: u32, began: u32, reply: Reply)
    requires { 0 < ledger.old.room }
    ensures { ledger.new ≡ entered ledger.old (Said who number began reply) }
{
    ledger.enter(Event::Said {
        who,
        number,
        began,
        reply,
    });
}

/// Carries a decision out: its locks are entered, its edits are done behind their pushes, and its reply is entered.
/// Takes no memory.
pub(crate) fn carry_out<P: PageFile>(
    pages: &mut SnapPages<P>,
    ledger: &mut Ledger,
    who: SessNo,
    number: u32,
    decision: Decision,
)
    ghost tables: { Tables }
    requires plan { Carries pages.old decision.edits tables }
    requires spelled { (p : PageId) → IsPage (img pages.old p) }
    requires room { 3 + sound pages.old ≤ ledger.old.room }
    requires few { length ledger.old.events < 4294967296 }
    ensures does { Does who.0 number decision.answer ledger.old ledger.new pages.old pages.new }
    ensures tables { AreTables (data_pages pages.new) (img pages.new) tables }
    ensures still { decision.edits ≡ [] → pages.new ≡ pages.old }
{
    let began = ledger.len() as u32;
    let Decision { answer, edits } = decision;
    enter_locks(ledger, who, &answer);
    do_edits(pages, ledger, &edits);
    enter_reply(ledger, who, number, began, into_reply(answer));
}

// Whether a reply is a refusal.
fn is_refusal(reply: &Reply) -> bool
    ensures { result ≡ is_refusal reply.now }
{
    matches!(reply, Reply::Msg(_))
}

// The reply of an answer, for reading.
fn reply_of(answer: &Answer) -> &Reply
    ensures { result.now ≡ reply_of answer.now }
{
    match answer {
        Answer::AtOnce(reply) => reply,
        Answer::UnderAll(_, reply) => reply,
        Answer::UnderTable(_, _, reply) => reply,
    }
}

/// A session's current database after an answer to its statement.
pub(crate) fn current_after(current: Name, stmt: &Stmt, answer: &Answer) -> Name
    ensures { result ≡ current_after stmt.now (reply_of answer.now) current }
{
    if is_refusal(reply_of(answer)) {
        return current;
    }
    match stmt {
        Stmt::UseDb(name) => *name,
        _ => current,
    }
}
