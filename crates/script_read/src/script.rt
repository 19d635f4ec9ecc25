//! Reading a script whole.

ghost use Rattle.std.specs.Prelude.{All, ◌≡◌, ◌≤◌, ◌<◌, ◌+◌, ◌∷◌, [], List, ℕ, Bool, true, false, length, sum_by, IfOk, IfErr, Option, MatchOption, IsTrue, ◌↔◌};
ghost use Rattle.plain_model.specs.declared.pick.Pick.{Pick};
ghost use Rattle.script_read.specs.Classes.{is_schedule};
ghost use Rattle.script_read.specs.Faults.{Scheduled, InFront, fault_of};
ghost use Rattle.script_read.specs.Left.{left};
ghost use Rattle.script_read.specs.Refusal.{IsRefusal};
ghost use Rattle.script_read.specs.Script.{IsScript};
ghost use Rattle.script_read.specs.Steps.{is_front, is_front_over, is_behind, place_at, SkipsFront, IsLast, BeginsSession, RefusesLater, ReadsSessions, ReadsLast};

use crate::class::{is_session, is_skipped, is_text};
use crate::fault::{front_fault, inner_fault};
use crate::reader::{Reader, text_of};
use crate::schedule::read_schedule;
use crate::session::read_session;
use crate::{ScriptRefusal, Why};
use plain_model::{PickList, Scripts};
use std::alloc::Global;

/// What a script says: each session's statements, and the picks of its schedule.
#[derive(Debug, Drop)]
pub struct Work2 {
    pub scripts: Scripts,
    pub picks: PickList,
}

fn is_front(line: &[u8]) -> bool
    ensures { result ≡ is_front line.now }
{
    is_text(line) && is_skipped(line)
}

// Goes behind the lines before the first session.
fn skip_front(reader: &mut Reader)
    ensures { SkipsFront reader.old.line (left reader.old) reader.new.line (left reader.new) }
{
    while let Some(line) = reader.peek() {
        if !is_front(line) {
            return;
        }
        reader.advance();
    }
}

// Why a line can't stand behind so many sessions.
fn fault_behind(sessions: usize, line: &[u8]) -> Option<Why>
    requires { sessions ≤ 64 }
    ensures { result ≡ fault_of (place_at sessions) line.now }
{
    if sessions == 0 {
        front_fault(line)
    } else {
        inner_fault(sessions, line)
    }
}

// Goes behind the line that begins the next session, if it comes next.
fn begin_session(reader: &mut Reader, sessions: usize) -> Result<bool, ScriptRefusal>
    requires few { sessions ≤ 64 }
    requires behind { is_behind sessions (left reader.old) ≡ true }
    ensures ok { IfOk result (λ began. BeginsSession began sessions reader.old.line (left reader.old) reader.new.line (left reader.new)) }
    ensures refused { IfErr result (λ e. (said : ℕ) → RefusesLater (place_at sessions) said reader.old.line (left reader.old) e) }
{
    let Some(line) = reader.peek() else {
        return Ok(false);
    };
    if let Some(why) = fault_behind(sessions, line) {
        return Err(reader.refused(why));
    }
    if !is_session(line) {
        return Ok(false);
    }
    reader.advance();
    Ok(true)
}

// All sessions.
fn read_sessions(alloc: Global, reader: &mut Reader) -> Result<Scripts, ScriptRefusal>
    requires { is_front_over (left reader.old) ≡ true }
    ensures ok { IfOk result (λ scripts. ReadsSessions scripts reader.old.line (left reader.old) reader.new.line (left reader.new)) }
    ensures last { IfOk result (λ scripts. IsLast (length scripts) (left reader.new)) }
    ensures refused { IfErr result (RefusesLater InFront 0 reader.old.line (left reader.old)) }
{
    let mut scripts = Scripts::new(alloc);
    let mut said = 0;
    while begin_session(reader, scripts.len())? {
        let stmts = read_session(alloc, reader, said)?;
        said += stmts.len();
        scripts.push(stmts)?;
    }
    Ok(scripts)
}

// The picks of the schedule, if it is there.
fn read_last(alloc: Global, reader: &mut Reader, sessions: usize) -> Result<PickList, ScriptRefusal>
    requires few { sessions ≤ 64 }
    requires last { IsLast sessions (left reader.old) }
    ensures ok { IfOk result (ReadsLast sessions reader.old.line (left reader.old)) }
    ensures refused { IfErr result (λ e. (said : ℕ) → RefusesLater (place_at sessions) said reader.old.line (left reader.old) e) }
{
    let Some(_line) = reader.peek() else {
        return Ok(PickList::new(alloc));
    };
    reader.advance();
    read_schedule(alloc, reader, sessions)
}

/// Reads a script. Each pick is of one of its sessions, or the flusher's. `Refused` comes exactly where the bytes are no
/// script, with the first line that is refused.
pub fn read_script(alloc: Global, bytes: &[u8]) -> Result<Work2, ScriptRefusal>
    requires { length bytes.now < 4294967295 }
    ensures ok { IfOk result (λ work. IsScript bytes.now work.scripts work.picks) }
    ensures players { IfOk result (λ work. All (λ (pick : Pick). pick.who ≤ length work.scripts) work.picks) }
    ensures err { IfErr result (IsRefusal bytes.now) }
{
    let text = text_of(alloc, bytes)?;
    let mut reader = Reader::new(text.as_slice());
    skip_front(&mut reader);
    let scripts = read_sessions(alloc, &mut reader)?;
    let picks = read_last(alloc, &mut reader, scripts.len())?;
    Ok(Work2 { scripts, picks })
}
