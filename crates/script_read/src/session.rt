//! Reading the batches of a session.

ghost use Rattle.std.specs.Prelude.{◌≡◌, ◌≤◌, ◌<◌, ◌+◌, ◌∷◌, [], List, ℕ, Bool, true, false, length, IfOk, IfErr, Option, MatchOption};
ghost use Rattle.plain_model.specs.declared.stmt.Stmt.{Stmt};
ghost use Rattle.script_read.specs.declared.refusal.ScriptRefusal.TheVariants.{Memory};
ghost use Rattle.sql_read.specs.StmtPlace.{IsStmtPlace};
ghost use Rattle.script_read.specs.Classes.{is_go};
ghost use Rattle.script_read.specs.Left.{left};
ghost use Rattle.script_read.specs.Limit.{SaysText, Begins, ends_before};
ghost use Rattle.script_read.specs.Faults.{Within};
ghost use Rattle.script_read.specs.Refusal.{Refuses};
ghost use Rattle.script_read.specs.Steps.{PastIn, refusal_by, PassesGo, ReadsBatch, ReadsSession};

use crate::batch::Batch;
use crate::class::is_go;
use crate::reader::Reader;
use crate::{ScriptRefusal, Why};
use plain_model::{Stmt, StmtList};
use sql_read::{ParseRefusal, parse, statement_place};
use std::alloc::Global;

// No script has more statements.
const MOST_STATEMENTS: usize = 20_000;

// The one statement that stands for a batch that isn't in the grammar.
fn broken(alloc: Global, at: u32) -> Result<StmtList, ScriptRefusal>
    ensures ok { IfOk result (λ stmts. stmts ≡ Stmt.Broken at ∷ []) }
    ensures memory { IfErr result (λ e. e ≡ Memory) }
{
    let mut stmts = StmtList::new(alloc);
    stmts.push(Stmt::Broken { at })?;
    Ok(stmts)
}

// The statements of a batch, or the one that stands for it.
fn statements(alloc: Global, batch: &[u8]) -> Result<StmtList, ScriptRefusal>
    requires { length batch.now < 4294967295 }
    ensures ok { IfOk result (SaysText batch.now) }
    ensures memory { IfErr result (λ e. e ≡ Memory) }
{
    match parse(alloc, batch) {
        Ok(stmts) => Ok(stmts),
        Err(ParseRefusal::Syntax { at }) => broken(alloc, at),
        Err(ParseRefusal::Memory) => Err(ScriptRefusal::Memory),
    }
}

// How many lines end before a place.
fn ends_before(at: usize, bytes: &[u8]) -> usize
    ensures value { result ≡ ends_before at bytes.now }
    ensures within { result ≤ length bytes.now }
{
    bytes.iter().take(at).filter(|byte| **byte == b'\n').count()
}

// The line on which a statement that a batch has begins, by its number from 0.
fn line_of(alloc: Global, batch: &Batch, number: usize) -> Result<u32, ScriptRefusal>
    requires there { (at : ℕ) × IsStmtPlace batch.now.bytes.now number at }
    requires counted { batch.now.line + length batch.now.bytes.now ≤ 4294967295 }
    requires begun { 1 ≤ batch.now.line }
    ensures ok { IfOk result (Begins batch.now.bytes.now batch.now.line number) }
    ensures memory { IfErr result (λ e. e ≡ Memory) }
{
    match statement_place(alloc, batch.bytes, number) {
        Ok(at) => Ok(batch.line + ends_before(at as usize, batch.bytes) as u32),
        Err(ParseRefusal::Memory) => Err(ScriptRefusal::Memory),
        Err(ParseRefusal::Syntax { .. }) => unreachable!(),
    }
}

// The line on which the statement past the limit begins, if a batch of so many has it.
fn past_limit(
    alloc: Global,
    batch: &Batch,
    said: usize,
    count: usize,
) -> Result<Option<u32>, ScriptRefusal>
    requires counted { batch.now.line + length batch.now.bytes.now ≤ 4294967295 }
    requires begun { 1 ≤ batch.now.line }
    requires few { said ≤ 20000 }
    requires says { (stmts : List Stmt) × SaysText batch.now.bytes.now stmts × (length stmts ≡ count) }
    ensures ok { IfOk result (λ past. PastIn past batch.now.bytes.now batch.now.line said count) }
    ensures memory { IfErr result (λ e. e ≡ Memory) }
{
    let room = MOST_STATEMENTS - said;
    if count <= room {
        return Ok(None);
    }
    Ok(Some(line_of(alloc, batch, room)?))
}

// The refusal of a batch by its first bad line and the line of the statement past the limit.
fn refusal_by(bad: Option<u32>, past: Option<u32>) -> Option<ScriptRefusal>
    ensures { result ≡ refusal_by bad past }
{
    let (line, why) = match (bad, past) {
        (None, None) => return None,
        (None, Some(past)) => (past, Why::Many),
        (Some(bad), None) => (bad, Why::Byte),
        (Some(bad), Some(past)) => {
            if bad <= past {
                (bad, Why::Byte)
            } else {
                (past, Why::Many)
            }
        }
    };
    Some(ScriptRefusal::Refused { line, why })
}

// The statements of the next batch, behind so many others.
fn read_batch(alloc: Global, reader: &mut Reader, said: usize) -> Result<StmtList, ScriptRefusal>
    requires { said ≤ 20000 }
    ensures ok { IfOk result (λ stmts. ReadsBatch said stmts reader.old.line (left reader.old) reader.new.line (left reader.new)) }
    ensures refused { IfErr result (λ e. (n : ℕ) → Refuses (Within n) said reader.old.line (left reader.old) e) }
{
    let batch = reader.batch();
    let stmts = statements(alloc, batch.bytes)?;
    let past = past_limit(alloc, &batch, said, stmts.len())?;
    match refusal_by(batch.bad, past) {
        Some(refusal) => Err(refusal),
        None => Ok(stmts),
    }
}

// Goes behind a line that is GO, if it comes next.
fn pass_go(reader: &mut Reader) -> bool
    ensures { PassesGo result reader.old.line (left reader.old) reader.new.line (left reader.new) }
{
    match reader.peek() {
        Some(line) if is_go(line) => {
            reader.advance();
            true
        }
        _ => false,
    }
}

// The statements of a session, behind so many others.
pub(crate) fn read_session(
    alloc: Global,
    reader: &mut Reader,
    said: usize,
) -> Result<StmtList, ScriptRefusal>
    requires { said ≤ 20000 }
    ensures ok { IfOk result (λ stmts. ReadsSession said stmts reader.old.line (left reader.old) reader.new.line (left reader.new)) }
    ensures refused { IfErr result (λ e. (n : ℕ) → Refuses (Within n) said reader.old.line (left reader.old) e) }
{
    let mut stmts = read_batch(alloc, reader, said)?;
    while pass_go(reader) {
        let more = read_batch(alloc, reader, said + stmts.len())?;
        stmts.append(more)?;
    }
    Ok(stmts)
}
