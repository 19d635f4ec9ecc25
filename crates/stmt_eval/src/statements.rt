//! What a statement does to its table.

ghost use Rattle.std.specs.Prelude.{◌≡◌, ℕ, List, map, IfOk, [], Result, true};
ghost use Rattle.page_base.specs.declared.value.Value.{Value};
ghost use Rattle.plain_model.specs.declared.reply.Message.{Message};
ghost use Rattle.plain_model.specs.declared.stmt.Stmt.TheVariants.{Insert, Select, Update, Delete};
ghost use Rattle.plain_model.specs.Outcomes.{taken_from};
ghost use Rattle.plain_model.specs.Selecting.{selected_row, rows_reply};
ghost use Rattle.plain_model.specs.Totals.{summed_row, totals_row, totals_reply};
ghost use Rattle.plain_model.specs.Statements.{changes_of, selected, is_of_rows};
ghost use Rattle.plain_model.specs.Tables.{Table, IsTable, Put, Cut};
ghost use Rattle.stmt_eval.specs.Given.{Takes};
ghost use Rattle.stmt_eval.specs.Verdicts.{changes_in, IsEffect, IsVerdict};

use crate::changing::{Deleting, Updating};
use crate::inserting::inserted;
use crate::refusal::Stop;
use crate::rows::{at_place, taken};
use crate::selecting::{Selecting, shown_in_order, shown_row};
use crate::shape::shape_of;
use crate::shapes::target_names;
use crate::totals::{Summing, aggregates};
use crate::{Effect, Verdict};
use page_base::{Columns, NoMemory, Row, RowList};
use plain_model::{
    DeleteStmt, InsertStmt, Items, Message, Reply, SelectStmt, Stmt, SumList, UpdateStmt,
};
use std::alloc::Global;

// Nothing changes, and this is the reply.
fn answer(alloc: Global, reply: Reply) -> Effect
    ensures { result ≡ record { puts = []; cuts = []; reply = reply } }
{
    Effect {
        puts: RowList::new(alloc),
        cuts: RowList::new(alloc),
        reply,
    }
}

// The rows taken are put, or the first refusal is the reply.
fn puts(alloc: Global, taken: Result<RowList, Stop>) -> Result<Effect, NoMemory>
    ensures { IfOk result (λ effect. (name : List ℕ) (given : Result (List (List Value)) Message) → Takes taken given →
        changes_of (Put name) given ≡ (changes_in name effect, effect.reply)) }
{
    match taken {
        Ok(rows) => Ok(Effect {
            reply: Reply::Count(rows.len() as u64),
            puts: rows,
            cuts: RowList::new(alloc),
        }),
        Err(Stop::Refused(message)) => Ok(answer(alloc, Reply::Msg(message))),
        Err(Stop::Memory) => Err(NoMemory),
    }
}

// The keys taken are cut, or the first refusal is the reply.
fn cuts(alloc: Global, taken: Result<RowList, Stop>) -> Result<Effect, NoMemory>
    ensures { IfOk result (λ effect. (name : List ℕ) (given : Result (List (List Value)) Message) → Takes taken given →
        changes_of (Cut name) given ≡ (changes_in name effect, effect.reply)) }
{
    match taken {
        Ok(keys) => Ok(Effect {
            reply: Reply::Count(keys.len() as u64),
            puts: RowList::new(alloc),
            cuts: keys,
        }),
        Err(Stop::Refused(message)) => Ok(answer(alloc, Reply::Msg(message))),
        Err(Stop::Memory) => Err(NoMemory),
    }
}

// What an INSERT does to the table.
fn insert_effect(
    alloc: Global,
    stmt: &InsertStmt,
    cols: &Columns,
    rows: &RowList,
) -> Result<Effect, NoMemory>
    ensures { IfOk result (λ effect. (t : Table) → IsTable cols.now rows.now t → IsEffect (Insert stmt.now) t effect) }
{
    let names = target_names(alloc, &stmt.cols, cols)?;
    let taken = inserted(alloc, &names, cols, rows, &stmt.rows);
    puts(alloc, taken)
}

// What an UPDATE does to the table.
fn update_effect(
    alloc: Global,
    stmt: &UpdateStmt,
    cols: &Columns,
    rows: &RowList,
) -> Result<Effect, NoMemory>
    ensures { IfOk result (λ effect. (t : Table) → IsTable cols.now rows.now t → IsEffect (Update stmt.now) t effect) }
{
    let work = Updating {
        sets: &stmt.sets,
        filter: &stmt.filter,
        cols,
    };
    let taken = taken(alloc, &work, rows);
    puts(alloc, taken)
}

// What a DELETE does to the table.
fn delete_effect(
    alloc: Global,
    stmt: &DeleteStmt,
    cols: &Columns,
    rows: &RowList,
) -> Result<Effect, NoMemory>
    ensures { IfOk result (λ effect. (t : Table) → IsTable cols.now rows.now t → IsEffect (Delete stmt.now) t effect) }
{
    let work = Deleting {
        filter: &stmt.filter,
        cols,
    };
    let taken = taken(alloc, &work, rows);
    cuts(alloc, taken)
}

// The rows that a SELECT shows, or the first refusal.
fn rows_reply(
    alloc: Global,
    stmt: &SelectStmt,
    cols: &Columns,
    rows: &RowList,
) -> Result<Reply, NoMemory>
    ensures { IfOk result (λ reply. reply ≡ rows_reply cols.now stmt.now.order (taken_from 1 (map (selected_row stmt.now.items stmt.now.filter cols.now) rows.now))) }
{
    let work = Selecting {
        items: &stmt.items,
        filter: &stmt.filter,
        cols,
    };
    match taken(alloc, &work, rows) {
        Ok(list) => Ok(Reply::Rows(shown_in_order(alloc, list, cols, &stmt.order)?)),
        Err(Stop::Refused(message)) => Ok(Reply::Msg(message)),
        Err(Stop::Memory) => Err(NoMemory),
    }
}

// The row of aggregates, or OVERFLOW where one is outside its type.
fn totals_row(alloc: Global, values: Option<Row>) -> Result<Reply, NoMemory>
    ensures { IfOk result (λ reply. reply ≡ totals_row values) }
{
    let Some(values) = values else {
        return Ok(Reply::Msg(at_place(Message::OVERFLOW, 0)));
    };
    let mut rows = RowList::new(alloc);
    rows.push(shown_row(alloc, &values)?)?;
    Ok(Reply::Rows(rows))
}

// The aggregates of a SELECT, or the first refusal.
fn totals_reply(
    alloc: Global,
    stmt: &SelectStmt,
    sums: &SumList,
    cols: &Columns,
    rows: &RowList,
) -> Result<Reply, NoMemory>
    ensures { IfOk result (λ reply. reply ≡ totals_reply cols.now sums.now (taken_from 1 (map (summed_row sums.now stmt.now.filter cols.now) rows.now))) }
{
    let work = Summing {
        sums,
        filter: &stmt.filter,
        cols,
    };
    match taken(alloc, &work, rows) {
        Ok(list) => totals_row(alloc, aggregates(alloc, cols, list.as_slice(), sums)?),
        Err(Stop::Refused(message)) => Ok(Reply::Msg(message)),
        Err(Stop::Memory) => Err(NoMemory),
    }
}

// The answer of a SELECT.
fn selected(
    alloc: Global,
    stmt: &SelectStmt,
    cols: &Columns,
    rows: &RowList,
) -> Result<Reply, NoMemory>
    ensures { IfOk result (λ reply. (t : Table) → IsTable cols.now rows.now t → reply ≡ selected stmt.now.items stmt.now.filter stmt.now.order t) }
{
    match &stmt.items {
        Items::Sums(sums) => totals_reply(alloc, stmt, sums, cols, rows),
        _ => rows_reply(alloc, stmt, cols, rows),
    }
}

// What a SELECT answers; it changes nothing.
fn select_effect(
    alloc: Global,
    stmt: &SelectStmt,
    cols: &Columns,
    rows: &RowList,
) -> Result<Effect, NoMemory>
    ensures { IfOk result (λ effect. (t : Table) → IsTable cols.now rows.now t → IsEffect (Select stmt.now) t effect) }
{
    let reply = selected(alloc, stmt, cols, rows)?;
    Ok(answer(alloc, reply))
}

/// What a statement about rows does to the table of these columns and rows, which it suits, and its reply. A row that is
/// refused is the reply, and then nothing changes.
pub fn effect_of(
    alloc: Global,
    stmt: &Stmt,
    cols: &Columns,
    rows: &RowList,
) -> Result<Effect, NoMemory>
    requires { is_of_rows stmt.now ≡ true }
    ensures { IfOk result (λ effect. (t : Table) → IsTable cols.now rows.now t → IsEffect stmt.now t effect) }
{
    match stmt {
        Stmt::Insert(insert) => insert_effect(alloc, insert, cols, rows),
        Stmt::Select(select) => select_effect(alloc, select, cols, rows),
        Stmt::Update(update) => update_effect(alloc, update, cols, rows),
        Stmt::Delete(delete) => delete_effect(alloc, delete, cols, rows),
        _ => Ok(answer(alloc, Reply::Ok)),
    }
}

/// What comes of a statement about rows over the table of these columns and rows: the first refusal that its shape
/// gives, or its effect. Each row is worked on once.
pub fn verdict_of(
    alloc: Global,
    stmt: &Stmt,
    cols: &Columns,
    rows: &RowList,
) -> Result<Verdict, NoMemory>
    requires { is_of_rows stmt.now ≡ true }
    ensures { IfOk result (λ verdict. (t : Table) → IsTable cols.now rows.now t → IsVerdict stmt.now t verdict) }
{
    match shape_of(alloc, stmt, cols)? {
        Some(message) => Ok(Verdict::Refused(message)),
        None => Ok(Verdict::Does(effect_of(alloc, stmt, cols, rows)?)),
    }
}
