//! The refusal that a statement's shape gives over its table.

ghost use Rattle.std.specs.Prelude.{◌≡◌, IfOk, Some, option_map};
ghost use Rattle.plain_model.specs.Messages.{plain};
ghost use Rattle.plain_model.specs.Shapes.{insert_fault};
ghost use Rattle.plain_model.specs.Statements.{shape_over};
ghost use Rattle.plain_model.specs.Tables.{Table};

use crate::shapes::{delete_fault, insert_fault, select_fault, target_names, update_fault};
use page_base::{Columns, NoMemory};
use plain_model::{Carried, InsertStmt, Message, Stmt};
use std::alloc::Global;

// A refusal by its number.
fn plain(number: u32) -> Message
    ensures { result ≡ plain number }
{
    Message {
        number,
        carried: Carried::Nothing,
    }
}

// A refusal by its number, if there is one.
fn refusal(number: Option<u32>) -> Option<Message>
    ensures { result ≡ option_map plain number }
{
    match number {
        Some(number) => Some(plain(number)),
        None => None,
    }
}

// What in an INSERT doesn't suit these columns.
fn fault_of_insert(
    alloc: Global,
    stmt: &InsertStmt,
    cols: &Columns,
) -> Result<Option<u32>, NoMemory>
    ensures { IfOk result (λ number. number ≡ insert_fault stmt.now cols.now) }
{
    let names = target_names(alloc, &stmt.cols, cols)?;
    Ok(insert_fault(alloc, stmt, &names, cols))
}

/// The first refusal that a statement's shape gives over a table of these columns, None where the statement suits it:
/// `TABLE_IS_THERE` for CREATE TABLE, `NO_COLUMN`, `KEY_UPDATE` and `TYPE_CLASH` for a statement about rows.
pub fn shape_of(alloc: Global, stmt: &Stmt, cols: &Columns) -> Result<Option<Message>, NoMemory>
    ensures { IfOk result (λ message. (t : Table) → t.cols ≡ cols.now → message ≡ shape_over stmt.now (Some t)) }
{
    match stmt {
        Stmt::CreateTable(_, _) => Ok(Some(plain(Message::TABLE_IS_THERE))),
        Stmt::Insert(insert) => Ok(refusal(fault_of_insert(alloc, insert, cols)?)),
        Stmt::Select(select) => Ok(refusal(select_fault(select, cols))),
        Stmt::Update(update) => Ok(refusal(update_fault(update, cols))),
        Stmt::Delete(delete) => Ok(refusal(delete_fault(delete, cols))),
        _ => Ok(None),
    }
}
