//! A statement of any kind: its first word tells which.

ghost use Rattle.std.specs.Prelude.{◌≡◌, true};
ghost use Rattle.sql_lex.specs.Ahead.{first_of};
ghost use Rattle.sql_form.specs.Form.{Form, Value};
ghost use Rattle.sql_form.specs.Read.{read};
ghost use Rattle.sql_form.specs.Grammar.{first};
ghost use Rattle.sql_form.specs.Rules.{strict};
ghost use Rattle.sql_stmt.specs.Answers.{Gives};
ghost use Rattle.sql_stmt.specs.Stmts.{SaysCreate, SaysDrop, SaysStructure, SaysChange, SaysTurn, SaysStatement};
ghost use Rattle.sql_stmt.specs.Statements.{create, drop, structure, change, turn, statement};

use crate::database::{create_snap, drop_database, restore};
use crate::insert::insert;
use crate::select::select;
use crate::session::{begin_transaction, commit, rollback, set_session, use_database};
use crate::table::{create_table, drop_table};
use crate::take::{is_key, key};
use crate::update::{delete, update};
use plain_model::Stmt;
use sql_lex::{Keyword, ParseRefusal, Tokens};
use std::alloc::Global;

// CREATE TABLE .. | CREATE DATABASE ..
fn create(alloc: Global, tokens: &mut Tokens<'_>) -> Result<Stmt, ParseRefusal>
    ensures { Gives SaysCreate result (read strict create tokens.old) tokens.new }
{
    key(tokens, Keyword::Create)?;
    if is_key(tokens, Keyword::Table) {
        let stmt = create_table(alloc, tokens)?;
        return Ok(stmt);
    }
    let stmt = create_snap(alloc, tokens)?;
    Ok(stmt)
}

// DROP TABLE .. | DROP DATABASE ..
fn drop(tokens: &mut Tokens<'_>) -> Result<Stmt, ParseRefusal>
    ensures { Gives SaysDrop result (read strict drop tokens.old) tokens.new }
{
    key(tokens, Keyword::Drop)?;
    if is_key(tokens, Keyword::Table) {
        let stmt = drop_table(tokens)?;
        return Ok(stmt);
    }
    let stmt = drop_database(tokens)?;
    Ok(stmt)
}

// USE .. | CREATE .. | DROP ..
fn structure(alloc: Global, tokens: &mut Tokens<'_>) -> Result<Stmt, ParseRefusal>
    ensures { Gives SaysStructure result (read strict structure tokens.old) tokens.new }
{
    if is_key(tokens, Keyword::Use) {
        let stmt = use_database(tokens)?;
        return Ok(stmt);
    }
    if is_key(tokens, Keyword::Create) {
        let stmt = create(alloc, tokens)?;
        return Ok(stmt);
    }
    let stmt = drop(tokens)?;
    Ok(stmt)
}

// INSERT .. | UPDATE .. | DELETE ..
fn change(alloc: Global, tokens: &mut Tokens<'_>) -> Result<Stmt, ParseRefusal>
    ensures { Gives SaysChange result (read strict change tokens.old) tokens.new }
{
    if is_key(tokens, Keyword::Insert) {
        let stmt = insert(alloc, tokens)?;
        return Ok(Stmt::Insert(stmt));
    }
    if is_key(tokens, Keyword::Update) {
        let stmt = update(alloc, tokens)?;
        return Ok(Stmt::Update(stmt));
    }
    let stmt = delete(alloc, tokens)?;
    Ok(Stmt::Delete(stmt))
}

// BEGIN .. | COMMIT .. | ROLLBACK .. | SET .. | RESTORE ..
fn turn(tokens: &mut Tokens<'_>) -> Result<Stmt, ParseRefusal>
    ensures { Gives SaysTurn result (read strict turn tokens.old) tokens.new }
{
    if is_key(tokens, Keyword::Begin) {
        let stmt = begin_transaction(tokens)?;
        return Ok(stmt);
    }
    if is_key(tokens, Keyword::Commit) {
        let stmt = commit(tokens)?;
        return Ok(stmt);
    }
    if is_key(tokens, Keyword::Rollback) {
        let stmt = rollback(tokens)?;
        return Ok(stmt);
    }
    if is_key(tokens, Keyword::Set) {
        let stmt = set_session(tokens)?;
        return Ok(stmt);
    }
    let stmt = restore(tokens)?;
    Ok(stmt)
}

// Whether the token in front begins USE, CREATE or DROP.
fn is_structure(tokens: &Tokens<'_>) -> bool
    ensures { result ≡ first structure (first_of tokens.now).kind }
{
    is_key(tokens, Keyword::Use) || is_key(tokens, Keyword::Create) || is_key(tokens, Keyword::Drop)
}

// Whether it begins INSERT, UPDATE or DELETE.
fn is_change(tokens: &Tokens<'_>) -> bool
    ensures { result ≡ first change (first_of tokens.now).kind }
{
    is_key(tokens, Keyword::Insert)
        || is_key(tokens, Keyword::Update)
        || is_key(tokens, Keyword::Delete)
}

// Whether it begins BEGIN, COMMIT, ROLLBACK, SET or RESTORE.
fn is_turn(tokens: &Tokens<'_>) -> bool
    ensures { result ≡ first turn (first_of tokens.now).kind }
{
    is_key(tokens, Keyword::Begin)
        || is_key(tokens, Keyword::Commit)
        || is_key(tokens, Keyword::Rollback)
        || is_key(tokens, Keyword::Set)
        || is_key(tokens, Keyword::Restore)
}

/// Whether a statement begins with the token in front.
pub fn is_statement_ahead(tokens: &Tokens<'_>) -> bool
    ensures { result ≡ first statement (first_of tokens.now).kind }
{
    is_key(tokens, Keyword::Select) || is_structure(tokens) || is_change(tokens) || is_turn(tokens)
}

/// Reads the statement in front of tokens. `Syntax` is the place where none can go on; what the tokens are after a refusal isn't
/// said.
pub fn statement(alloc: Global, tokens: &mut Tokens<'_>) -> Result<Stmt, ParseRefusal>
    ensures { Gives SaysStatement result (read strict statement tokens.old) tokens.new }
{
    if is_key(tokens, Keyword::Select) {
        let stmt = select(alloc, tokens)?;
        return Ok(Stmt::Select(stmt));
    }
    if is_structure(tokens) {
        let stmt = structure(alloc, tokens)?;
        return Ok(stmt);
    }
    if is_change(tokens) {
        let stmt = change(alloc, tokens)?;
        return Ok(stmt);
    }
    let stmt = turn(tokens)?;
    Ok(stmt)
}
