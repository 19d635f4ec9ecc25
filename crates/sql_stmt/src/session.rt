//! Statements on the session itself: USE, transactions, SET.

ghost use Rattle.std.specs.Prelude.{◌≡◌, true};
ghost use Rattle.sql_lex.specs.Ahead.{first_of};
ghost use Rattle.sql_form.specs.Form.{Form, Value, One, Key};
ghost use Rattle.sql_form.specs.Read.{read};
ghost use Rattle.sql_form.specs.Rules.{strict};
ghost use Rattle.sql_stmt.specs.Answers.{Gives};
ghost use Rattle.sql_stmt.specs.Saying.{SaysNothing};
ghost use Rattle.sql_stmt.specs.Stmts.{SaysUse, SaysBegin, SaysCommit, SaysRollback, SaysTimeout, SaysLevel, SaysIsolation, SaysSet};
ghost use Rattle.sql_stmt.specs.SessionForms.{use_database, transaction, begin_transaction, work, commit, rollback, timeout, read_committed, level, isolation, set_session};

use crate::take::{is_key, is_word, key, name, nought, word};
use plain_model::{Level, Stmt};
use sql_lex::{ContextWord, Keyword, ParseRefusal, Tokens};

// USE name
pub(crate) fn use_database(tokens: &mut Tokens<'_>) -> Result<Stmt, ParseRefusal>
    ensures { Gives SaysUse result (read strict use_database tokens.old) tokens.new }
{
    key(tokens, Keyword::Use)?;
    let name = name(tokens)?;
    Ok(Stmt::UseDb(name))
}

// TRAN | TRANSACTION
fn transaction(tokens: &mut Tokens<'_>) -> Result<(), ParseRefusal>
    ensures { Gives SaysNothing result (read strict transaction tokens.old) tokens.new }
{
    if is_key(tokens, Keyword::Tran) {
        tokens.advance();
        return Ok(());
    }
    key(tokens, Keyword::Transaction)?;
    Ok(())
}

// Takes TRAN, TRANSACTION or WORK where it stands.
fn work(tokens: &mut Tokens<'_>) -> Result<(), ParseRefusal>
    ensures { Gives SaysNothing result (read strict work tokens.old) tokens.new }
{
    if is_key(tokens, Keyword::Tran) || is_key(tokens, Keyword::Transaction) {
        transaction(tokens)?;
        return Ok(());
    }
    if is_word(tokens, ContextWord::Work) {
        tokens.advance();
    }
    Ok(())
}

// BEGIN TRAN | BEGIN TRANSACTION
pub(crate) fn begin_transaction(tokens: &mut Tokens<'_>) -> Result<Stmt, ParseRefusal>
    ensures { Gives SaysBegin result (read strict begin_transaction tokens.old) tokens.new }
{
    key(tokens, Keyword::Begin)?;
    transaction(tokens)?;
    Ok(Stmt::BeginTran)
}

// COMMIT [TRAN | TRANSACTION | WORK]
pub(crate) fn commit(tokens: &mut Tokens<'_>) -> Result<Stmt, ParseRefusal>
    ensures { Gives SaysCommit result (read strict commit tokens.old) tokens.new }
{
    key(tokens, Keyword::Commit)?;
    work(tokens)?;
    Ok(Stmt::Commit)
}

// ROLLBACK [TRAN | TRANSACTION | WORK]
pub(crate) fn rollback(tokens: &mut Tokens<'_>) -> Result<Stmt, ParseRefusal>
    ensures { Gives SaysRollback result (read strict rollback tokens.old) tokens.new }
{
    key(tokens, Keyword::Rollback)?;
    work(tokens)?;
    Ok(Stmt::Rollback)
}

// LOCK_TIMEOUT 0
fn timeout(tokens: &mut Tokens<'_>) -> Result<Stmt, ParseRefusal>
    ensures { Gives SaysTimeout result (read strict timeout tokens.old) tokens.new }
{
    word(tokens, ContextWord::LockTimeout)?;
    nought(tokens)?;
    Ok(Stmt::LockTimeoutZero)
}

// READ COMMITTED
fn read_committed(tokens: &mut Tokens<'_>) -> Result<(), ParseRefusal>
    ensures { Gives SaysNothing result (read strict read_committed tokens.old) tokens.new }
{
    word(tokens, ContextWord::Read)?;
    word(tokens, ContextWord::Committed)?;
    Ok(())
}

// READ COMMITTED | SERIALIZABLE
fn level(tokens: &mut Tokens<'_>) -> Result<Level, ParseRefusal>
    ensures { Gives SaysLevel result (read strict level tokens.old) tokens.new }
{
    if is_word(tokens, ContextWord::Read) {
        read_committed(tokens)?;
        return Ok(Level::Committed);
    }
    word(tokens, ContextWord::Serializable)?;
    Ok(Level::Serial)
}

// TRANSACTION ISOLATION LEVEL READ COMMITTED | TRANSACTION ISOLATION LEVEL SERIALIZABLE
fn isolation(tokens: &mut Tokens<'_>) -> Result<Stmt, ParseRefusal>
    ensures { Gives SaysIsolation result (read strict isolation tokens.old) tokens.new }
{
    key(tokens, Keyword::Transaction)?;
    word(tokens, ContextWord::Isolation)?;
    word(tokens, ContextWord::Level)?;
    let level = level(tokens)?;
    Ok(Stmt::SetLevel(level))
}

// SET LOCK_TIMEOUT 0 | SET TRANSACTION ISOLATION LEVEL ..
pub(crate) fn set_session(tokens: &mut Tokens<'_>) -> Result<Stmt, ParseRefusal>
    ensures { Gives SaysSet result (read strict set_session tokens.old) tokens.new }
{
    key(tokens, Keyword::Set)?;
    if is_word(tokens, ContextWord::LockTimeout) {
        let stmt = timeout(tokens)?;
        return Ok(stmt);
    }
    let stmt = isolation(tokens)?;
    Ok(stmt)
}
