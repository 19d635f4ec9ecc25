//! Statements on databases: a snapshot is made, one is dropped, the source is reverted.

ghost use Rattle.std.specs.Prelude.{◌≡◌, true, refl};
ghost use Rattle.sql_lex.specs.Ahead.{first_of};
ghost use Rattle.sql_form.specs.Form.{Form, Value, Then};
ghost use Rattle.sql_form.specs.Grammar.{first};
ghost use Rattle.sql_form.specs.Read.{read};
ghost use Rattle.sql_form.specs.Rules.{strict};
ghost use Rattle.sql_stmt.specs.Answers.{Gives};
ghost use Rattle.sql_stmt.specs.Saying.{SaysFile, SaysLogical, SaysPath, SaysSource, SaysSnapshot};
ghost use Rattle.sql_stmt.specs.Stmts.{SaysCreateSnap, SaysDropDatabase, SaysRestore};
ghost use Rattle.sql_stmt.specs.DatabaseForms.{snap_file, path_part, logical_part, snapshot_of, create_snap, drop_database, snapshot_text, restore};

use crate::pieces::MOST_PARTS;
use crate::production::{Production, list};
use crate::take::{file_text, is_mark, key, mark, name, name_text, word};
use page_base::{FileName, Name};
use plain_model::{SnapFile, Stmt};
use sql_lex::{ContextWord, Keyword, Mark, ParseRefusal, Tokens};
use std::alloc::Global;

// NAME = name
fn logical(tokens: &mut Tokens<'_>) -> Result<Name, ParseRefusal>
    ensures { Gives SaysLogical result (read strict logical_part tokens.old) tokens.new }
{
    word(tokens, ContextWord::Name)?;
    mark(tokens, Mark::Equal)?;
    name(tokens)
}

// FILENAME = text
fn path(tokens: &mut Tokens<'_>) -> Result<FileName, ParseRefusal>
    ensures { Gives SaysPath result (read strict path_part tokens.old) tokens.new }
{
    word(tokens, ContextWord::Filename)?;
    mark(tokens, Mark::Equal)?;
    file_text(tokens)
}

/// ( NAME = name , FILENAME = text )
pub(crate) struct SnapshotFile;

impl Production for SnapshotFile {
    type Said = SnapFile;

    ghost form = { snap_file };

    ghost says = { SaysFile };

    ghost plain = { refl };

    ghost solid = { refl };

    fn is_ahead(tokens: &Tokens<'_>) -> bool {
        is_mark(tokens, Mark::Open)
    }

    fn read(_alloc: Global, tokens: &mut Tokens<'_>) -> Result<SnapFile, ParseRefusal> {
        mark(tokens, Mark::Open)?;
        let logical = logical(tokens)?;
        mark(tokens, Mark::Comma)?;
        let path = path(tokens)?;
        mark(tokens, Mark::Close)?;
        Ok(SnapFile { logical, path })
    }
}

// AS SNAPSHOT OF name
fn snapshot_of(tokens: &mut Tokens<'_>) -> Result<Name, ParseRefusal>
    ensures { Gives SaysSource result (read strict snapshot_of tokens.old) tokens.new }
{
    key(tokens, Keyword::As)?;
    word(tokens, ContextWord::Snapshot)?;
    key(tokens, Keyword::Of)?;
    name(tokens)
}

// Behind CREATE: DATABASE name ON file { , file } AS SNAPSHOT OF name
pub(crate) fn create_snap(alloc: Global, tokens: &mut Tokens<'_>) -> Result<Stmt, ParseRefusal>
    ensures { Gives SaysCreateSnap result (read strict create_snap tokens.old) tokens.new }
{
    key(tokens, Keyword::Database)?;
    let snap = name(tokens)?;
    key(tokens, Keyword::On)?;
    let files = list::<SnapshotFile>(alloc, tokens, MOST_PARTS, true)?;
    let of = snapshot_of(tokens)?;
    Ok(Stmt::CreateSnap { snap, files, of })
}

// Behind DROP: DATABASE name
pub(crate) fn drop_database(tokens: &mut Tokens<'_>) -> Result<Stmt, ParseRefusal>
    ensures { Gives SaysDropDatabase result (read strict drop_database tokens.old) tokens.new }
{
    key(tokens, Keyword::Database)?;
    let name = name(tokens)?;
    Ok(Stmt::DropDb(name))
}

// FROM DATABASE_SNAPSHOT = text
fn snapshot_text(tokens: &mut Tokens<'_>) -> Result<Name, ParseRefusal>
    ensures { Gives SaysSnapshot result (read strict snapshot_text tokens.old) tokens.new }
{
    key(tokens, Keyword::From)?;
    word(tokens, ContextWord::DatabaseSnapshot)?;
    mark(tokens, Mark::Equal)?;
    name_text(tokens)
}

// RESTORE DATABASE name FROM DATABASE_SNAPSHOT = text
pub(crate) fn restore(tokens: &mut Tokens<'_>) -> Result<Stmt, ParseRefusal>
    ensures { Gives SaysRestore result (read strict restore tokens.old) tokens.new }
{
    key(tokens, Keyword::Restore)?;
    key(tokens, Keyword::Database)?;
    let db = name(tokens)?;
    let snap = snapshot_text(tokens)?;
    Ok(Stmt::Restore { db, snap })
}
