//! INSERT and its rows.

ghost use Rattle.std.specs.Prelude.{◌≡◌, true, refl};
ghost use Rattle.sql_lex.specs.Ahead.{first_of};
ghost use Rattle.sql_form.specs.Form.{Form, Value, May};
ghost use Rattle.sql_form.specs.Grammar.{first};
ghost use Rattle.sql_form.specs.Read.{read};
ghost use Rattle.sql_form.specs.Rules.{strict};
ghost use Rattle.sql_stmt.specs.Answers.{Gives};
ghost use Rattle.sql_stmt.specs.Saying.{SaysRow, SaysList, SaysColumns, SaysInsert};
ghost use Rattle.sql_stmt.specs.ChangeForms.{row, insert};
ghost use Rattle.sql_stmt.specs.Pieces.{column_list};

use crate::pieces::{ColumnList, Entry, MOST_PARTS, optional_key};
use crate::production::{Production, list, optional};
use crate::take::{is_mark, key, mark, table};
use plain_model::{ExprList, InsertStmt, Names};
use sql_lex::{Keyword, Mark, ParseRefusal, Tokens};
use std::alloc::Global;

// No INSERT has more rows.
const MOST_ROWS: usize = 1000;

/// ( e { , e } )
pub(crate) struct Row;

impl Production for Row {
    type Said = ExprList;

    ghost form = { row };

    ghost says = { SaysRow };

    ghost plain = { refl };

    ghost solid = { refl };

    fn is_ahead(tokens: &Tokens<'_>) -> bool {
        is_mark(tokens, Mark::Open)
    }

    fn read(alloc: Global, tokens: &mut Tokens<'_>) -> Result<ExprList, ParseRefusal> {
        mark(tokens, Mark::Open)?;
        let row = list::<Entry>(alloc, tokens, MOST_PARTS, true)?;
        mark(tokens, Mark::Close)?;
        Ok(row)
    }
}

// The columns that are written, or none.
fn columns(alloc: Global, tokens: &mut Tokens<'_>) -> Result<Names, ParseRefusal>
    ensures { Gives (SaysList SaysColumns) result (read strict (May column_list) tokens.old) tokens.new }
{
    match optional::<ColumnList>(alloc, tokens)? {
        Some(names) => Ok(names),
        None => Ok(Names::new(alloc)),
    }
}

// INSERT [INTO] table [ ( name { , name } ) ] VALUES ( e { , e } ) { , ( e { , e } ) }
pub(crate) fn insert(alloc: Global, tokens: &mut Tokens<'_>) -> Result<InsertStmt, ParseRefusal>
    ensures { Gives SaysInsert result (read strict insert tokens.old) tokens.new }
{
    key(tokens, Keyword::Insert)?;
    optional_key(tokens, Keyword::Into)?;
    let table = table(tokens)?;
    let cols = columns(alloc, tokens)?;
    key(tokens, Keyword::Values)?;
    let rows = list::<Row>(alloc, tokens, MOST_ROWS, true)?;
    Ok(InsertStmt { table, cols, rows })
}
