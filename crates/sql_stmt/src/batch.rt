//! The statements of a batch, each with the semicolons behind it.

ghost use Rattle.std.specs.Prelude.{◌≡◌, true, refl};
ghost use Rattle.sql_lex.specs.declared.token.Mark.TheVariants as mark;
ghost use Rattle.sql_lex.specs.Ahead.{first_of};
ghost use Rattle.sql_form.specs.Form.{Form, Value, Many};
ghost use Rattle.sql_form.specs.Grammar.{first};
ghost use Rattle.sql_form.specs.Read.{read};
ghost use Rattle.sql_form.specs.Rules.{strict};
ghost use Rattle.sql_stmt.specs.Answers.{Gives};
ghost use Rattle.sql_stmt.specs.Saying.{SaysNothing, SayEach};
ghost use Rattle.sql_stmt.specs.Stmts.{SaysEnded};
ghost use Rattle.sql_stmt.specs.Pieces.{sign};
ghost use Rattle.sql_stmt.specs.Statements.{ended, batch};

use crate::production::{Production, many};
use crate::stmt::{is_statement_ahead, statement};
use crate::take::is_mark;
use page_base::ListOf;
use plain_model::Stmt;
use sql_lex::{Mark, ParseRefusal, Tokens};
use std::alloc::Global;

// Takes the semicolons in front.
fn semicolons(tokens: &mut Tokens<'_>) -> Result<(), ParseRefusal>
    ensures { Gives SaysNothing result (read strict (Many (sign mark.Semicolon)) tokens.old) tokens.new }
{
    'semicolons: while is_mark(tokens, Mark::Semicolon) {
        tokens.advance();
    }
    Ok(())
}

/// Reads the statement in front of tokens, and the semicolons behind it. `Syntax` is the place where none can go on; what the
/// tokens are after a refusal isn't said.
pub fn ended(alloc: Global, tokens: &mut Tokens<'_>) -> Result<Stmt, ParseRefusal>
    ensures { Gives SaysEnded result (read strict ended tokens.old) tokens.new }
{
    let stmt = statement(alloc, tokens)?;
    semicolons(tokens)?;
    Ok(stmt)
}

/// A statement and the semicolons behind it.
struct EndedStatement;

impl Production for EndedStatement {
    type Said = Stmt;

    ghost form = { ended };

    ghost says = { SaysEnded };

    ghost plain = { refl };

    ghost solid = { refl };

    fn is_ahead(tokens: &Tokens<'_>) -> bool {
        is_statement_ahead(tokens)
    }

    fn read(alloc: Global, tokens: &mut Tokens<'_>) -> Result<Stmt, ParseRefusal> {
        ended(alloc, tokens)
    }
}

/// Reads the statements in front of tokens, one behind the other, up to the first token that begins none. `Syntax` is the place
/// where one of them can't go on; what the tokens are after a refusal isn't said.
pub fn statements(alloc: Global, tokens: &mut Tokens<'_>) -> Result<ListOf<Stmt>, ParseRefusal>
    ensures { Gives (SayEach SaysEnded) result (read strict batch tokens.old) tokens.new }
{
    many::<EndedStatement>(alloc, tokens)
}
