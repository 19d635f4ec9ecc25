//! Parts that several statements have: names, values, a WHERE, a list of columns, FROM.

ghost use Rattle.std.specs.Prelude.{◌≡◌, true, refl};
ghost use Rattle.sql_lex.specs.Ahead.{first_of};
ghost use Rattle.sql_form.specs.Form.{Form, Value, One, Key, May};
ghost use Rattle.sql_form.specs.Grammar.{first, starts};
ghost use Rattle.sql_form.specs.Read.{read};
ghost use Rattle.sql_form.specs.Rules.{strict};
ghost use Rattle.sql_stmt.specs.Answers.{Gives};
ghost use Rattle.sql_stmt.specs.Saying.{SaysNothing, SaysName, SaysExpr, SaysFilter, SaysColumns, SaysOption};
ghost use Rattle.sql_stmt.specs.Selecting.{SaysFrom};
ghost use Rattle.sql_stmt.specs.Pieces.{name, value, entry, truth, where_truth, column_list};
ghost use Rattle.sql_stmt.specs.SelectForms.{from_table};

use crate::production::{Production, list, optional};
use crate::take::{is_key, is_mark, key, mark, name, name_ahead, table};
use page_base::Name;
use plain_model::{Expr, Names};
use sql_lex::{Keyword, Mark, ParseRefusal, TokenKind, Tokens};
use std::alloc::Global;

/// No comma list has more parts.
pub(crate) const MOST_PARTS: usize = 64;

/// A name.
pub(crate) struct AnyName;

impl Production for AnyName {
    type Said = Name;

    ghost form = { name };

    ghost says = { SaysName };

    ghost plain = { refl };

    ghost solid = { refl };

    fn is_ahead(tokens: &Tokens<'_>) -> bool {
        name_ahead(tokens).is_some()
    }

    fn read(_alloc: Global, tokens: &mut Tokens<'_>) -> Result<Name, ParseRefusal> {
        name(tokens)
    }
}

// Whether an expression begins with the token in front, names of columns where they may stand.
fn is_expression_ahead(tokens: &Tokens<'_>, names: bool) -> bool
    ensures { result ≡ starts names (first_of tokens.now).kind }
{
    match &tokens.next().kind {
        TokenKind::Key(word) => match word {
            Keyword::Not | Keyword::Null => true,
            _ => false,
        },
        TokenKind::Mark(mark) => match mark {
            Mark::Open | Mark::Minus => true,
            _ => false,
        },
        TokenKind::Named(_) | TokenKind::Bracketed(_) => names,
        TokenKind::Number(_) | TokenKind::Text(_) => true,
        _ => false,
    }
}

/// A value, in which columns may stand.
pub(crate) struct AnyValue;

impl Production for AnyValue {
    type Said = Expr;

    ghost form = { value };

    ghost says = { SaysExpr };

    ghost plain = { refl };

    ghost solid = { refl };

    fn is_ahead(tokens: &Tokens<'_>) -> bool {
        is_expression_ahead(tokens, true)
    }

    fn read(alloc: Global, tokens: &mut Tokens<'_>) -> Result<Expr, ParseRefusal> {
        sql_expr::value(alloc, tokens, true)
    }
}

/// An entry of VALUES: a value without columns.
pub(crate) struct Entry;

impl Production for Entry {
    type Said = Expr;

    ghost form = { entry };

    ghost says = { SaysExpr };

    ghost plain = { refl };

    ghost solid = { refl };

    fn is_ahead(tokens: &Tokens<'_>) -> bool {
        is_expression_ahead(tokens, false)
    }

    fn read(alloc: Global, tokens: &mut Tokens<'_>) -> Result<Expr, ParseRefusal> {
        sql_expr::value(alloc, tokens, false)
    }
}

// A truth.
fn condition(alloc: Global, tokens: &mut Tokens<'_>) -> Result<Expr, ParseRefusal>
    ensures { Gives SaysExpr result (read strict truth tokens.old) tokens.new }
{
    sql_expr::truth(alloc, tokens)
}

/// WHERE e
pub(crate) struct Where;

impl Production for Where {
    type Said = Expr;

    ghost form = { where_truth };

    ghost says = { SaysFilter };

    ghost plain = { refl };

    ghost solid = { refl };

    fn is_ahead(tokens: &Tokens<'_>) -> bool {
        is_key(tokens, Keyword::Where)
    }

    fn read(alloc: Global, tokens: &mut Tokens<'_>) -> Result<Expr, ParseRefusal> {
        key(tokens, Keyword::Where)?;
        condition(alloc, tokens)
    }
}

/// ( name { , name } )
pub(crate) struct ColumnList;

impl Production for ColumnList {
    type Said = Names;

    ghost form = { column_list };

    ghost says = { SaysColumns };

    ghost plain = { refl };

    ghost solid = { refl };

    fn is_ahead(tokens: &Tokens<'_>) -> bool {
        is_mark(tokens, Mark::Open)
    }

    fn read(alloc: Global, tokens: &mut Tokens<'_>) -> Result<Names, ParseRefusal> {
        mark(tokens, Mark::Open)?;
        let names = list::<AnyName>(alloc, tokens, MOST_PARTS, true)?;
        mark(tokens, Mark::Close)?;
        Ok(names)
    }
}

// FROM table [WHERE e]
pub(crate) fn from_table(
    alloc: Global,
    tokens: &mut Tokens<'_>,
) -> Result<(Name, Option<Expr>), ParseRefusal>
    ensures { Gives SaysFrom result (read strict from_table tokens.old) tokens.new }
{
    key(tokens, Keyword::From)?;
    let table = table(tokens)?;
    let filter = optional::<Where>(alloc, tokens)?;
    Ok((table, filter))
}

// Takes the reserved word where it stands.
pub(crate) fn optional_key(tokens: &mut Tokens<'_>, wanted: Keyword) -> Result<(), ParseRefusal>
    ensures { Gives SaysNothing result (read strict (May (One (Key wanted))) tokens.old) tokens.new }
{
    if is_key(tokens, wanted) {
        tokens.advance();
    }
    Ok(())
}
