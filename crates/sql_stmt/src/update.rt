//! UPDATE and DELETE.

ghost use Rattle.std.specs.Prelude.{◌≡◌, true, refl};
ghost use Rattle.sql_lex.specs.Ahead.{first_of};
ghost use Rattle.sql_form.specs.Form.{Form, Value};
ghost use Rattle.sql_form.specs.Grammar.{first};
ghost use Rattle.sql_form.specs.Read.{read};
ghost use Rattle.sql_form.specs.Rules.{strict};
ghost use Rattle.sql_stmt.specs.Answers.{Gives};
ghost use Rattle.sql_stmt.specs.Saying.{SaysSetting, SaysUpdate, SaysDelete};
ghost use Rattle.sql_stmt.specs.ChangeForms.{setting, update, delete};

use crate::pieces::{AnyValue, MOST_PARTS, Where, optional_key};
use crate::production::{Production, list, optional};
use crate::take::{key, mark, name, name_ahead, table};
use plain_model::{DeleteStmt, SetItem, UpdateStmt};
use sql_lex::{Keyword, Mark, ParseRefusal, Tokens};
use std::alloc::Global;

/// name = e
pub(crate) struct Setting;

impl Production for Setting {
    type Said = SetItem;

    ghost form = { setting };

    ghost says = { SaysSetting };

    ghost plain = { refl };

    ghost solid = { refl };

    fn is_ahead(tokens: &Tokens<'_>) -> bool {
        name_ahead(tokens).is_some()
    }

    fn read(alloc: Global, tokens: &mut Tokens<'_>) -> Result<SetItem, ParseRefusal> {
        let col = name(tokens)?;
        mark(tokens, Mark::Equal)?;
        let to = AnyValue::read(alloc, tokens)?;
        Ok(SetItem { col, to })
    }
}

// UPDATE table SET name = e { , name = e } [WHERE e]
pub(crate) fn update(alloc: Global, tokens: &mut Tokens<'_>) -> Result<UpdateStmt, ParseRefusal>
    ensures { Gives SaysUpdate result (read strict update tokens.old) tokens.new }
{
    key(tokens, Keyword::Update)?;
    let table = table(tokens)?;
    key(tokens, Keyword::Set)?;
    let sets = list::<Setting>(alloc, tokens, MOST_PARTS, true)?;
    let filter = optional::<Where>(alloc, tokens)?;
    Ok(UpdateStmt {
        table,
        sets,
        filter,
    })
}

// DELETE [FROM] table [WHERE e]
pub(crate) fn delete(alloc: Global, tokens: &mut Tokens<'_>) -> Result<DeleteStmt, ParseRefusal>
    ensures { Gives SaysDelete result (read strict delete tokens.old) tokens.new }
{
    key(tokens, Keyword::Delete)?;
    optional_key(tokens, Keyword::From)?;
    let table = table(tokens)?;
    let filter = optional::<Where>(alloc, tokens)?;
    Ok(DeleteStmt { table, filter })
}
