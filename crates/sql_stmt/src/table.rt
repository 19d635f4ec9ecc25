//! Statements on tables: one is made of its columns, one is dropped.

ghost use Rattle.std.specs.Prelude.{◌≡◌, ◌≤◌, true, refl, length, IfOk};
ghost use Rattle.sql_lex.specs.Ahead.{first_of};
ghost use Rattle.sql_form.specs.Form.{Form, Value};
ghost use Rattle.sql_form.specs.Grammar.{first};
ghost use Rattle.sql_form.specs.Read.{read};
ghost use Rattle.sql_form.specs.Rules.{strict};
ghost use Rattle.table_def.specs.Parts.{written};
ghost use Rattle.sql_stmt.specs.Answers.{Gives};
ghost use Rattle.sql_stmt.specs.Saying.{SaysNothing, SayEach};
ghost use Rattle.sql_stmt.specs.Defining.{SaysVarchar, SaysType, SaysOption, SaysColumnPart, SaysConstraint, SaysKeyPart, SaysPart};
ghost use Rattle.sql_stmt.specs.Stmts.{SaysCreateTable, SaysDropTable};
ghost use Rattle.sql_stmt.specs.TableForms.{varchar, column_type, primary_key, not_null, column_option, column_part, constraint, key_part, table_part, table_parts, create_table, drop_table};

use crate::pieces::{ColumnList, MOST_PARTS, optional_key};
use crate::production::{Production, list, many, optional};
use crate::take::{is_key, is_mark, key, mark, name, name_ahead, number, table};
use page_base::Name;
use plain_model::{Names, Stmt};
use sql_lex::{Keyword, Mark, ParseRefusal, Tokens};
use std::alloc::Global;
use table_def::{ColumnOption, ColumnPart, TablePart, TableParts, WrittenType, columns_of};

// VARCHAR ( number )
fn varchar(tokens: &mut Tokens<'_>) -> Result<WrittenType, ParseRefusal>
    ensures { Gives SaysVarchar result (read strict varchar tokens.old) tokens.new }
{
    key(tokens, Keyword::Varchar)?;
    mark(tokens, Mark::Open)?;
    let length = number(tokens)?;
    mark(tokens, Mark::Close)?;
    Ok(WrittenType::Varchar(length))
}

// INT | BIGINT | VARCHAR ( number )
fn column_type(tokens: &mut Tokens<'_>) -> Result<WrittenType, ParseRefusal>
    ensures { Gives SaysType result (read strict column_type tokens.old) tokens.new }
{
    if is_key(tokens, Keyword::Int) {
        tokens.advance();
        return Ok(WrittenType::Int);
    }
    if is_key(tokens, Keyword::Bigint) {
        tokens.advance();
        return Ok(WrittenType::Bigint);
    }
    varchar(tokens)
}

// PRIMARY KEY [CLUSTERED]
fn primary_key(tokens: &mut Tokens<'_>) -> Result<(), ParseRefusal>
    ensures { Gives SaysNothing result (read strict primary_key tokens.old) tokens.new }
{
    key(tokens, Keyword::Primary)?;
    key(tokens, Keyword::Key)?;
    optional_key(tokens, Keyword::Clustered)
}

// NOT NULL
fn not_null(tokens: &mut Tokens<'_>) -> Result<(), ParseRefusal>
    ensures { Gives SaysNothing result (read strict not_null tokens.old) tokens.new }
{
    key(tokens, Keyword::Not)?;
    key(tokens, Keyword::Null)
}

/// NULL | NOT NULL | PRIMARY KEY [CLUSTERED]
pub(crate) struct OptionOfColumn;

impl Production for OptionOfColumn {
    type Said = ColumnOption;

    ghost form = { column_option };

    ghost says = { SaysOption };

    ghost plain = { refl };

    ghost solid = { refl };

    fn is_ahead(tokens: &Tokens<'_>) -> bool {
        is_key(tokens, Keyword::Null)
            || is_key(tokens, Keyword::Not)
            || is_key(tokens, Keyword::Primary)
    }

    fn read(_alloc: Global, tokens: &mut Tokens<'_>) -> Result<ColumnOption, ParseRefusal> {
        if is_key(tokens, Keyword::Null) {
            tokens.advance();
            return Ok(ColumnOption::Null);
        }
        if is_key(tokens, Keyword::Not) {
            not_null(tokens)?;
            return Ok(ColumnOption::NotNull);
        }
        primary_key(tokens)?;
        Ok(ColumnOption::PrimaryKey)
    }
}

// name type { NULL | NOT NULL | PRIMARY KEY [CLUSTERED] }
fn column_part(alloc: Global, tokens: &mut Tokens<'_>) -> Result<ColumnPart, ParseRefusal>
    ensures { Gives SaysColumnPart result (read strict column_part tokens.old) tokens.new }
{
    let name = name(tokens)?;
    let kind = column_type(tokens)?;
    let options = many::<OptionOfColumn>(alloc, tokens)?;
    Ok(ColumnPart {
        name,
        kind,
        options,
    })
}

/// CONSTRAINT name
struct Constraint;

impl Production for Constraint {
    type Said = Name;

    ghost form = { constraint };

    ghost says = { SaysConstraint };

    ghost plain = { refl };

    ghost solid = { refl };

    fn is_ahead(tokens: &Tokens<'_>) -> bool {
        is_key(tokens, Keyword::Constraint)
    }

    fn read(_alloc: Global, tokens: &mut Tokens<'_>) -> Result<Name, ParseRefusal> {
        key(tokens, Keyword::Constraint)?;
        let name = name(tokens)?;
        Ok(name)
    }
}

// [CONSTRAINT name] PRIMARY KEY [CLUSTERED] ( name { , name } )
fn key_part(alloc: Global, tokens: &mut Tokens<'_>) -> Result<Names, ParseRefusal>
    ensures { Gives SaysKeyPart result (read strict key_part tokens.old) tokens.new }
{
    let _constraint = optional::<Constraint>(alloc, tokens)?;
    primary_key(tokens)?;
    let names = ColumnList::read(alloc, tokens)?;
    Ok(names)
}

/// A column, or a key.
pub(crate) struct PartOfTable;

impl Production for PartOfTable {
    type Said = TablePart;

    ghost form = { table_part };

    ghost says = { SaysPart };

    ghost plain = { refl };

    ghost solid = { refl };

    fn is_ahead(tokens: &Tokens<'_>) -> bool {
        name_ahead(tokens).is_some()
            || is_key(tokens, Keyword::Constraint)
            || is_key(tokens, Keyword::Primary)
    }

    fn read(alloc: Global, tokens: &mut Tokens<'_>) -> Result<TablePart, ParseRefusal> {
        if name_ahead(tokens).is_some() {
            let column = column_part(alloc, tokens)?;
            return Ok(TablePart::Column(column));
        }
        let names = key_part(alloc, tokens)?;
        Ok(TablePart::Key(names))
    }
}

// part { , part }; those that define a column are counted.
fn table_parts(alloc: Global, tokens: &mut Tokens<'_>) -> Result<TableParts, ParseRefusal>
    ensures gives { Gives (SayEach SaysPart) result (read strict table_parts tokens.old) tokens.new }
    ensures few { IfOk result (λ parts. length (written parts) ≤ 64) }
{
    list::<PartOfTable>(alloc, tokens, MOST_PARTS, false)
}

// Behind CREATE: TABLE table ( part { , part } )
pub(crate) fn create_table(alloc: Global, tokens: &mut Tokens<'_>) -> Result<Stmt, ParseRefusal>
    ensures { Gives SaysCreateTable result (read strict create_table tokens.old) tokens.new }
{
    key(tokens, Keyword::Table)?;
    let name = table(tokens)?;
    mark(tokens, Mark::Open)?;
    let parts = table_parts(alloc, tokens)?;
    mark(tokens, Mark::Close)?;
    Ok(Stmt::CreateTable(name, columns_of(alloc, &parts)?))
}

// Behind DROP: TABLE table
pub(crate) fn drop_table(tokens: &mut Tokens<'_>) -> Result<Stmt, ParseRefusal>
    ensures { Gives SaysDropTable result (read strict drop_table tokens.old) tokens.new }
{
    key(tokens, Keyword::Table)?;
    let name = table(tokens)?;
    Ok(Stmt::DropTable(name))
}
