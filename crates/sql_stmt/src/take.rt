//! Taking the token in front where it is one that must stand there.

ghost use Rattle.std.specs.Prelude.{◌≡◌, ◌∷◌, Bool, true, IfSome, IfNone, Some, None, MatchOption};
ghost use Rattle.sql_lex.specs.declared.refusal.ParseRefusal.TheVariants.{Syntax};
ghost use Rattle.sql_lex.specs.Ahead.{first_of, behind_first};
ghost use Rattle.sql_form.specs.Form.{One, Key, Word, Sign, Nought, AnyName, AnyNumber, FileText, NameText, is_key, is_word, is_sign, is_zero, name_of, number_of, file_of, text_name_of, Table};
ghost use Rattle.sql_form.specs.Read.{read};
ghost use Rattle.sql_form.specs.Rules.{strict};
ghost use Rattle.sql_stmt.specs.Answers.{Gives};
ghost use Rattle.sql_stmt.specs.Saying.{SaysNothing, SaysName, SaysNumber};

use page_base::{FileName, Name};
use sql_lex::{ContextWord, Keyword, Mark, ParseRefusal, TokenKind, Tokens};

// The refusal at it.
pub(crate) fn refused(tokens: &Tokens<'_>) -> ParseRefusal
    ensures at { result ≡ Syntax (first_of tokens.now).at }
    ensures there { tokens.now ≡ first_of tokens.now ∷ behind_first tokens.now }
{
    ParseRefusal::Syntax {
        at: tokens.next().at,
    }
}

// Whether it is the reserved word.
pub(crate) fn is_key(tokens: &Tokens<'_>, wanted: Keyword) -> bool
    ensures { result ≡ is_key wanted (first_of tokens.now).kind }
{
    match &tokens.next().kind {
        TokenKind::Key(found) => found.is_same(wanted),
        _ => false,
    }
}

// Whether it is the mark.
pub(crate) fn is_mark(tokens: &Tokens<'_>, wanted: Mark) -> bool
    ensures { result ≡ is_sign wanted (first_of tokens.now).kind }
{
    match &tokens.next().kind {
        TokenKind::Mark(found) => found.is_same(wanted),
        _ => false,
    }
}

// Whether it is the word that has a meaning in its place alone.
pub(crate) fn is_word(tokens: &Tokens<'_>, wanted: ContextWord) -> bool
    ensures { result ≡ is_word wanted (first_of tokens.now).kind }
{
    match &tokens.next().kind {
        TokenKind::Named(name) => name.is_text(wanted.text().as_bytes()),
        _ => false,
    }
}

// The name that it is, if it is one.
pub(crate) fn name_ahead(tokens: &Tokens<'_>) -> Option<Name>
    ensures { result ≡ name_of (first_of tokens.now).kind }
{
    match &tokens.next().kind {
        TokenKind::Named(name) => Some(*name),
        TokenKind::Bracketed(name) => Some(*name),
        _ => None,
    }
}

// Takes the reserved word.
pub(crate) fn key(tokens: &mut Tokens<'_>, wanted: Keyword) -> Result<(), ParseRefusal>
    ensures { Gives SaysNothing result (read strict (One (Key wanted)) tokens.old) tokens.new }
{
    if !is_key(tokens, wanted) {
        return Err(refused(tokens));
    }
    tokens.advance();
    Ok(())
}

// Takes the mark.
pub(crate) fn mark(tokens: &mut Tokens<'_>, wanted: Mark) -> Result<(), ParseRefusal>
    ensures { Gives SaysNothing result (read strict (One (Sign wanted)) tokens.old) tokens.new }
{
    if !is_mark(tokens, wanted) {
        return Err(refused(tokens));
    }
    tokens.advance();
    Ok(())
}

// Takes the word that has a meaning in its place alone.
pub(crate) fn word(tokens: &mut Tokens<'_>, wanted: ContextWord) -> Result<(), ParseRefusal>
    ensures { Gives SaysNothing result (read strict (One (Word wanted)) tokens.old) tokens.new }
{
    if !is_word(tokens, wanted) {
        return Err(refused(tokens));
    }
    tokens.advance();
    Ok(())
}

// Takes the number 0.
pub(crate) fn nought(tokens: &mut Tokens<'_>) -> Result<(), ParseRefusal>
    ensures { Gives SaysNothing result (read strict (One Nought) tokens.old) tokens.new }
{
    match &tokens.next().kind {
        TokenKind::Number(0) => {
            tokens.advance();
            Ok(())
        }
        _ => Err(refused(tokens)),
    }
}

// Takes a name.
pub(crate) fn name(tokens: &mut Tokens<'_>) -> Result<Name, ParseRefusal>
    ensures { Gives SaysName result (read strict (One AnyName) tokens.old) tokens.new }
{
    let Some(name) = name_ahead(tokens) else {
        return Err(refused(tokens));
    };
    tokens.advance();
    Ok(name)
}

// Takes a number.
pub(crate) fn number(tokens: &mut Tokens<'_>) -> Result<i64, ParseRefusal>
    ensures { Gives SaysNumber result (read strict (One AnyNumber) tokens.old) tokens.new }
{
    match &tokens.next().kind {
        TokenKind::Number(number) => {
            let number = *number;
            tokens.advance();
            Ok(number)
        }
        _ => Err(refused(tokens)),
    }
}

// The name of a file with which it ends, if it is such a text.
fn file_ahead(tokens: &Tokens<'_>) -> Option<FileName>
    ensures { result ≡ file_of true (first_of tokens.now).kind }
{
    match &tokens.next().kind {
        TokenKind::Text(text) => text.file_name(),
        _ => None,
    }
}

// Takes a text that ends with a name of a file.
pub(crate) fn file_text(tokens: &mut Tokens<'_>) -> Result<FileName, ParseRefusal>
    ensures { Gives SaysName result (read strict (One FileText) tokens.old) tokens.new }
{
    let Some(name) = file_ahead(tokens) else {
        return Err(refused(tokens));
    };
    tokens.advance();
    Ok(name)
}

// The name that it is, if it is such a text.
fn text_name_ahead(tokens: &Tokens<'_>) -> Option<Name>
    ensures { result ≡ text_name_of true (first_of tokens.now).kind }
{
    match &tokens.next().kind {
        TokenKind::Text(text) => text.name(),
        _ => None,
    }
}

// Takes a text that is a name.
pub(crate) fn name_text(tokens: &mut Tokens<'_>) -> Result<Name, ParseRefusal>
    ensures { Gives SaysName result (read strict (One NameText) tokens.old) tokens.new }
{
    let Some(name) = text_name_ahead(tokens) else {
        return Err(refused(tokens));
    };
    tokens.advance();
    Ok(name)
}

// Takes the name of a table, dbo and a dot before it or not.
pub(crate) fn table(tokens: &mut Tokens<'_>) -> Result<Name, ParseRefusal>
    ensures { Gives SaysName result (read strict Table tokens.old) tokens.new }
{
    let first = name(tokens)?;
    if first.is_text(ContextWord::Dbo.text().as_bytes()) && is_mark(tokens, Mark::Dot) {
        tokens.advance();
        return name(tokens);
    }
    Ok(first)
}
