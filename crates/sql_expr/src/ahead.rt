//! The token in front, and what it is to an expression.

ghost use Rattle.std.specs.Prelude.{◌≡◌, ◌∷◌, ◌-◌, true, IfOk, option_map};
ghost use Rattle.plain_model.specs.Tree.{tree_of};
ghost use Rattle.sql_lex.specs.declared.refusal.ParseRefusal.TheVariants.{Syntax};
ghost use Rattle.sql_lex.specs.Ahead.{first_of, behind_first};
ghost use Rattle.sql_expr.specs.Grammar.{joins, joins_truths, compares};
ghost use Rattle.sql_expr.specs.Roles.{word_role, mark_role, kind_role, role_of, leaf};
ghost use Rattle.sql_expr.specs.Rules.{has_truth};
ghost use Rattle.sql_expr.specs.Steps.{IsCons, Uses, is_part};

use crate::tree::{column, null};
use crate::{Level, Role};
use page_base::NoMemory;
use plain_model::{CompareOp, Expr, MathOp};
use sql_lex::{Keyword, Mark, ParseRefusal, TokenKind, Tokens};
use std::alloc::Global;

fn word_role(word: Keyword) -> Role
    ensures { result ≡ word_role word }
{
    match word {
        Keyword::And => Role::And,
        Keyword::Or => Role::Or,
        Keyword::Not => Role::Not,
        Keyword::Is => Role::Is,
        Keyword::Null => Role::Null,
        Keyword::Between => Role::Between,
        Keyword::In => Role::In,
        _ => Role::Other,
    }
}

fn mark_role(mark: Mark) -> Role
    ensures { result ≡ mark_role mark }
{
    match mark {
        Mark::Open => Role::Open,
        Mark::Close => Role::Close,
        Mark::Comma => Role::Comma,
        Mark::Star => Role::Math(MathOp::Mul),
        Mark::Plus => Role::Math(MathOp::Add),
        Mark::Minus => Role::Math(MathOp::Sub),
        Mark::Equal => Role::Compare(CompareOp::Eq),
        Mark::NotEqual => Role::Compare(CompareOp::Ne),
        Mark::Less => Role::Compare(CompareOp::Lt),
        Mark::AtMost => Role::Compare(CompareOp::Le),
        Mark::Greater => Role::Compare(CompareOp::Gt),
        Mark::AtLeast => Role::Compare(CompareOp::Ge),
        _ => Role::Other,
    }
}

fn kind_role(kind: &TokenKind<'_>) -> Role
    ensures { result ≡ kind_role kind.now }
{
    match kind {
        TokenKind::Key(word) => word_role(*word),
        TokenKind::Mark(mark) => mark_role(*mark),
        TokenKind::Named(_) => Role::Leaf,
        TokenKind::Bracketed(_) => Role::Leaf,
        TokenKind::Number(_) => Role::Leaf,
        TokenKind::Text(_) => Role::Leaf,
        _ => Role::Other,
    }
}

// What the token in front is to an expression.
pub(crate) fn role_ahead(tokens: &Tokens<'_>) -> Role
    ensures role { result ≡ role_of (first_of tokens.now) }
    ensures cons { IsCons tokens.now }
{
    kind_role(&tokens.next().kind)
}

// Where it begins.
pub(crate) fn place(tokens: &Tokens<'_>) -> u32
    ensures { result ≡ (first_of tokens.now).at }
{
    tokens.next().at
}

// The refusal at it.
pub(crate) fn refused(tokens: &Tokens<'_>) -> ParseRefusal
    ensures { result ≡ Syntax (first_of tokens.now).at }
{
    ParseRefusal::Syntax { at: place(tokens) }
}

// The expression that it is, if it is one: a number, a text, NULL, or, where names may stand, a column.
pub(crate) fn leaf(
    alloc: Global,
    tokens: &Tokens<'_>,
    names: bool,
) -> Result<Option<Expr>, NoMemory>
    ensures { IfOk result (λ o. option_map tree_of o ≡ leaf names (first_of tokens.now).kind) }
{
    match &tokens.next().kind {
        TokenKind::Number(number) => Ok(Some(Expr::Number(*number))),
        TokenKind::Text(text) => Ok(Some(Expr::Text(text.copy(alloc)?))),
        TokenKind::Named(name) => Ok(column(names, *name)),
        TokenKind::Bracketed(name) => Ok(column(names, *name)),
        TokenKind::Key(word) => Ok(null(word_role(*word))),
        _ => Ok(None),
    }
}

// Takes it.
pub(crate) fn take(tokens: &mut Tokens<'_>)
    requires { is_part (role_of (first_of tokens.old)) ≡ true }
    ensures { tokens.old ≡ first_of tokens.old ∷ tokens.new }
{
    tokens.advance()
}

// One fewer, of levels that may open or operators that may come, where there is one.
pub(crate) fn use_one(tokens: &Tokens<'_>, spare: u32) -> Result<u32, ParseRefusal>
    ensures { Uses result spare tokens.now }
{
    if spare == 0 {
        Err(refused(tokens))
    } else {
        Ok(spare - 1)
    }
}

// Whether an expression is a truth, and no value.
pub(crate) fn has_truth(e: &Expr) -> bool
    ensures { result ≡ has_truth (tree_of e.now) }
{
    match e {
        Expr::Compare(..)
        | Expr::IsNull(..)
        | Expr::Between(..)
        | Expr::In(..)
        | Expr::Not(..)
        | Expr::And(..)
        | Expr::Or(..) => true,
        _ => false,
    }
}

// Whether an operator joins operands of a level from the left.
pub(crate) fn joins(level: Level, role: Role) -> bool
    ensures { result ≡ joins level role }
{
    match (level, role) {
        (Level::Ors, Role::Or) => true,
        (Level::Ands, Role::And) => true,
        (Level::Sums, Role::Math(MathOp::Add)) => true,
        (Level::Sums, Role::Math(MathOp::Sub)) => true,
        (Level::Prods, Role::Math(MathOp::Mul)) => true,
        _ => false,
    }
}

// Whether its operands are truths.
pub(crate) fn joins_truths(role: Role) -> bool
    ensures { result ≡ joins_truths role }
{
    match role {
        Role::Or | Role::And => true,
        _ => false,
    }
}

// Whether it may begin what makes a truth of a value.
pub(crate) fn compares(role: Role) -> bool
    ensures { result ≡ compares role }
{
    match role {
        Role::Compare(_) | Role::Is | Role::Not | Role::Between | Role::In => true,
        _ => false,
    }
}
