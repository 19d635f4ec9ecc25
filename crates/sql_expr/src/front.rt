//! Reads the expression that stands in front of tokens, as much of them as can be one.

ghost use Rattle.std.specs.Prelude.{◌≡◌, ◌≤◌, ◌+◌, true, false, length, IfOk, Some};
ghost use Rattle.plain_model.specs.Sound.{is_value_expr, is_entry, is_filter};
ghost use Rattle.sql_expr.specs.Rules.{strict};
ghost use Rattle.sql_expr.specs.Read.{reading, got, read_value, read_truth, Answers};
ghost use Rattle.sql_expr.specs.Laws.{are_printed};

use crate::Level;
use crate::reader::{expression, there};
use crate::steps::judge;
use plain_model::Expr;
use sql_lex::{ParseRefusal, Tokens};
use std::alloc::Global;

// So many levels may open, and so many operators come.
const MOST_LEVELS: u32 = 100;

const MOST_OPERATORS: u32 = 1000;

// An expression of a kind.
fn read(
    alloc: Global,
    tokens: &mut Tokens<'_>,
    names: bool,
    truth: bool,
) -> Result<Expr, ParseRefusal>
    ensures { Answers result (got (reading names strict truth tokens.old)) tokens.new }
{
    let read = expression(
        alloc,
        tokens,
        names,
        MOST_LEVELS,
        MOST_OPERATORS,
        Level::Ors,
    )?;
    judge(tokens, &read, truth)?;
    there(tokens);
    Ok(read.tree)
}

/// Reads the value in front of tokens, in which columns may stand where `names` is true. `Syntax` is the place where none can go
/// on; what the tokens are after a refusal isn't said.
pub fn value(alloc: Global, tokens: &mut Tokens<'_>, names: bool) -> Result<Expr, ParseRefusal>
    ensures answers { Answers result (read_value names tokens.old) tokens.new }
    ensures shorter { IfOk result (λ e. length tokens.new + 1 ≤ length tokens.old) }
    ensures sound { are_printed tokens.old ≡ true → IfOk result (λ e. is_value_expr e ≡ true) }
    ensures entry { names ≡ false → are_printed tokens.old ≡ true → IfOk result (λ e. is_entry e ≡ true) }
{
    read(alloc, tokens, names, false)
}

/// Reads the truth in front of tokens, as behind WHERE. `Syntax` is the place where none can go on; what the tokens are after a
/// refusal isn't said.
pub fn truth(alloc: Global, tokens: &mut Tokens<'_>) -> Result<Expr, ParseRefusal>
    ensures answers { Answers result (read_truth tokens.old) tokens.new }
    ensures shorter { IfOk result (λ e. length tokens.new + 1 ≤ length tokens.old) }
    ensures sound { are_printed tokens.old ≡ true → IfOk result (λ e. is_filter (Some e) ≡ true) }
{
    read(alloc, tokens, true, true)
}
