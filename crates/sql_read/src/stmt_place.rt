//! Where in a batch a statement begins, for refusals that count statements.

ghost use Rattle.std.specs.Prelude.{◌≡◌, ◌<◌, length, IfOk, IfErr};
ghost use Rattle.sql_lex.specs.declared.refusal.ParseRefusal.TheVariants.{Syntax};
ghost use Rattle.sql_lex.specs.Ahead.{first_of};
ghost use Rattle.sql_read.specs.StmtPlace.{Passes, Stays, IsStmtPlace, Lacks};

use sql_lex::{ParseRefusal, Tokens};
use sql_stmt::{ended, is_statement_ahead};
use std::alloc::Global;

// The refusal at the next token.
fn refused(tokens: &Tokens<'_>) -> ParseRefusal
    ensures { result ≡ Syntax (first_of tokens.now).at }
{
    ParseRefusal::Syntax {
        at: tokens.next().at,
    }
}

// Reads a statement, which must begin in front.
fn passed(alloc: Global, tokens: &mut Tokens<'_>) -> Result<(), ParseRefusal>
    ensures passes { IfOk result (λ _. Passes tokens.old tokens.new) }
    ensures stays { IfErr result (Stays tokens.old) }
{
    if !is_statement_ahead(tokens) {
        return Err(refused(tokens));
    }
    let _stmt = ended(alloc, tokens)?;
    Ok(())
}

/// The place of the first token of a statement, counted from 0. For 0 it is that of the first token of any batch. `Syntax` comes
/// exactly where the batch has no such statement, at the place at which its statements stop: that at which `parse` refuses it, or
/// its end.
pub fn statement_place(alloc: Global, batch: &[u8], number: usize) -> Result<u32, ParseRefusal>
    requires { length batch.now < 4294967295 }
    ensures ok { IfOk result (IsStmtPlace batch.now number) }
    ensures syntax { IfErr result (Lacks batch.now number) }
{
    let mut tokens = Tokens::new(batch);
    for _ in 0..number {
        passed(alloc, &mut tokens)?;
    }
    if number > 0 && !is_statement_ahead(&tokens) {
        return Err(refused(&tokens));
    }
    Ok(tokens.next().at)
}
