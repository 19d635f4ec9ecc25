//! Reading a batch whole.

ghost use Rattle.std.specs.Prelude.{◌<◌, length, IfOk, IfErr};
ghost use Rattle.sql_read.specs.Grammar.{IsBatch};
ghost use Rattle.sql_read.specs.Place.{IsRefusal};

use plain_model::StmtList;
use sql_lex::{ParseRefusal, Tokens};
use sql_stmt::statements;
use std::alloc::Global;

/// The statements of a batch. `Syntax` comes exactly where the batch isn't in the grammar, at the place of the first token
/// that can't stand, or of the part of an expression that is of the wrong kind.
pub fn parse(alloc: Global, batch: &[u8]) -> Result<StmtList, ParseRefusal>
    requires { length batch.now < 4294967295 }
    ensures ok { IfOk result (IsBatch batch.now) }
    ensures syntax { IfErr result (IsRefusal batch.now) }
{
    let mut tokens = Tokens::new(batch);
    let stmts = statements(alloc, &mut tokens)?;
    if !tokens.is_at_end() {
        return Err(ParseRefusal::Syntax {
            at: tokens.next().at,
        });
    }
    Ok(StmtList::of(stmts))
}
