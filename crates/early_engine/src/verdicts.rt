//! What a statement about rows comes to over the table of a page.

ghost use Rattle.std.specs.Prelude.{◌≡◌, true, IfOk, Some};
ghost use Rattle.page_fmt.specs.Content.{IsPage};
ghost use Rattle.plain_model.specs.declared.stmt.Stmt.{Stmt};
ghost use Rattle.plain_model.specs.Statements.{is_of_rows};
ghost use Rattle.plain_model.specs.Tables.{Table};
ghost use Rattle.stmt_eval.specs.Verdicts.{IsVerdict};
ghost use Rattle.early_engine.specs.Seeing.{IsVerdictOn, replied};

use page_base::{Image, NoMemory};
use plain_model::{Reply, Stmt};
use std::alloc::Global;
use stmt_eval::{Verdict, verdict_of};
use table_pages::read_table;

/// What a statement about rows comes to over the table of a page.
pub(crate) fn verdict_on(alloc: Global, image: &Image, stmt: &Stmt) -> Result<Verdict, NoMemory>
    requires page { IsPage image.now }
    requires rows { is_of_rows stmt.now ≡ true }
    ensures { IfOk result (IsVerdictOn image.now stmt.now) }
{
    let (cols, rows) = read_table(alloc, image)?.into_parts(alloc)?;
    verdict_of(alloc, stmt, &cols, &rows)
}

/// The reply that a verdict comes to.
pub(crate) fn reply_by(verdict: Verdict) -> Reply
    ensures { (stmt : Stmt) (t : Table) → IsVerdict stmt t verdict → result ≡ replied stmt (Some t) }
{
    match verdict {
        Verdict::Refused(message) => Reply::Msg(message),
        Verdict::Does(effect) => effect.reply,
    }
}
