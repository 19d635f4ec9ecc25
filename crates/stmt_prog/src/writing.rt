//! What a program plans, once it has read its table.

ghost use Rattle.std.specs.Prelude.{◌≡◌, true, IfOk, IfErr};
ghost use Rattle.plain_model.specs.Statements.{is_of_rows};
ghost use Rattle.table_walk.specs.Walk.{IsDone};
ghost use Rattle.page_tables.specs.Layout as layout;
ghost use Rattle.stmt_course.specs.Planning.{Plans};
ghost use Rattle.stmt_prog.specs.Feeding.{OverEach};
ghost use Rattle.stmt_prog.specs.Refusing.{IfSaid};
ghost use Rattle.stmt_prog.specs.States.{course_of, IsFoundIn};

use crate::head::Head;
use crate::planning::queue_of;
use crate::prog::Prog;
use crate::reading::effect;
use crate::refusal::Refusal;
use crate::state::State;
use plain_model::Stmt;
use std::alloc::Global;
use sys_cat::TableDesc;
use table_scan::Scan;

/// The claims, the edits and the reply of a statement that has read its table.
pub(crate) fn planned(
    alloc: Global,
    stmt: &Stmt,
    head: Head,
    parts: (Scan, TableDesc, Scan),
) -> Result<Prog, Refusal>
    requires lent { stmt.now ≡ head.stmt }
    requires rows { is_of_rows stmt.now ≡ true }
    requires found { IsFoundIn head.stmt parts.0.seen parts.1 }
    requires done { IsDone layout.shape.kids parts.2.seen (layout.first parts.1.root) }
    ensures plans { IfOk result (Plans (course_of head (State.Planning parts.0 parts.1 parts.2))) }
    ensures damaged { IfErr result (IfSaid (λ m. OverEach (course_of head (State.Planning parts.0 parts.1 parts.2)) (λ tables. ⊥))) }
{
    let _ = head.at();
    let (_, desc, own) = parts;
    let effect = effect(alloc, stmt, &desc, own.seen())?;
    let queue = queue_of(alloc, &desc, &effect, own.seen())?;
    Ok(Prog {
        head,
        state: State::Writing {
            desc: Some(desc),
            queue,
            reply: effect.reply,
        },
    })
}
