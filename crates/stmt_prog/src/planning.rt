//! The claims and edits by which a statement changes its table.

ghost use Rattle.std.specs.Prelude.{◌≡◌, [], IfOk, IfErr, All, Bool, replicate};
ghost use Rattle.page_base.specs.declared.numbers.PageId.{PageId};
ghost use Rattle.table_walk.specs.Tables.{MayPut};
ghost use Rattle.table_walk.specs.Walk.{IsDone};
ghost use Rattle.page_tables.specs.Layout as layout;
ghost use Rattle.sys_cat.specs.Rows.{table_0, zero_root};
ghost use Rattle.stmt_prog.specs.Reading.{OfBases, OfRows};
ghost use Rattle.stmt_prog.specs.Refusing.{IfSaid};
ghost use Rattle.stmt_prog.specs.Queues.{IsPlannedQueue};

use crate::layout::plan;
use crate::queue::Queue;
use crate::refusal::{Refusal, damaged};
use page_base::RowList;
use page_fmt::Seen;
use std::alloc::Global;
use stmt_eval::Effect;
use sys_cat::{TableDesc, root, zero_columns};
use table_walk::{Plan, may_put};

// The plan of an effect, whose rows may be put over pages that are a table.
fn plan_of(alloc: Global, desc: &TableDesc, effect: &Effect, own: &Seen) -> Result<Plan, Refusal>
    requires { IsDone layout.shape.kids own.now (layout.first desc.now.root) }
    ensures plan { IfOk result (λ plan. layout.Promises desc.now.cols own.now desc.now.root effect.now.cuts effect.now.puts plan.new_pages plan.edits) }
    ensures damaged { IfErr result (IfSaid (λ m. All (MayPut desc.now.cols) effect.now.puts → OfRows desc.now.cols desc.now.root own.now (λ rows. ⊥))) }
{
    if !may_put(alloc, &desc.cols, &effect.puts)? {
        return Err(damaged(0));
    }
    Ok(plan(
        alloc,
        desc.root,
        &desc.cols,
        &effect.cuts,
        &effect.puts,
        own,
    )?)
}

/// The plan that cuts keys from table 0 and puts rows into it.
pub(crate) fn zero_plan(
    alloc: Global,
    cuts: &RowList,
    puts: &RowList,
    zero: &Seen,
) -> Result<Plan, Refusal>
    requires done { IsDone layout.shape.kids zero.now (layout.first zero_root) }
    requires puts { All (MayPut table_0) puts.now }
    ensures plan { IfOk result (λ plan. layout.Promises table_0 zero.now zero_root cuts.now puts.now plan.new_pages plan.edits) }
    ensures damaged { IfErr result (IfSaid (λ m. OfBases zero.now (λ ds tables. ⊥))) }
{
    let cols = zero_columns(alloc)?;
    Ok(plan(alloc, root(), &cols, cuts, puts, zero)?)
}

/// The claims and edits of an effect.
pub(crate) fn queue_of(
    alloc: Global,
    desc: &TableDesc,
    effect: &Effect,
    own: &Seen,
) -> Result<Queue, Refusal>
    requires { IsDone layout.shape.kids own.now (layout.first desc.now.root) }
    ensures queue { IfOk result (IsPlannedQueue desc.now own.now effect.now.cuts effect.now.puts) }
    ensures damaged { IfErr result (IfSaid (λ m. All (MayPut desc.now.cols) effect.now.puts → OfRows desc.now.cols desc.now.root own.now (λ rows. ⊥))) }
{
    let plan = plan_of(alloc, desc, effect, own)?;
    Ok(Queue {
        owners: vec![in alloc; desc.number.0; plan.new_pages as usize]?,
        taken: Vec::new(alloc),
        edits: plan.edits.into_vec(),
        done: 0,
        told: None,
    })
}
