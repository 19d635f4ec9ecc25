//! What a statement that makes a table plans: the rows that tell it, a page for its root, and the root's first bytes.

ghost use Rattle.std.specs.Prelude.{◌≡◌, ◌<◌, ◌≤◌, ◌^◌, true, false, IfOk, IfErr, Some, MatchOption, length};
ghost use Rattle.std.specs.List.{AllByRecursion};
ghost use Rattle.page_base.specs.Name.{IsLowName};
ghost use Rattle.plain_model.specs.Statements.{table_named};
ghost use Rattle.sys_cat.specs.Lists.{IsDesc, AreNamed};
ghost use Rattle.sys_cat.specs.Rows.{zero_root};
ghost use Rattle.table_walk.specs.Walk.{IsDone};
ghost use Rattle.page_tables.specs.Layout as layout;
ghost use Rattle.stmt_course.specs.Planning.{Plans};
ghost use Rattle.stmt_prog.specs.Feeding.{OverEach};
ghost use Rattle.stmt_prog.specs.Heads.{creates, defines_well, new_cols};
ghost use Rattle.stmt_prog.specs.Queues.{IsMadeQueue, IsQueueFor, IsRootEdit};
ghost use Rattle.stmt_prog.specs.Drafts.{IsTold};
ghost use Rattle.stmt_prog.specs.Reading.{OfBases};
ghost use Rattle.stmt_prog.specs.Refusing.{IfSaid};
ghost use Rattle.stmt_prog.specs.States.{course_of, IsLackingIn};

use crate::head::Head;
use crate::layout::new_root;
use crate::planning::zero_plan;
use crate::prog::Prog;
use crate::queue::{Queue, Telling};
use crate::refusal::Refusal;
use crate::state::State;
use crate::telling::{place_of, row_told};
use page_base::{Bytes, Column, Columns, Name, NoMemory, RowList, TableNo};
use page_fmt::Seen;
use plain_model::{Reply, Stmt};
use std::alloc::Global;
use sys_cat::{TableDesc, root, rows_of};
use table_scan::Scan;
use table_walk::{Edit, Plan, Spot};

// The columns of the table that a statement makes.
fn columns_of(stmt: &Stmt) -> Option<&Columns>
    ensures { MatchOption result (creates stmt.now ≡ false) (λ cols. cols.now ≡ new_cols stmt.now) }
{
    match stmt {
        Stmt::CreateTable(_, cols) => Some(cols),
        _ => None,
    }
}

// Each column has a name as table 0 can hold it, by its type.
fn are_named(columns: &[Column])
    ensures { AreNamed columns.now }
{
    match columns {
        [] => {}
        [column, columns @ ..] => {
            let _ = column.name.bytes();
            are_named(columns);
        }
    }
}

// The table as it is described, but for its root.
fn described(
    alloc: Global,
    stmt: &Stmt,
    name: &Name,
    number: TableNo,
) -> Result<TableDesc, NoMemory>
    requires creates { creates stmt.now ≡ true }
    requires well { defines_well stmt.now ≡ true }
    requires some { 1 ≤ number.0 }
    requires small { number.0 < 2 ^ 31 }
    ensures desc { IfOk result IsDesc }
    ensures is { IfOk result (λ d. d ≡ record { name = name.now; number = number; root = zero_root; cols = new_cols stmt.now }) }
{
    let cols = columns_of(stmt).unwrap();
    let _ = name.bytes();
    are_named(cols.as_slice());
    Ok(TableDesc {
        name: *name,
        number,
        root: root(),
        cols: cols.copy(alloc)?,
    })
}

// The edit that gives the root its first bytes.
fn root_edit(alloc: Global, new: u32) -> Result<Edit, NoMemory>
    ensures { IfOk result (IsRootEdit new) }
{
    Ok(Edit {
        spot: Spot::New(new),
        slot: 0,
        names: None,
        bytes: Bytes::from(Vec::from_slice(alloc, &new_root())?),
        of_row: false,
    })
}

// The claims and edits of a plan of table 0 that puts the rows of a new table.
fn with_root(alloc: Global, desc: TableDesc, plan: Plan) -> Result<Queue, NoMemory>
    requires { IsDesc desc }
    ensures queue { IfOk result (IsQueueFor desc plan.new_pages plan.edits) }
    ensures told { IfOk result (λ q. IsTold q.told) }
{
    let row = row_told(alloc, &desc, desc.root)?;
    let new = plan.new_pages;
    let mut edits = plan.edits.into_vec();
    let Some(at) = place_of(edits.as_slice(), row.as_slice()) else {
        return Err(NoMemory);
    };
    let mut owners = vec![in alloc; 0; new as usize]?;
    owners.push(desc.number.0)?;
    edits.push(root_edit(alloc, new)?)?;
    Ok(Queue {
        owners,
        taken: Vec::new(alloc),
        edits,
        done: 0,
        told: Some(Telling { at, desc, new }),
    })
}

// The claims and edits that create a table.
fn queue_of(alloc: Global, desc: TableDesc, zero: &Seen) -> Result<Queue, Refusal>
    requires desc { IsDesc desc }
    requires done { IsDone layout.shape.kids zero.now (layout.first zero_root) }
    ensures queue { IfOk result (IsMadeQueue desc zero.now) }
    ensures told { IfOk result (λ q. IsTold q.told) }
    ensures damaged { IfErr result (IfSaid (λ m. OfBases zero.now (λ ds tables. ⊥))) }
{
    let rows = rows_of(alloc, &desc)?;
    let plan = zero_plan(alloc, &RowList::new(alloc), &rows, zero)?;
    Ok(with_root(alloc, desc, plan)?)
}

/// The claims, the edits and the reply of a statement that makes a table, once it has read that there is none of its name.
pub(crate) fn made(
    alloc: Global,
    stmt: &Stmt,
    head: Head,
    zero: Scan,
    number: TableNo,
) -> Result<Prog, Refusal>
    requires lent { stmt.now ≡ head.stmt }
    requires lacking { IsLackingIn head.stmt zero.seen number }
    ensures plans { IfOk result (Plans (course_of head (State.Defining zero number))) }
    ensures damaged { IfErr result (IfSaid (λ m. OverEach (course_of head (State.Defining zero number)) (λ tables. ⊥))) }
{
    let _ = head.at();
    let desc = described(alloc, stmt, &head.name(), number)?;
    let queue = queue_of(alloc, desc, zero.seen())?;
    Ok(Prog {
        head,
        state: State::Writing {
            desc: None,
            queue,
            reply: Reply::Ok,
        },
    })
}
