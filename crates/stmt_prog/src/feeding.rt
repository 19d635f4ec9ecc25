//! What a program makes of a page that was read.

ghost use Rattle.std.specs.Prelude.{◌≡◌, true, IfOk, IfErr, Some, [], ℕ};
ghost use Rattle.page_fmt.specs.Content.{content, IsPage};
ghost use Rattle.plain_model.specs.Meaning.{shape};
ghost use Rattle.plain_model.specs.Statements.{is_of_rows};
ghost use Rattle.sys_cat.specs.Rows.{zero_root};
ghost use Rattle.table_walk.specs.Walk.{IsDone};
ghost use Rattle.page_tables.specs.Layout as layout;
ghost use Rattle.stmt_course.specs.Keeping.{IsTableOf};
ghost use Rattle.stmt_prog.specs.Ending.{Ends};
ghost use Rattle.plain_steps.specs.Phases.{second_mode};
ghost use Rattle.stmt_prog.specs.Feeding.{table_stage, is_select, read, OverEach, TakesOn};
ghost use Rattle.stmt_prog.specs.Reading.{OfRows};
ghost use Rattle.stmt_prog.specs.Refusing.{IfSaid};
ghost use Rattle.stmt_prog.specs.States.{begun, course_of, IsFoundIn, IsReading};

use crate::head::{Head, creates};
use crate::prog::Prog;
use crate::queue::Queue;
use crate::reading::{effect, found, lacking};
use crate::refusal::Refusal;
use crate::state::State;
use page_base::{Image, NoMemory};
use page_fmt::Seen;
use plain_model::Stmt;
use std::alloc::Global;
use step_words::DbKind;
use sys_cat::TableDesc;
use table_scan::Scan;

// The statement's table was found: its lock comes next where it needs one, and else its root.
fn with_table(alloc: Global, head: Head, zero: Scan, desc: TableDesc) -> Result<Prog, NoMemory>
    requires { IsFoundIn head.stmt zero.seen desc }
    ensures { IfOk result (λ p. p ≡ record (begun head) { stage = table_stage (second_mode head.stmt) head.at desc.root; base = zero.seen; desc = Some desc }) }
{
    let own = Scan::new(alloc, desc.root)?;
    let state = match (head.second(), head.at()) {
        (Some(_), DbKind::Master | DbKind::Source) => State::AskTable { zero, desc, own },
        _ => State::ScanOwn { zero, desc, own },
    };
    Ok(Prog { head, state })
}

/// With the next page of table 0.
pub(crate) fn read_zero(
    alloc: Global,
    stmt: &Stmt,
    head: Head,
    zero: Scan,
    image: &Image,
) -> Result<Prog, Refusal>
    requires lent { stmt.now ≡ head.stmt }
    requires reading { IsReading zero zero_root }
    requires page { IsPage image.now }
    ensures takes { IfOk result (λ p. TakesOn (course_of head (State.ScanZero zero)) p (content image.now)) }
    ensures refused { IfErr result (IfSaid (λ m. OverEach (read (content image.now) (course_of head (State.ScanZero zero))) (λ tables. shape head.stmt tables ≡ Some m))) }
{
    let _ = head.at();
    let now = zero.read(alloc, image)?;
    if now.next().is_some() {
        return Ok(Prog {
            head,
            state: State::ScanZero(now),
        });
    }
    if creates(stmt) {
        let number = lacking(alloc, stmt, &head.name(), now.seen())?;
        return Ok(Prog {
            head,
            state: State::Defining { zero: now, number },
        });
    }
    let desc = found(alloc, stmt, &head.name(), now.seen())?;
    Ok(with_table(alloc, head, now, desc)?)
}

fn is_select(stmt: &Stmt) -> bool
    ensures { result ≡ is_select stmt.now }
{
    matches!(stmt, Stmt::Select(_))
}

// A SELECT whose table was read whole.
fn answered(
    alloc: Global,
    stmt: &Stmt,
    head: Head,
    desc: TableDesc,
    own: &Seen,
) -> Result<Prog, Refusal>
    requires lent { stmt.now ≡ head.stmt }
    requires rows { is_of_rows stmt.now ≡ true }
    requires table { IsTableOf head.stmt desc }
    requires done { IsDone layout.shape.kids own.now (layout.first desc.root) }
    ensures ends { IfOk result (Ends head desc own.now) }
    ensures damaged { IfErr result (IfSaid (λ m. OfRows desc.cols desc.root own.now (λ rows. ⊥))) }
{
    let effect = effect(alloc, stmt, &desc, own)?;
    Ok(Prog {
        head,
        state: State::Writing {
            desc: Some(desc),
            queue: Queue::empty(alloc),
            reply: effect.reply,
        },
    })
}

/// With the next page of its table.
pub(crate) fn read_own(
    alloc: Global,
    stmt: &Stmt,
    head: Head,
    parts: (Scan, TableDesc, Scan),
    image: &Image,
) -> Result<Prog, Refusal>
    requires lent { stmt.now ≡ head.stmt }
    requires found { IsFoundIn head.stmt parts.0.seen parts.1 }
    requires reading { IsReading parts.2 parts.1.root }
    requires page { IsPage image.now }
    ensures takes { IfOk result (λ p. TakesOn (course_of head (State.ScanOwn parts.0 parts.1 parts.2)) p (content image.now)) }
    ensures refused { IfErr result (IfSaid (λ m. OverEach (read (content image.now) (course_of head (State.ScanOwn parts.0 parts.1 parts.2))) (λ tables. shape head.stmt tables ≡ Some m))) }
{
    let _ = head.at();
    let (zero, desc, own) = parts;
    let own = own.read(alloc, image)?;
    if own.next().is_some() {
        return Ok(Prog {
            head,
            state: State::ScanOwn { zero, desc, own },
        });
    }
    if !is_select(stmt) {
        return Ok(Prog {
            head,
            state: State::Planning { zero, desc, own },
        });
    }
    answered(alloc, stmt, head, desc, own.seen())
}
