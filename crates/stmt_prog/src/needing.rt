//! What a program needs next, by how far it is.

ghost use Rattle.std.specs.Prelude.{◌≡◌, Some};
ghost use Rattle.stmt_course.specs.Keeping.{IsCourse};
ghost use Rattle.stmt_prog.specs.Needs.{need_of};
ghost use Rattle.stmt_prog.specs.States.{course_of, IsState};

use crate::head::Head;
use crate::need::Need;
use crate::state::State;
use page_base::{Mode, TableNo};
use plain_model::LockName;
use table_walk::is_leaf;

/// What a program needs next.
pub(crate) fn need_in(head: &Head, state: &State) -> Need
    requires { IsState head.now state.now }
    ensures is { result ≡ need_of (course_of head.now state.now) }
    ensures course { IsCourse (course_of head.now state.now) }
{
    let _ = head.at();
    match state {
        State::AskAll(_) => Need::Lock {
            table: LockName::All,
            number: TableNo(0),
            mode: head.first(),
        },
        State::ScanZero(zero) => Need::Visit {
            page: zero.next().unwrap().page,
            rows: false,
        },
        State::AskTable {
            zero: _,
            desc,
            own: _,
        } => Need::Lock {
            table: LockName::Table(desc.name),
            number: desc.number,
            mode: head.second().unwrap_or(Mode::S),
        },
        State::ScanOwn {
            zero: _,
            desc: _,
            own,
        } => {
            let visit = own.next().unwrap();
            Need::Visit {
                page: visit.page,
                rows: is_leaf(visit),
            }
        }
        State::Planning {
            zero: _,
            desc: _,
            own: _,
        } => Need::Plan,
        State::Defining { zero: _, number: _ } => Need::Plan,
        State::Writing {
            desc: _,
            queue,
            reply: _,
        } => queue.need(),
    }
}
