//! A statement on tables as a program: it says what it needs next, and is fed with that.

ghost use Rattle.std.specs.Prelude.{◌≡◌, ◌+◌, ◌-◌, true, IfOk, IfErr, Some, length};
ghost use Rattle.page_fmt.specs.Content.{content, IsPage};
ghost use Rattle.plain_model.specs.Sound.{is_sound};
ghost use Rattle.plain_model.specs.Meaning.{shape};
ghost use Rattle.plain_model.specs.Free.{is_of_tables};
ghost use Rattle.step_words.specs.declared.stage.Stage.TheVariants as stages;
ghost use Rattle.stmt_course.specs.Keeping.{IsCourse};
ghost use Rattle.stmt_course.specs.Planning.{Plans};
ghost use Rattle.stmt_prog.specs.Heads.{Headed, defines_well};
ghost use Rattle.stmt_prog.specs.States.{begun, course_of, IsState};
ghost use Rattle.stmt_prog.specs.Needs.{need_of};
ghost use Rattle.stmt_prog.specs.Feeding.{first_stage, asks, locked, reads, read, OverEach, TakesOn, claimed, edited};
ghost use Rattle.stmt_prog.specs.Refusing.{IfSaid};
ghost use Rattle.stmt_prog.specs.Writing.{IsNextEdit};

use crate::creating::made;
use crate::dropping::gone;
use crate::feeding::{read_own, read_zero};
use crate::head::{Head, drops};
use crate::need::Need;
use crate::needing::need_in;
use crate::queue::NextEdit;
use crate::refusal::Refusal;
use crate::state::State;
use crate::writing::planned;
use page_base::{Image, NoMemory, PageId};
use plain_model::{Reply, Stmt};
use std::alloc::Global;
use std::marker::Model;
use step_words::DbKind;
use sys_cat::root;
use table_scan::Scan;

/// A statement on tables, as far as it is.
#[derive(Drop)]
pub struct Prog {
    pub(crate) head: Head,
    pub(crate) state: State,
}

impl Model for Prog {
    ghost use Rattle.std.specs.Coded.{codes};
    ghost use Rattle.plain_model.specs.contracts.stmt.Stmt as e;
    ghost use Rattle.step_words.specs.Courses.{Course};
    ghost use Rattle.stmt_prog.specs.States.{course_of, IsState};

    ghost Value = { Course };

    ghost coded = { Prim.hlevel (codes, e.the_row.coded) };

    ghost view = { λ p. course_of p.head p.state };

    ghost invariant = { λ p. IsState p.head p.state };
}

impl Prog {
    /// The program of a statement on tables, in a database of this kind. The statement is lent to it at each call again.
    pub fn begin(alloc: Global, stmt: &Stmt, at: DbKind) -> Result<Prog, NoMemory>
        requires tables { is_of_tables stmt.now ≡ true }
        requires sound { is_sound stmt.now ≡ true }
        requires well { defines_well stmt.now ≡ true }
        ensures { IfOk result (λ p. p ≡ record (begun (record { stmt = stmt.now; at = at })) { stage = first_stage at }) }
    {
        let head = Head::of(stmt, at);
        let zero = Scan::new(alloc, root())?;
        let state = match at {
            DbKind::Snap => State::ScanZero(zero),
            DbKind::Master | DbKind::Source => State::AskAll(zero),
        };
        Ok(Prog { head, state })
    }

    /// With the lock for which it asked. Takes no memory.
    pub fn locked(self) -> Prog
        requires { asks self.stage ≡ true }
        ensures { result ≡ locked self }
    {
        let Prog { head, state } = self;
        let state = match state {
            State::AskAll(zero) => State::ScanZero(zero),
            State::AskTable { zero, desc, own } => State::ScanOwn { zero, desc, own },
            _ => unreachable!(),
        };
        Prog { head, state }
    }

    /// What it needs next. Takes no memory.
    pub fn need(&self) -> Need
        ensures is { result ≡ need_of self.now }
        ensures course { IsCourse self.now }
    {
        need_in(&self.head, &self.state)
    }

    /// With the page that it was to read, of which this is the image. Refused by the shape of the statement once table 0 was
    /// read, and where a page is damaged, which it never is over a database.
    pub fn take(self, alloc: Global, stmt: &Stmt, image: &Image) -> Result<Prog, Refusal>
        requires lent { stmt.now ≡ self.stmt }
        requires reads { reads self.stage ≡ true }
        requires page { IsPage image.now }
        ensures takes { IfOk result (λ p. TakesOn self p (content image.now)) }
        ensures lent { IfOk result (λ p. p.stmt ≡ self.stmt) }
        ensures refused { IfErr result (IfSaid (λ m. OverEach (read (content image.now) self) (λ tables. shape self.stmt tables ≡ Some m))) }
    {
        let Prog { head, state } = self;
        match state {
            State::ScanZero(zero) => read_zero(alloc, stmt, head, zero, image),
            State::ScanOwn { zero, desc, own } => {
                read_own(alloc, stmt, head, (zero, desc, own), image)
            }
            _ => unreachable!(),
        }
    }

    /// With its claims, its edits and its reply. Refused only where a page is damaged, which it never is over a database.
    pub fn plan(self, alloc: Global, stmt: &Stmt) -> Result<Prog, Refusal>
        requires lent { stmt.now ≡ self.stmt }
        requires plans { self.stage ≡ stages.Plan }
        ensures plans { IfOk result (Plans self) }
        ensures lent { IfOk result (λ p. p.stmt ≡ self.stmt) }
        ensures refused { IfErr result (IfSaid (λ m. OverEach self (λ tables. ⊥))) }
    {
        let Prog { head, state } = self;
        match state {
            State::Planning { zero, desc, own } => {
                if drops(stmt) {
                    return gone(alloc, stmt, head, (zero, desc, own));
                }
                planned(alloc, stmt, head, (zero, desc, own))
            }
            State::Defining { zero, number } => made(alloc, stmt, head, zero, number),
            _ => unreachable!(),
        }
    }

    /// With a page claimed.
    pub fn claimed(self, page: PageId) -> Result<Prog, NoMemory>
        requires { self.stage ≡ stages.Claim }
        ensures { IfOk result (λ p. p ≡ claimed self page) }
    {
        let Prog { head, state } = self;
        match state {
            State::Writing {
                desc,
                mut queue,
                reply,
            } => {
                queue.taken.push(page)?;
                Ok(Prog {
                    head,
                    state: State::Writing { desc, queue, reply },
                })
            }
            _ => unreachable!(),
        }
    }

    /// The next edit, all pages being claimed.
    pub fn edit(&self, alloc: Global) -> Result<NextEdit, NoMemory>
        requires { self.now.stage ≡ stages.Edit }
        ensures { IfOk result (IsNextEdit self.now) }
    {
        match &self.state {
            State::Writing {
                desc: _,
                queue,
                reply: _,
            } => queue.next(alloc),
            _ => unreachable!(),
        }
    }

    /// With that edit done. Takes no memory.
    pub fn edited(self) -> Prog
        requires { self.stage ≡ stages.Edit }
        ensures { result ≡ edited self }
    {
        let Prog { head, state } = self;
        match state {
            State::Writing {
                desc,
                mut queue,
                reply,
            } => {
                queue.done += 1;
                Prog {
                    head,
                    state: State::Writing { desc, queue, reply },
                }
            }
            _ => unreachable!(),
        }
    }

    /// How many claims and edits are to come. Takes no memory.
    pub fn to_come(&self) -> usize
        ensures { result ≡ (length self.now.owners - length self.now.taken) + length self.now.edits }
    {
        match &self.state {
            State::Writing {
                desc: _,
                queue,
                reply: _,
            } => (queue.owners.len() - queue.taken.len()) + (queue.edits.len() - queue.done),
            _ => 0,
        }
    }

    /// Its reply. Takes no memory.
    pub fn reply(self) -> Reply
        requires { self.stage ≡ stages.End }
        ensures { self.reply ≡ Some result }
    {
        let Prog { head: _, state } = self;
        match state {
            State::Writing {
                desc: _,
                queue: _,
                reply,
            } => reply,
            _ => unreachable!(),
        }
    }
}
