//! The claims and the edits of a plan, and how many of them were done.

ghost use Rattle.table_walk.specs.declared.plan.Edit.{Edit};
ghost use Rattle.std.specs.Prelude.{◌≡◌, ◌<◌, ◌≤◌, [], IfOk, IfSome, IfNone, length, slice_index_or};
ghost use Rattle.step_words.specs.Courses.{Course, Plain, Root};
ghost use Rattle.stmt_course.specs.Keeping.{IsDraftBelow};
ghost use Rattle.sys_cat.specs.Lists.{IsDesc};
ghost use Rattle.stmt_prog.specs.Drafts.{draft_at};
ghost use Rattle.stmt_course.specs.Planning.{stage_for};
ghost use Rattle.stmt_prog.specs.Needs.{need_at};
ghost use Rattle.stmt_prog.specs.States.{drafts, IsQueue};
ghost use Rattle.stmt_prog.specs.Writing.{taken_in, Spells};
ghost use Rattle.table_walk.specs.Plans as plans;
ghost use Rattle.table_walk.specs.Plans.{SpotBelow, NameBelow, IsBelow};

use crate::need::Need;
use crate::telling::row_told;
use page_base::{Bytes, NoMemory, PageId};
use std::alloc::Global;
use sys_cat::TableDesc;
use table_walk::{Edit, Spot, address};

/// The edit at this place writes the row that tells a new table, whose root is the page that is claimed with this number.
#[derive(Debug, Drop)]
pub(crate) struct Telling {
    pub at: usize,
    pub desc: TableDesc,
    pub new: u32,
}

/// For which tables pages are claimed, by number, and those that were; the edits, and how many were done.
#[derive(Debug, Drop)]
pub(crate) struct Queue {
    pub owners: Vec<u32>,
    pub taken: Vec<PageId>,
    pub edits: Vec<Edit>,
    pub done: usize,
    pub told: Option<Telling>,
}

/// The bytes that a slot of a page gets.
#[derive(Debug, Drop)]
pub struct NextEdit {
    pub page: PageId,
    pub slot: u16,
    pub bytes: Bytes,
}

// The page of an edit, all pages being claimed.
fn place(spot: Spot, taken: &[PageId]) -> PageId
    requires { SpotBelow (length taken.now) spot }
    ensures { result ≡ plans.place (taken_in taken.now) spot }
{
    match spot {
        Spot::Old(page) => page,
        Spot::New(i) => taken[i as usize],
    }
}

// The address of the page that is named, if one is.
fn named(alloc: Global, names: Option<u32>, taken: &[PageId]) -> Result<Vec<u8>, NoMemory>
    requires { NameBelow (length taken.now) names }
    ensures { IfOk result (λ bytes. bytes.items ≡ plans.named (taken_in taken.now) names) }
{
    match names {
        None => Ok(Vec::new(alloc)),
        Some(i) => Ok(Vec::from_slice(alloc, &address(taken[i as usize]))?),
    }
}

// An edit, all pages being claimed.
fn spelled(alloc: Global, edit: &Edit, taken: &[PageId]) -> Result<NextEdit, NoMemory>
    requires { IsBelow (length taken.now) edit.now }
    ensures { IfOk result (Spells taken.now (Plain edit.now)) }
{
    let mut bytes = named(alloc, edit.names, taken)?;
    bytes.extend_from_slice(edit.bytes.as_slice())?;
    Ok(NextEdit {
        page: place(edit.spot, taken),
        slot: edit.slot,
        bytes: Bytes::from(bytes),
    })
}

// An edit that tells a new table, all pages being claimed.
fn told(
    alloc: Global,
    edit: &Edit,
    telling: &Telling,
    taken: &[PageId],
) -> Result<NextEdit, NoMemory>
    requires below { IsDraftBelow (length taken.now) (Root edit.now telling.now.desc telling.now.new) }
    requires desc { IsDesc telling.now.desc }
    ensures { IfOk result (Spells taken.now (Root edit.now telling.now.desc telling.now.new)) }
{
    Ok(NextEdit {
        page: place(edit.spot, taken),
        slot: edit.slot,
        bytes: row_told(alloc, &telling.desc, taken[telling.new as usize])?,
    })
}

impl Queue {
    /// Nothing to claim or to edit. Takes no memory.
    pub(crate) fn empty(alloc: Global) -> Queue
        ensures owners { result.owners.items ≡ [] }
        ensures taken { result.taken.items ≡ [] }
        ensures edits { result.edits.items ≡ [] }
        ensures done { result.done ≡ 0 }
        ensures told { result.told ≡ None }
    {
        Queue {
            owners: Vec::new(alloc),
            taken: Vec::new(alloc),
            edits: Vec::new(alloc),
            done: 0,
            told: None,
        }
    }

    /// What comes next: a claim, an edit, or nothing.
    pub(crate) fn need(&self) -> Need
        requires { IsQueue self.now }
        ensures { (c : Course) → c.owners ≡ self.now.owners.items → c.taken ≡ self.now.taken.items → c.edits ≡ drafts self.now → result ≡ need_at (stage_for c.owners c.taken c.edits) c }
    {
        if self.taken.len() < self.owners.len() {
            return Need::Claim {
                owner: self.owners[self.taken.len()] + 1,
            };
        }
        match self.next_page() {
            Some(page) => Need::Edit { page },
            None => Need::Finish,
        }
    }

    /// The page of the next edit, all pages being claimed; None where all edits were done.
    pub(crate) fn next_page(&self) -> Option<PageId>
        requires queue { IsQueue self.now }
        requires taken { length self.now.taken.items ≡ length self.now.owners.items }
        ensures some { IfSome result (λ page. (e : Edit) → self.now.done < length self.now.edits.items → e ≡ slice_index_or self.now.edits.items self.now.done e → page ≡ plans.place (taken_in self.now.taken.items) e.spot) }
        ensures there { IfSome result (λ page. self.now.done < length self.now.edits.items) }
        ensures none { IfNone result (length self.now.edits.items ≤ self.now.done) }
    {
        if self.edits.len() <= self.done {
            return None;
        }
        Some(place(self.edits[self.done].spot, self.taken.as_slice()))
    }

    /// The next edit, all pages being claimed.
    pub(crate) fn next(&self, alloc: Global) -> Result<NextEdit, NoMemory>
        requires queue { IsQueue self.now }
        requires taken { length self.now.taken.items ≡ length self.now.owners.items }
        requires some { self.now.done < length self.now.edits.items }
        ensures { IfOk result (λ e. (d : Edit) → Spells self.now.taken.items (draft_at self.now.told self.now.done (slice_index_or self.now.edits.items self.now.done d)) e) }
    {
        let edit = &self.edits[self.done];
        let taken = self.taken.as_slice();
        match &self.told {
            None => spelled(alloc, edit, taken),
            Some(telling) => {
                if self.done == telling.at {
                    return told(alloc, edit, telling, taken);
                }
                spelled(alloc, edit, taken)
            }
        }
    }
}
