//! What a statement that drops a table plans: the rows that tell it are cut, and its pages emptied and given back.

ghost use Rattle.std.specs.Prelude.{ℕ, ◌≡◌, ◌<◌, ◌+◌, ◌^◌, ◌++◌, ◌∷◌, [], true, pos, List, IfOk, IfErr, OnOk, All, length, map, replicate, slice_index_or};
ghost use Rattle.page_fmt.specs.Seen.{Looked, Saw, look};
ghost use Rattle.page_fmt.specs.Spelling.{FitsPage};
ghost use Rattle.sys_cat.specs.Changing.{row_key, column_keys, keys_of};
ghost use Rattle.sys_cat.specs.Lists.{IsDesc};
ghost use Rattle.sys_cat.specs.Rows.{zero_root};
ghost use Rattle.table_walk.specs.declared.plan.Spot.TheVariants.{Old};
ghost use Rattle.table_walk.specs.Answers.{IsMemory};
ghost use Rattle.table_walk.specs.Differences.{AddsPage};
ghost use Rattle.table_walk.specs.Index.{Indexes};
ghost use Rattle.table_walk.specs.Walk.{IsDone, IsSeenWalk};
ghost use Rattle.page_tables.specs.Dropping.{Empty};
ghost use Rattle.page_tables.specs.Layout as layout;
ghost use Rattle.stmt_course.specs.Defining.{release_edit};
ghost use Rattle.stmt_course.specs.Planning.{Plans};
ghost use Rattle.stmt_prog.specs.Feeding.{OverEach};
ghost use Rattle.stmt_prog.specs.Heads.{drops};
ghost use Rattle.stmt_prog.specs.Queues.{IsGoneQueue, Leaves};
ghost use Rattle.stmt_prog.specs.Reading.{OfBases, OfRows};
ghost use Rattle.stmt_prog.specs.Refusing.{IfSaid};
ghost use Rattle.stmt_prog.specs.States.{course_of, IsFoundIn};

use crate::head::Head;
use crate::layout::{Layout, first};
use crate::planning::zero_plan;
use crate::prog::Prog;
use crate::queue::Queue;
use crate::refusal::Refusal;
use crate::state::State;
use alloc_pages::{alloc_of, owner_bytes};
use page_base::{Bytes, Column, Name, NoMemory, PageId, Row, RowList, Value};
use page_fmt::Seen;
use plain_model::{Reply, Stmt};
use std::alloc::Global;
use std::collections::BTreeMap;
use sys_cat::TableDesc;
use table_scan::Scan;
use table_walk::{
    Edit, EditList, SeenRefusal, Spot, Visit, add_differences, page_index, place, walk,
};

// The key of a row of table 0.
fn key(alloc: Global, name: &Name, ord: u32) -> Result<Row, NoMemory>
    requires { ord < 2 ^ 31 }
    ensures { IfOk result (λ key. key ≡ row_key name.now ord) }
{
    let mut key = Row::new(alloc);
    key.push(Value::Text(Bytes::from(Vec::from_slice(alloc, name.bytes())?)))?;
    key.push(Value::Int(ord as i32))?;
    Ok(key)
}

// Puts the keys of the rows of columns behind others.
fn add_keys(
    alloc: Global,
    name: &Name,
    ord: u32,
    columns: &[Column],
    keys: &mut RowList,
) -> Result<(), NoMemory>
    requires { ord + length columns.now < 2 ^ 31 }
    ensures { OnOk result (keys.new ≡ keys.old ++ column_keys name.now ord columns.now) }
{
    match columns {
        [] => Ok(()),
        [_, columns @ ..] => {
            keys.push(key(alloc, name, ord)?)?;
            add_keys(alloc, name, ord + 1, columns, keys)
        }
    }
}

// The keys of the rows that tell a table.
fn keys_of(alloc: Global, desc: &TableDesc) -> Result<RowList, NoMemory>
    requires { IsDesc desc.now }
    ensures { IfOk result (λ keys. keys ≡ keys_of desc.now) }
{
    let mut keys = RowList::new(alloc);
    keys.push(key(alloc, &desc.name, 0)?)?;
    add_keys(alloc, &desc.name, 1, desc.cols.as_slice(), &mut keys)?;
    Ok(keys)
}

// The visits of a table's pages.
fn walked(alloc: Global, root: PageId, own: &Seen) -> Result<Vec<Visit>, SeenRefusal>
    requires { IsDone layout.shape.kids own.now (layout.first root) }
    ensures done { IfOk result (λ done. IsSeenWalk layout.shape.kids own.now (layout.first root) done.items []) }
    ensures memory { IfErr result IsMemory }
{
    let walked = walk(alloc, &Layout, first(root), own)?;
    Ok(walked.done)
}

// The slots of a page that was read.
fn slots_of(alloc: Global, own: &Seen, i: usize) -> Result<Vec<Bytes>, NoMemory>
    requires { i < length own.now }
    ensures are { IfOk result (λ slots. (d : Looked) → slots.items ≡ (slice_index_or own.now i d).slots) }
    ensures fits { IfOk result (λ slots. FitsPage slots.items) }
{
    let mut slots = Vec::new(alloc);
    for j in 0..own.slots(i) {
        slots.push(Bytes::from(Vec::from_slice(alloc, own.slot(i, j))?))?;
    }
    Ok(slots)
}

// Puts behind others the edits that empty a page that was read.
fn empty_page(
    alloc: Global,
    page: PageId,
    places: &BTreeMap<PageId, usize>,
    own: &Seen,
    edits: &mut EditList,
) -> Result<(), NoMemory>
    requires places { Indexes places.now own.now }
    requires saw { Saw own.now page }
    ensures { OnOk result (AddsPage (Old page) (look own.now page) [] edits.old edits.new) }
{
    let i = place(places, own, page).unwrap();
    let old = slots_of(alloc, own, i)?;
    add_differences(alloc, Spot::Old(page), old.as_slice(), &[], edits)
}

// The edits that empty the pages of a walk, page by page.
fn empties(alloc: Global, done: &[Visit], own: &Seen) -> Result<EditList, NoMemory>
    requires { All (λ v. Saw own.now v.page) done.now }
    ensures { IfOk result (Empty (look own.now) (map (λ v. v.page) done.now)) }
{
    let places = page_index(alloc, own)?;
    let mut edits = EditList::new(alloc);
    for visit in done {
        empty_page(alloc, visit.page, &places, own, &mut edits)?;
    }
    Ok(edits)
}

// The edit that gives a page back.
fn release(alloc: Global, page: PageId) -> Result<Edit, NoMemory>
    ensures { IfOk result (λ e. e ≡ release_edit page) }
{
    let spot = alloc_of(page);
    Ok(Edit {
        spot: Spot::Old(spot.page),
        slot: spot.slot,
        names: None,
        bytes: Bytes::from(Vec::from_slice(alloc, &owner_bytes(0))?),
        of_row: false,
    })
}

// The edits that give the pages of a walk back.
fn releases(alloc: Global, done: &[Visit]) -> Result<EditList, NoMemory>
    ensures { IfOk result (λ edits. edits ≡ map release_edit (map (λ v. v.page) done.now)) }
{
    let mut edits = EditList::new(alloc);
    for visit in done {
        edits.push(release(alloc, visit.page)?)?;
    }
    Ok(edits)
}

// The edits that empty the pages of a walk and give them back.
fn leave(alloc: Global, done: &[Visit], own: &Seen) -> Result<Vec<Edit>, NoMemory>
    requires { All (λ v. Saw own.now v.page) done.now }
    ensures { IfOk result (λ edits. Leaves (look own.now) (map (λ v. v.page) done.now) edits.items) }
{
    let mut edits = empties(alloc, done, own)?.into_vec();
    let mut releases = releases(alloc, done)?.into_vec();
    edits.append(&mut releases)?;
    Ok(edits)
}

// The claims and edits that drop a table.
fn queue_of(alloc: Global, desc: &TableDesc, zero: &Seen, own: &Seen) -> Result<Queue, Refusal>
    requires desc { IsDesc desc.now }
    requires zero { IsDone layout.shape.kids zero.now (layout.first zero_root) }
    requires own { IsDone layout.shape.kids own.now (layout.first desc.now.root) }
    ensures queue { IfOk result (IsGoneQueue desc.now zero.now own.now) }
    ensures damaged { IfErr result (IfSaid (λ m. OfBases zero.now (λ ds tables. ⊥))) }
{
    let done = walked(alloc, desc.root, own)?;
    let mut leaving = leave(alloc, done.as_slice(), own)?;
    let keys = keys_of(alloc, desc)?;
    let plan = zero_plan(alloc, &keys, &RowList::new(alloc), zero)?;
    let mut edits = plan.edits.into_vec();
    edits.append(&mut leaving)?;
    Ok(Queue {
        owners: vec![in alloc; 0; plan.new_pages as usize]?,
        taken: Vec::new(alloc),
        edits,
        done: 0,
        told: None,
    })
}

/// The claims, the edits and the reply of a statement that drops its table, which it has read.
pub(crate) fn gone(
    alloc: Global,
    stmt: &Stmt,
    head: Head,
    parts: (Scan, TableDesc, Scan),
) -> Result<Prog, Refusal>
    requires lent { stmt.now ≡ head.stmt }
    requires drops { drops stmt.now ≡ true }
    requires found { IsFoundIn head.stmt parts.0.seen parts.1 }
    requires done { IsDone layout.shape.kids parts.2.seen (layout.first parts.1.root) }
    ensures plans { IfOk result (Plans (course_of head (State.Planning parts.0 parts.1 parts.2))) }
    ensures damaged { IfErr result (IfSaid (λ m. OverEach (course_of head (State.Planning parts.0 parts.1 parts.2)) (λ tables. ⊥))) }
{
    let (zero, desc, own) = parts;
    let queue = queue_of(alloc, &desc, zero.seen(), own.seen())?;
    Ok(Prog {
        head,
        state: State::Writing {
            desc: Some(desc),
            queue,
            reply: Reply::Ok,
        },
    })
}
