//! The walk over a table's pages: a layout says which pages a page names, and the walk is the same for all.

ghost use Rattle.std.specs.Prelude.{◌≡◌, ◌<◌, [], IfOk, IfErr, MatchOption, Ok, Err, length, slice_index_or};
ghost use Rattle.page_fmt.specs.Seen.{Looked};
ghost use Rattle.table_walk.specs.Walk.{Kids, IsSeenWalk, Lacks, IsBad};
ghost use Rattle.table_walk.specs.Answers.{Tells, IsAt, IsOn};
ghost use Rattle.table_walk.specs.Index.{Indexes};

use crate::find::Wants;
use crate::index::{page_index, place};
use crate::refusal::SeenRefusal;
use crate::visit::{Visit, is_leaf};
use page_base::PageId;
use page_fmt::Seen;
use std::alloc::Global;
use std::collections::BTreeMap;

/// Which pages a page of a table names.
pub trait Layout {
    ghost kids: { Self → Kids };

    /// The pages that the page of a visit names, which was read at place `i`, in order; or the first slot that names none.
    fn kids(
        &self,
        alloc: Global,
        visit: Visit,
        seen: &Seen,
        i: usize,
    ) -> Result<Vec<Visit>, SeenRefusal>
        requires there { i < length seen.now }
        ensures ok { IfOk result (λ v. (d : Looked) → kids self.now visit (slice_index_or seen.now i d).slots ≡ Ok v.items) }
        ensures bad { IfErr result (IsOn visit.page (λ slot. (d : Looked) → kids self.now visit (slice_index_or seen.now i d).slots ≡ Err slot)) };
}

/// The pages that a walk came to, and the next one where it wasn't read.
#[derive(Drop)]
pub struct Walked {
    pub done: Vec<Visit>,
    pub lacks: Option<Visit>,
}

/// Walks over what was read, of which `places` has the place of each page. Damaged exactly names a slot that is no
/// address, or that of a page already come to.
pub fn walk_with<L: Layout>(
    alloc: Global,
    layout: &L,
    start: Visit,
    places: &BTreeMap<PageId, usize>,
    seen: &Seen,
) -> Result<Walked, SeenRefusal>
    requires { Indexes places.now seen.now }
    ensures done { IfOk result (λ w. MatchOption w.lacks (IsSeenWalk (L.kids layout.now) seen.now start w.done.items []) (λ v. Lacks (L.kids layout.now) seen.now start v)) }
    ensures bad { IfErr result (IsAt (IsBad (L.kids layout.now) seen.now start)) }
{
    let mut done = Vec::new(alloc);
    let mut marked = vec![in alloc; false; seen.len()]?;
    let mut todo = Vec::new(alloc);
    todo.push(start)?;
    while let Some(visit) = todo.pop() {
        let Some(i) = place(places, seen, visit.page) else {
            return Ok(Walked {
                done,
                lacks: Some(visit),
            });
        };
        if marked[i] {
            return Err(SeenRefusal::Damaged {
                page: visit.from,
                slot: visit.slot,
            });
        }
        marked[i] = true;
        let mut next = layout.kids(alloc, visit, seen, i)?;
        done.push(visit)?;
        next.reverse();
        todo.append(&mut next)?;
    }
    Ok(Walked { done, lacks: None })
}

/// Walks over what was read. Damaged exactly names a slot that is no address, or that of a page already come to.
pub fn walk<L: Layout>(
    alloc: Global,
    layout: &L,
    start: Visit,
    seen: &Seen,
) -> Result<Walked, SeenRefusal>
    ensures done { IfOk result (λ w. MatchOption w.lacks (IsSeenWalk (L.kids layout.now) seen.now start w.done.items []) (λ v. Lacks (L.kids layout.now) seen.now start v)) }
    ensures bad { IfErr result (IsAt (IsBad (L.kids layout.now) seen.now start)) }
{
    let places = page_index(alloc, seen)?;
    walk_with(alloc, layout, start, &places, seen)
}

/// The next page to read, and whether it holds rows; or that all was read.
pub fn wants_of<L: Layout>(
    alloc: Global,
    layout: &L,
    start: Visit,
    seen: &Seen,
) -> Result<Wants, SeenRefusal>
    ensures tells { IfOk result (Tells (L.kids layout.now) seen.now start) }
    ensures bad { IfErr result (IsAt (IsBad (L.kids layout.now) seen.now start)) }
{
    let walked = walk(alloc, layout, start, seen)?;
    match walked.lacks {
        Some(visit) => Ok(Wants::Page {
            page: visit.page,
            rows: is_leaf(visit),
        }),
        None => Ok(Wants::Done),
    }
}
