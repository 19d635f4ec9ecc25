//! Which pages a page of a heap names.

ghost use Rattle.std.specs.Prelude.{option_to_list, ◌≡◌, ◌↔◌, ◌<◌, ◌∷◌, [], true, Bool, List, IfOk, IfErr, Ok, Err, length, drop, slice_index_or};
ghost use Rattle.std.specs.FinMap as finite;
ghost use Rattle.page_base.specs.declared.column.Column.{Column};
ghost use Rattle.page_base.specs.declared.numbers.PageId.{PageId};
ghost use Rattle.page_fmt.specs.Seen.{Looked, SlotsAt};
ghost use Rattle.table_walk.specs.Answers.{IsOn};
ghost use Rattle.table_heap.specs.Heap as spec;

use page_base::PageId;
use page_fmt::Seen;
use std::alloc::Global;
use table_walk::{Layout, SeenRefusal, Visit, is_leaf, names_none, page_at};

/// The layout of a heap, for who walks a heap page by page.
#[derive(Clone, Copy, Debug, PartialEq, Eq)]
pub struct Heap;

// The leaves that a root page names.
fn leaf_visits(
    alloc: Global,
    from: PageId,
    seen: &Seen,
    i: usize,
) -> Result<Vec<Visit>, SeenRefusal>
    requires { i < length seen.now }
    ensures ok { IfOk result (λ v. (d : Looked) → spec.leaf_visits from 1 (drop 1 (slice_index_or seen.now i d).slots) ≡ Ok v.items) }
    ensures bad { IfErr result (IsOn from (λ slot. (d : Looked) → spec.leaf_visits from 1 (drop 1 (slice_index_or seen.now i d).slots) ≡ Err slot)) }
{
    let mut leaves = Vec::new(alloc);
    for j in 1..seen.slots(i) {
        match page_at(seen.slot(i, j)) {
            Some(page) => leaves.push(Visit {
                page,
                from,
                slot: j,
                level: Some(0),
            })?,
            None => return Err(SeenRefusal::Damaged {
                page: from,
                slot: j,
            }),
        }
    }
    Ok(leaves)
}

// The next root page, where one is named.
fn next_visit(from: PageId, count: u16, bytes: &[u8]) -> Result<Option<Visit>, SeenRefusal>
    ensures ok { IfOk result (λ o. spec.next_visits from count bytes.now ≡ Ok (option_to_list o)) }
    ensures bad { IfErr result (IsOn from (λ slot. spec.next_visits from count bytes.now ≡ Err slot)) }
{
    if names_none(bytes) {
        return Ok(None);
    }
    if count != 1001 {
        return Err(SeenRefusal::Damaged {
            page: from,
            slot: 0,
        });
    }
    match page_at(bytes) {
        Some(page) => Ok(Some(Visit {
            page,
            from,
            slot: 0,
            level: Some(1),
        })),
        None => Err(SeenRefusal::Damaged {
            page: from,
            slot: 0,
        }),
    }
}

// The leaves that a root page names, and the next root page.
fn root_kids(alloc: Global, from: PageId, seen: &Seen, i: usize) -> Result<Vec<Visit>, SeenRefusal>
    requires { i < length seen.now }
    ensures ok { IfOk result (λ v. (d : Looked) → spec.root_kids from (slice_index_or seen.now i d).slots ≡ Ok v.items) }
    ensures bad { IfErr result (IsOn from (λ slot. (d : Looked) → spec.root_kids from (slice_index_or seen.now i d).slots ≡ Err slot)) }
{
    let count = seen.slots(i);
    if count == 0 {
        return Err(SeenRefusal::Damaged {
            page: from,
            slot: 0,
        });
    }
    if count > 1001 {
        return Err(SeenRefusal::Damaged {
            page: from,
            slot: 1001,
        });
    }
    let mut kids = leaf_visits(alloc, from, seen, i)?;
    match next_visit(from, count, seen.slot(i, 0))? {
        Some(visit) => kids.push(visit)?,
        None => {}
    }
    Ok(kids)
}

impl Layout for Heap {
    ghost kids = { λ h. spec.heap_kids };

    fn kids(
        &self,
        alloc: Global,
        visit: Visit,
        seen: &Seen,
        i: usize,
    ) -> Result<Vec<Visit>, SeenRefusal> {
        if is_leaf(visit) {
            return Ok(Vec::new(alloc));
        }
        root_kids(alloc, visit.page, seen, i)
    }
}

/// The bytes of slot 0 of a new root page, which by itself is a heap of no rows. Takes no memory.
pub fn new_root() -> [u8; 5]
    ensures { (cols : List Column) (at : SlotsAt) (owns : PageId → Bool) (root : PageId) → at root ≡ result ∷ [] → ((p : PageId) → (owns p ≡ true) ↔ (p ≡ root)) → spec.RowsAt cols at owns root finite.empty }
{
    [0, 0, 0, 0, 0]
}
