//! Children in order of their least keys, by an ordered map, so that a page of many children takes no square of time.

ghost use Rattle.std.specs.Prelude.{◌≡◌, map, IfOk};
ghost use Rattle.tree_laws.specs.Kids.{sorted};
ghost use Rattle.key_tree.specs.Sorting.{child_in};

use page_base::{NoMemory, PageId, Row};
use std::alloc::Global;
use std::collections::BTreeMap;
use tree_laws::Child;

// Children by their least keys and, where these are the same, by their places: their pages, and the slots that name them.
type ByLeast = BTreeMap<(Option<Row>, usize), (PageId, u16)>;

// The children by their least keys.
fn by_least(alloc: Global, children: Vec<Child>) -> Result<ByLeast, NoMemory>
    ensures { IfOk result (λ by. map child_in by.entries ≡ sorted children.items) }
{
    let mut by = BTreeMap::new(alloc);
    let mut left = children;
    while let Some(child) = left.pop() {
        by.insert((child.least, left.len()), (child.page, child.slot))?;
    }
    Ok(by)
}

// Children in order of their least keys, the one of the earlier slot first where two are the same.
pub(crate) fn sorted(alloc: Global, children: Vec<Child>) -> Result<Vec<Child>, NoMemory>
    ensures { IfOk result (λ v. v.items ≡ sorted children.items) }
{
    let mut sorted = Vec::new(alloc);
    for ((least, _), (page, slot)) in by_least(alloc, children)? {
        sorted.push(Child { least, page, slot })?;
    }
    Ok(sorted)
}
