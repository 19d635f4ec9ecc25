//! Which children a walk goes on to: all, or the one that may hold a key.

ghost use Rattle.std.specs.Prelude.{◌≡◌, Some, map, IfOk};
ghost use Rattle.tree_laws.specs.Kids.{may_hold, may_be, wanted, visit_of};

use page_base::{NoMemory, PageId, Row};
use std::alloc::Global;
use table_walk::Visit;
use tree_laws::Child;

// Whether a page may have a level that was read: that of its visit, or any from 1 on.
pub(crate) fn may_be(level: Option<u32>, found: u32) -> bool
    ensures { result ≡ may_be level found }
{
    if found == 0 {
        return false;
    }
    match level {
        None => true,
        Some(level) => level == found,
    }
}

// Whether a child may hold a key, if its neighbour behind it doesn't.
fn may_hold(key: &Row, child: &Child) -> bool
    ensures { result ≡ may_hold key.now child.now }
{
    match &child.least {
        None => true,
        Some(least) => least.cmp(key).is_le(),
    }
}

// Of children in key order the one for a key, if there are any.
fn one_for<'a>(key: &Row, children: &'a [Child]) -> &'a [Child]
    ensures { result.now ≡ wanted (Some key.now) children.now }
{
    if children.is_empty() {
        return children;
    }
    let mut at = 0;
    while at + 1 < children.len() && may_hold(key, &children[at + 1]) {
        at += 1;
    }
    &children[at..at + 1]
}

// The children that are asked for: all, or the one for a key.
pub(crate) fn wanted<'a>(key: &Option<Row>, children: &'a [Child]) -> &'a [Child]
    ensures { result.now ≡ wanted key.now children.now }
{
    match key {
        None => children,
        Some(key) => one_for(key, children),
    }
}

// The visits of children, which have this level.
pub(crate) fn visits_of(
    alloc: Global,
    from: PageId,
    level: u32,
    children: &[Child],
) -> Result<Vec<Visit>, NoMemory>
    ensures { IfOk result (λ v. v.items ≡ map (visit_of from level) children.now) }
{
    let mut visits = Vec::new(alloc);
    for child in children {
        visits.push(Visit {
            page: child.page,
            from,
            slot: child.slot,
            level: Some(level),
        })?;
    }
    Ok(visits)
}
