//! Which pages a page of a tree names.

ghost use Rattle.std.specs.Prelude.{◌≡◌, ◌≤◌, ◌<◌, None, Some, Ok, Err, IfOk, IfErr, length, slice_index_or};
ghost use Rattle.page_fmt.specs.Seen.{Looked};
ghost use Rattle.table_walk.specs.Answers.{IsOn};
ghost use Rattle.tree_laws.specs.Kids as spec;

use crate::chosen::{may_be, visits_of, wanted};
use crate::entries::{level_of, named};
use crate::sorting::sorted;
use page_base::{Columns, PageId, Row};
use page_fmt::Seen;
use std::alloc::Global;
use std::marker::Model;
use table_walk::{Layout, SeenRefusal, Visit, is_leaf};
use tree_laws::Child;

// The layout of a tree with these key columns, over all its pages, or over those for one key.
#[derive(Drop)]
pub(crate) struct Tree {
    keys: Columns,
    key: Option<Row>,
}

impl Model for Tree {
    ghost use Rattle.std.specs.Prelude.{◌≤◌, length};
    ghost use Rattle.key_tree.specs.Seek.{Seek};

    ghost Value = { Seek };

    ghost view = { λ t. record { keys = t.keys; key = t.key } };

    ghost invariant = { λ t. length t.keys ≤ 255 };
}

// The children that a page names, in key order; or the first slot that names none.
fn children(
    alloc: Global,
    keys: &Columns,
    from: PageId,
    seen: &Seen,
    i: usize,
) -> Result<Vec<Child>, SeenRefusal>
    requires few { length keys.now ≤ 255 }
    requires there { i < length seen.now }
    ensures ok { IfOk result (λ v. (d : Looked) → spec.children keys.now (slice_index_or seen.now i d).slots ≡ Ok v.items) }
    ensures bad { IfErr result (IsOn from (λ slot. (d : Looked) → spec.children keys.now (slice_index_or seen.now i d).slots ≡ Err slot)) }
{
    let children = named(alloc, keys, from, seen, i)?;
    Ok(sorted(alloc, children)?)
}

// The children of a page that isn't a leaf: its level fits its visit, and only one of level 1 has none.
fn node(
    alloc: Global,
    keys: &Columns,
    visit: Visit,
    seen: &Seen,
    i: usize,
) -> Result<Vec<Child>, SeenRefusal>
    requires few { length keys.now ≤ 255 }
    requires there { i < length seen.now }
    ensures ok { IfOk result (λ v. (d : Looked) → spec.node keys.now visit.level (slice_index_or seen.now i d).slots ≡ Ok v.items) }
    ensures level { IfOk result (λ v. (d : Looked) → 1 ≤ spec.level_of (slice_index_or seen.now i d).slots) }
    ensures bad { IfErr result (IsOn visit.page (λ slot. (d : Looked) → spec.node keys.now visit.level (slice_index_or seen.now i d).slots ≡ Err slot)) }
{
    let level = level_of(seen, i);
    if !may_be(visit.level, level) {
        return Err(SeenRefusal::Damaged {
            page: visit.page,
            slot: 0,
        });
    }
    let children = children(alloc, keys, visit.page, seen, i)?;
    if children.is_empty() && level != 1 {
        return Err(SeenRefusal::Damaged {
            page: visit.page,
            slot: 0,
        });
    }
    Ok(children)
}

impl Tree {
    // Over all pages.
    pub(crate) fn whole(keys: Columns) -> Self
        requires { length keys ≤ 255 }
        ensures { result ≡ record { keys = keys; key = None } }
    {
        Tree { keys, key: None }
    }

    // Over the pages for a key from now on.
    pub(crate) fn look_for(&mut self, key: Row)
        ensures { self.new ≡ record { keys = self.old.keys; key = Some key } }
    {
        self.key = Some(key);
    }

    // The visits of the children that are asked for.
    fn visits(
        &self,
        alloc: Global,
        visit: Visit,
        seen: &Seen,
        i: usize,
    ) -> Result<Vec<Visit>, SeenRefusal>
        requires { i < length seen.now }
        ensures ok { IfOk result (λ v. (d : Looked) → spec.visits self.now.key visit.page (spec.level_of (slice_index_or seen.now i d).slots) (spec.node self.now.keys visit.level (slice_index_or seen.now i d).slots) ≡ Ok v.items) }
        ensures bad { IfErr result (IsOn visit.page (λ slot. (d : Looked) → spec.visits self.now.key visit.page (spec.level_of (slice_index_or seen.now i d).slots) (spec.node self.now.keys visit.level (slice_index_or seen.now i d).slots) ≡ Err slot)) }
    {
        let children = node(alloc, &self.keys, visit, seen, i)?;
        let level = level_of(seen, i) - 1;
        Ok(visits_of(
            alloc,
            visit.page,
            level,
            wanted(&self.key, children.as_slice()),
        )?)
    }
}

impl Layout for Tree {
    ghost kids = { λ t. spec.kids_by t.keys t.key };

    fn kids(
        &self,
        alloc: Global,
        visit: Visit,
        seen: &Seen,
        i: usize,
    ) -> Result<Vec<Visit>, SeenRefusal> {
        if is_leaf(visit) {
            return Ok(Vec::new(alloc));
        }
        self.visits(alloc, visit, seen, i)
    }
}
