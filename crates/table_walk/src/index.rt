//! The place of each page that was read, so that a walk looks no page up by going over all.

ghost use Rattle.std.specs.Prelude.{◌≡◌, ◌<◌, IfOk, IfSome, IfNone, length};
ghost use Rattle.page_fmt.specs.Seen.{place_of};
ghost use Rattle.table_walk.specs.Index.{Indexes, place_in};

use page_base::{NoMemory, PageId};
use page_fmt::Seen;
use std::alloc::Global;
use std::collections::BTreeMap;

/// The first place of each page.
pub fn page_index(alloc: Global, seen: &Seen) -> Result<BTreeMap<PageId, usize>, NoMemory>
    ensures { IfOk result (λ places. Indexes places seen.now) }
{
    let mut places = BTreeMap::new(alloc);
    for i in 0..seen.len() {
        let page = seen.page(i);
        if places.contains_key(&page) {
            continue;
        }
        places.insert(page, i)?;
    }
    Ok(places)
}

/// The place of a page, if it was read. Takes no memory.
pub fn place(places: &BTreeMap<PageId, usize>, seen: &Seen, page: PageId) -> Option<usize>
    requires { Indexes places.now seen.now }
    ensures some { IfSome result (λ i. i ≡ place_of seen.now page) }
    ensures there { IfSome result (λ i. i < length seen.now) }
    ensures none { IfNone result (place_of seen.now page ≡ length seen.now) }
{
    places.get(&page).copied()
}
