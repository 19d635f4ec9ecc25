//! Fetches of pages that are in memory.

use crate::pages::{source, visit};
use page_base::{MAX_FRAMES, PageId};
use std::alloc::Global;

/// Fetches so often one of the first pages, each in its turn, as many as there are frames. How often that was, or nothing
/// where there are no or too many frames, or no memory.
pub fn fetches(alloc: Global, frames: u32, calls: u32) -> Option<u32> {
    if frames == 0 || frames > MAX_FRAMES {
        return None;
    }
    let mut pages = source(alloc, frames)?;
    for i in 0..calls {
        let p = PageId {
            file: 0,
            page: i % frames,
        };
        visit(alloc, &mut pages, p).ok()?;
    }
    Some(calls)
}
