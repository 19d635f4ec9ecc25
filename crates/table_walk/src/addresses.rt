//! The addresses of pages in slots.

ghost use Rattle.std.specs.Prelude.{◌≡◌, ◌==◌, ◌&&◌};
ghost use Rattle.table_walk.specs.Addresses as spec;

use byte_fields::page_in;
use page_base::PageId;

fn is_zero(page: PageId) -> bool
    ensures { result ≡ (page.file == 0 && page.page == 0) }
{
    page.file == 0 && page.page == 0
}

/// The page that these bytes name; None exactly where they are no address. Takes no memory.
pub fn page_at(bytes: &[u8]) -> Option<PageId>
    ensures { result ≡ spec.page_at bytes.now }
{
    if bytes.len() != 5 {
        return None;
    }
    let page = page_in(bytes);
    if is_zero(page) {
        return None;
    }
    Some(page)
}

/// Whether these bytes are five zeros. Takes no memory.
pub fn names_none(bytes: &[u8]) -> bool
    ensures { result ≡ spec.names_none bytes.now }
{
    bytes.len() == 5 && is_zero(page_in(bytes))
}
