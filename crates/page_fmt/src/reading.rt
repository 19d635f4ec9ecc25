//! The slots of a page.

ghost use Rattle.std.specs.Prelude.{◌≡◌, ◌≤◌, ◌-◌, ◌*◌, [], length, slice_index_or};
ghost use Rattle.page_fmt.specs.Content.{content, offsets_at, next_start, row_end};

use crate::numbers::number;
use page_base::Image;

/// Where the next slot that isn't empty begins, from slot `from` on, or where the rows end.
pub(crate) fn next_row(page: &[u8], from: u16, count: u16) -> usize
    requires size { length page.now ≡ 8192 }
    requires order { from ≤ count }
    ensures { result ≡ next_start (row_end page.now) (offsets_at page.now (8190 - 2 * from) (count - from)) }
{
    for i in from..count {
        let start = number(page, 8190usize.saturating_sub(2 * i as usize));
        if start != 0 {
            return start as usize;
        }
    }
    96 + number(page, 2) as usize
}

/// How many slots the page has.
pub fn slots(image: &Image) -> u16
    ensures { result ≡ length (content image.now) }
{
    number(image.bytes(), 0)
}

/// The bytes of a slot, empty where it is empty or past the count.
pub fn slot(image: &Image, i: u16) -> &[u8]
    ensures { result.now ≡ slice_index_or (content image.now) i [] }
{
    let page = image.bytes();
    let count = number(page, 0);
    if i >= count {
        return &[];
    }
    let start = number(page, 8190usize.saturating_sub(2 * i as usize)) as usize;
    if start == 0 {
        return &[];
    }
    let end = next_row(page, i + 1, count).min(page.len());
    &page[start.min(end)..end]
}
