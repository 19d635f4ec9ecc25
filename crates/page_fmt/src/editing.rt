//! Edits of one slot, in place: the rows behind it move, and their offsets with them.

ghost use Rattle.std.specs.Prelude.{◌≡◌, ◌+◌, ◌-◌, ◌*◌, ◌<◌, ◌≤◌, ◌++◌, ◌∷◌, ◌↔◌, IsTrue, [], List, ℕ, length, map, take, slice_set, slice_index_or};
ghost use Rattle.page_base.specs.declared.limits.TheConstants.{MAX_SLOTS};
ghost use Rattle.page_fmt.specs.Spelling.{spell, used, row_bytes, table};
ghost use Rattle.page_fmt.specs.Content.{content};
ghost use Rattle.page_fmt.specs.Edits.{set_slot, trimmed, cleared};
ghost use Rattle.page_fmt.specs.Places.{zeros, moved, offset_of, start_of, IsSpelled, IsPlace};

use crate::moving::move_offsets;
use crate::numbers::{number, write_number};
use crate::reading::next_row;
use crate::splicing::replace_front;

// Where a slot lies: from `start` to `stop`; where the rows end, and where the offsets begin.
struct Place {
    start: usize,
    stop: usize,
    end: usize,
    limit: usize,
}

// Where a slot that isn't empty begins, and any slot before it ends; the slot is 0 bytes long where its offset is 0.
fn start_of(offset: u16, stop: usize) -> usize
    ensures { result ≡ start_of offset stop }
{
    if offset == 0 { stop } else { offset as usize }
}

// Where a slot lies.
fn place_of(page: &[u8], i: u16) -> Place
    requires page { IsSpelled page.now }
    requires index { i < length (content page.now) }
    ensures place { IsPlace (content page.now) i result.start result.stop result.end result.limit }
    ensures size { length page.now ≡ 8192 }
{
    let count = number(page, 0);
    let stop = next_row(page, i + 1, count);
    Place {
        start: start_of(number(page, 8190 - 2 * i as usize), stop),
        stop,
        end: 96 + number(page, 2) as usize,
        limit: 8192 - 2 * count as usize,
    }
}

// The bytes from `start` to `stop` give way to others; the rows behind them end at `end`, and zeros follow up to
// `limit`.
fn replace_row(page: &mut [u8], start: usize, stop: usize, end: usize, limit: usize, bytes: &[u8])
    requires order { start ≤ stop }
    requires rows { stop ≤ end }
    requires within { end ≤ limit }
    requires page { limit ≤ length page.old }
    requires room { end + length bytes.now ≤ limit + (stop - start) }
    ensures { (front row tail back : List ℕ) → page.old ≡ front ++ ((row ++ (tail ++ zeros (limit - end))) ++ back) → length front ≡ start → length row ≡ stop - start → length tail ≡ end - stop → page.new ≡ front ++ ((bytes.now ++ (tail ++ zeros (limit + (stop - start) - end - length bytes.now))) ++ back) }
{
    replace_front(&mut page[start..limit], stop - start, end - start, bytes);
}

// The offsets between two places move.
fn move_table(page: &mut [u8], from: usize, to: usize, old: u16, new: u16)
    requires order { from ≤ to }
    requires within { to ≤ length page.old }
    ensures { (front os back : List ℕ) → page.old ≡ front ++ (table os ++ back) → length front ≡ from → 2 * length os ≡ to - from → page.new ≡ front ++ (table (map (moved old new) os) ++ back) }
{
    move_offsets(&mut page[from..to], old, new);
}

fn offset(at: u16, bytes: &[u8]) -> u16
    ensures { result ≡ offset_of at bytes.now }
{
    match bytes {
        [] => 0,
        _ => at,
    }
}

// Sets a slot that is there, which leaves the number of slots as it is.
fn replace(page: &mut [u8], i: u16, bytes: &[u8])
    requires page { IsSpelled page.old }
    requires index { i < length (content page.old) }
    requires room { used (slice_set (content page.old) i bytes.now) ≤ 8192 }
    ensures { page.new ≡ spell (slice_set (content page.old) i bytes.now) }
{
    let Place {
        start,
        stop,
        end,
        limit,
    } = place_of(page, i);
    replace_row(page, start, stop, end, limit, bytes);
    move_table(
        page,
        limit,
        8190 - 2 * i as usize,
        (stop - start) as u16,
        bytes.len() as u16,
    );
    write_number(page, 8190 - 2 * i as usize, offset(start as u16, bytes));
    write_number(page, 2, (end + bytes.len() - (stop - start) - 96) as u16);
}

// How many slots there are.
fn slot_count(page: &[u8]) -> u16
    requires { IsSpelled page.now }
    ensures count { result ≡ length (content page.now) }
    ensures few { result ≤ MAX_SLOTS }
    ensures size { length page.now ≡ 8192 }
{
    number(page, 0)
}

// Whether a slot that is there is empty.
fn is_empty(page: &[u8], i: u16) -> bool
    requires page { IsSpelled page.now }
    requires index { i < length (content page.now) }
    ensures { IsTrue result ↔ (slice_index_or (content page.now) i [] ≡ []) }
{
    number(page, 8190 - 2 * i as usize) == 0
}

// How many slots there are without the empty ones at the end.
fn full_count(page: &[u8]) -> u16
    requires { IsSpelled page.now }
    ensures { result ≡ length (trimmed (content page.now)) }
{
    let mut count = slot_count(page);
    while count > 0 {
        if !is_empty(page, count - 1) {
            return count;
        }
        count -= 1;
    }
    0
}

/// Sets a slot, with empty slots before it where there are fewer.
pub(crate) fn set(page: &mut [u8], i: u16, bytes: &[u8])
    requires page { IsSpelled page.old }
    requires index { i < 4096 }
    requires room { used (set_slot (content page.old) i bytes.now) ≤ 8192 }
    ensures { page.new ≡ spell (set_slot (content page.old) i bytes.now) }
{
    let count = slot_count(page).max(i + 1);
    write_number(page, 0, count);
    replace(page, i, bytes);
}

/// Empties a slot that is there, and cuts the empty slots at the end.
pub(crate) fn clear(page: &mut [u8], i: u16)
    requires page { IsSpelled page.old }
    requires index { i < length (content page.old) }
    ensures { page.new ≡ spell (cleared (content page.old) i) }
{
    replace(page, i, &[]);
    let left = full_count(page);
    write_number(page, 0, left);
}
