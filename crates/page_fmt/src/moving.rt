//! The offsets of the slots behind a slot whose length changed.

ghost use Rattle.std.specs.Prelude.{◌≡◌, ◌≤◌, List, ℕ, map};
ghost use Rattle.page_fmt.specs.Spelling.{table};
ghost use Rattle.page_fmt.specs.Places.{moved};

use crate::numbers::{number, write_number};

// An offset behind a slot that had `old` bytes and has `new`; that of an empty slot stays 0.
fn moved(offset: u16, old: u16, new: u16) -> u16
    ensures { result ≡ moved old new offset }
{
    if offset == 0 {
        return 0;
    }
    offset.saturating_add(new).saturating_sub(old)
}

/// Moves all offsets that stand in these bytes.
pub(crate) fn move_offsets(bytes: &mut [u8], old: u16, new: u16)
    ensures { (os : List ℕ) → bytes.old ≡ table os → bytes.new ≡ table (map (moved old new) os) }
{
    for i in 0..bytes.len() / 2 {
        let offset = number(bytes, 2 * i);
        write_number(bytes, 2 * i, moved(offset, old, new));
    }
}
