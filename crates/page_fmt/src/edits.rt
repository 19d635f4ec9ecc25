//! Edits of the slots of a page.

ghost use Rattle.std.specs.Prelude.{◌≡◌, ◌+◌, ◌-◌, ◌<◌, ◌≤◌, length, OnOk, OnErr, IfErr};
ghost use Rattle.page_base.specs.declared.limits.TheConstants.{MAX_SLOT_BYTES, MAX_SLOTS};
ghost use Rattle.page_fmt.specs.Spelling.{used};
ghost use Rattle.page_fmt.specs.Content.{content, IsPage};
ghost use Rattle.page_fmt.specs.Edits.{set_slot, cleared, edited, LacksRoom};

use crate::editing::{clear, set};
use crate::numbers::number;
use crate::reading::{slot, slots};
use page_base::Image;

/// A slot doesn't fit: its page would take `need` bytes more, and has `free` left.
#[derive(Clone, Copy, Debug, PartialEq, Eq)]
pub struct NoRoom {
    pub need: u32,
    pub free: u32,
}

// How many bytes of the page are free.
fn free_bytes(image: &Image) -> u32
    requires { IsPage image.now }
    ensures { result ≡ 8192 - used (content image.now) }
{
    8096 - number(image.bytes(), 2) as u32 - 2 * slots(image) as u32
}

// How many bytes more the page takes with a slot set.
fn growth(image: &Image, i: u16, bytes: &[u8]) -> u32
    requires page { IsPage image.now }
    requires few { length bytes.now ≤ MAX_SLOT_BYTES }
    requires index { i < MAX_SLOTS }
    ensures { result ≡ used (set_slot (content image.now) i bytes.now) - used (content image.now) }
{
    let offsets = 2 * (i + 1).saturating_sub(slots(image)) as u32;
    (bytes.len() as u32 + offsets).saturating_sub(slot(image, i).len() as u32)
}

/// Sets slot `i`, with empty slots before it where the page has fewer. `NoRoom` exactly where the page would grow by
/// more bytes than it has free, and then it is unchanged. Takes no memory.
pub fn put_slot(image: &mut Image, i: u16, bytes: &[u8]) -> Result<(), NoRoom>
    requires page { IsPage image.old }
    requires some { 0 < length bytes.now }
    requires few { length bytes.now ≤ MAX_SLOT_BYTES }
    requires index { i < MAX_SLOTS }
    ensures page { IsPage image.new }
    ensures ok { OnOk result (content image.new ≡ set_slot (content image.old) i bytes.now) }
    ensures err { OnErr result (image.new ≡ image.old) }
    ensures room { OnOk result (used (set_slot (content image.old) i bytes.now) ≤ 8192) }
    ensures no_room { IfErr result (λ e. LacksRoom (content image.old) (set_slot (content image.old) i bytes.now) e.need e.free) }
{
    let need = growth(image, i, bytes);
    let free = free_bytes(image);
    if need > free {
        return Err(NoRoom { need, free });
    }
    set(image.bytes_mut(), i, bytes);
    Ok(())
}

/// Empties slot `i`, and cuts the empty slots at the end. Takes no memory.
pub fn clear_slot(image: &mut Image, i: u16)
    requires { IsPage image.old }
    ensures page { IsPage image.new }
    ensures cleared { content image.new ≡ cleared (content image.old) i }
{
    if i < slots(image) {
        clear(image.bytes_mut(), i);
    }
}

/// Makes these bytes slot `i`'s; none empty it. `NoRoom` exactly where the page would grow by more bytes than it has
/// free, and then it is unchanged. Takes no memory.
pub fn edit(image: &mut Image, i: u16, bytes: &[u8]) -> Result<(), NoRoom>
    requires page { IsPage image.old }
    requires few { length bytes.now ≤ MAX_SLOT_BYTES }
    requires index { i < MAX_SLOTS }
    ensures page { IsPage image.new }
    ensures ok { OnOk result (content image.new ≡ edited (content image.old) i bytes.now) }
    ensures err { OnErr result (image.new ≡ image.old) }
    ensures room { OnOk result (used (edited (content image.old) i bytes.now) ≤ 8192) }
    ensures no_room { IfErr result (λ e. LacksRoom (content image.old) (edited (content image.old) i bytes.now) e.need e.free) }
{
    if bytes.is_empty() {
        clear_slot(image, i);
        return Ok(());
    }
    put_slot(image, i, bytes)
}
