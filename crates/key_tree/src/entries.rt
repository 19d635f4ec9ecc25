//! The entries of a root or inner page, read slot by slot.

ghost use Rattle.std.specs.Prelude.{◌≡◌, ◌≤◌, ◌<◌, IfOk, IfErr, Ok, Err, length, drop, slice_index_or};
ghost use Rattle.page_fmt.specs.Seen.{Looked};
ghost use Rattle.table_walk.specs.Answers.{IsOn};
ghost use Rattle.tree_laws.specs.Kids.{child_at, named, level_of};

use crate::keys::decode_key;
use byteorder::{ByteOrder, LittleEndian};
use page_base::{Columns, MAX_KEY_BYTES, NoMemory, PageId};
use page_fmt::Seen;
use std::alloc::Global;
use table_walk::{SeenRefusal, page_at};
use tree_laws::Child;

// The level in slot 0; 0 where none stands there.
#[tactic(auto, unfolding(byte_fields::specs::Numbers::number_in))]
pub(crate) fn level_of(seen: &Seen, i: usize) -> u32
    requires { i < length seen.now }
    ensures { (d : Looked) → result ≡ level_of (slice_index_or seen.now i d).slots }
{
    let bytes = seen.slot(i, 0);
    if bytes.len() != 4 {
        return 0;
    }
    LittleEndian::read_u32(bytes)
}

// The child that a slot names; None exactly where it names none.
fn child_at(
    alloc: Global,
    keys: &Columns,
    slot: u16,
    bytes: &[u8],
) -> Result<Option<Child>, NoMemory>
    requires few { length keys.now ≤ 255 }
    requires short { length bytes.now ≤ 8192 }
    ensures { IfOk result (λ child. child ≡ child_at keys.now slot bytes.now) }
{
    let front = bytes.len().min(5);
    let Some(page) = page_at(&bytes[..front]) else {
        return Ok(None);
    };
    let rest = &bytes[front..];
    if rest.is_empty() {
        return Ok(Some(Child {
            least: None,
            page,
            slot,
        }));
    }
    if rest.len() > MAX_KEY_BYTES {
        return Ok(None);
    }
    match decode_key(alloc, keys, rest)? {
        Some(least) => Ok(Some(Child {
            least: Some(least),
            page,
            slot,
        })),
        None => Ok(None),
    }
}

// The children that a page names behind slot 0, slot by slot; or the first slot that names none.
pub(crate) fn named(
    alloc: Global,
    keys: &Columns,
    from: PageId,
    seen: &Seen,
    i: usize,
) -> Result<Vec<Child>, SeenRefusal>
    requires few { length keys.now ≤ 255 }
    requires there { i < length seen.now }
    ensures ok { IfOk result (λ v. (d : Looked) → named keys.now 1 (drop 1 (slice_index_or seen.now i d).slots) ≡ Ok v.items) }
    ensures bad { IfErr result (IsOn from (λ slot. (d : Looked) → named keys.now 1 (drop 1 (slice_index_or seen.now i d).slots) ≡ Err slot)) }
{
    let mut children = Vec::new(alloc);
    for j in 1..seen.slots(i) {
        let bytes = seen.slot(i, j);
        if bytes.is_empty() {
            continue;
        }
        match child_at(alloc, keys, j, bytes)? {
            Some(child) => children.push(child)?,
            None => return Err(SeenRefusal::Damaged {
                page: from,
                slot: j,
            }),
        }
    }
    Ok(children)
}
