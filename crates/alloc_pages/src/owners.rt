//! The owners that the slots of an allocation page hold, four bytes each.

ghost use Rattle.std.specs.Prelude.{◌≡◌, ◌≢◌, ℕ, MatchOption};
ghost use Rattle.page_fmt.specs.Content.{content};
ghost use Rattle.alloc_pages.specs.Owners.{owner_at, owner_bytes, IsFirstFree};

use byteorder::{ByteOrder, LittleEndian};
use page_base::Image;
use page_fmt::slots;

/// The owner of an allocation page itself, and of a slot that hasn't four bytes.
const OWN: u32 = u32::MAX;

/// The owner of a page that is free.
const FREE: u32 = 0;

/// The owner that a slot of an allocation page holds: 0 for a free page, 4294967295 for an allocation page or where the
/// slot hasn't four bytes, else one more than the table's number.
#[tactic(auto, unfolding(crate::specs::Owners::owner_in))]
pub fn owner(image: &Image, slot: u16) -> u32
    ensures { result ≡ owner_at (content image.now) slot }
{
    let bytes = page_fmt::slot(image, slot);
    if bytes.len() != 4 {
        return OWN;
    }
    LittleEndian::read_u32(bytes)
}

/// The bytes of an owner.
#[tactic(auto, unfolding(crate::specs::Owners::owner_bytes))]
pub fn owner_bytes(owner: u32) -> [u8; 4]
    ensures { result ≡ owner_bytes owner }
{
    let mut bytes = [0u8; 4];
    LittleEndian::write_u32(&mut bytes, owner);
    bytes
}

/// The first slot whose page is free; None exactly where no slot of this page has owner 0.
pub fn first_free(image: &Image) -> Option<u16>
    ensures { MatchOption result
        ((i : ℕ) → owner_at (content image.now) i ≢ 0)
        (IsFirstFree (content image.now)) }
{
    for i in 0..slots(image) {
        if owner(image, i) == FREE {
            return Some(i);
        }
    }
    None
}
