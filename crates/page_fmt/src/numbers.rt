//! Numbers of two bytes in a page, the lower byte first.

ghost use Rattle.std.specs.Prelude.{◌≡◌, ◌+◌, ◌<◌, ◌≤◌, length};
ghost use Rattle.page_fmt.specs.Spelling.{le16};
ghost use Rattle.page_fmt.specs.Content.{le16_at};
ghost use Rattle.page_fmt.specs.Places.{put};

use byteorder::{ByteOrder, LittleEndian};

/// The number at a place.
pub(crate) fn number(bytes: &[u8], at: usize) -> u16
    requires { at + 1 < length bytes.now }
    ensures { result ≡ le16_at bytes.now at }
{
    LittleEndian::read_u16(&bytes[at..])
}

/// Writes bytes over others at a place.
pub(crate) fn write(page: &mut [u8], at: usize, bytes: &[u8])
    requires { at + length bytes.now ≤ length page.old }
    ensures { page.new ≡ put at bytes.now page.old }
{
    page[at..at + bytes.len()].copy_from_slice(bytes);
}

// A number's two bytes.
fn two_bytes(n: u16) -> [u8; 2]
    ensures { result ≡ le16 n }
{
    let mut bytes = [0u8; 2];
    LittleEndian::write_u16(&mut bytes, n);
    bytes
}

/// Writes a number at a place.
pub(crate) fn write_number(page: &mut [u8], at: usize, n: u16)
    requires { at + 2 ≤ length page.old }
    ensures { page.new ≡ put at (le16 n) page.old }
{
    write(page, at, &two_bytes(n));
}
