//! The bytes of one field, put behind others.

ghost use Rattle.std.specs.Prelude.{◌≡◌, ◌++◌, ◌<◌, ◌^◌, length, OnOk};
ghost use Rattle.page_base.specs.Name.{IsLowName};
ghost use Rattle.byte_fields.specs.Fields.{sized, short, address};
ghost use Rattle.byte_fields.specs.Numbers.{number};

use byteorder::{ByteOrder, LittleEndian};
use page_base::{Name, NoMemory, PageId};

/// Puts a number behind the others, in two bytes.
#[tactic(auto, unfolding(crate::specs::Numbers::number))]
pub fn put_u16(out: &mut Vec<u8>, n: u16) -> Result<(), NoMemory>
    ensures { OnOk result (out.new.items ≡ out.old.items ++ number 2 n) }
{
    let mut bytes = [0u8; 2];
    LittleEndian::write_u16(&mut bytes, n);
    out.extend_from_slice(&bytes)?;
    Ok(())
}

/// Puts a number behind the others, in four bytes.
#[tactic(auto, unfolding(crate::specs::Numbers::number))]
pub fn put_u32(out: &mut Vec<u8>, n: u32) -> Result<(), NoMemory>
    ensures { OnOk result (out.new.items ≡ out.old.items ++ number 4 n) }
{
    let mut bytes = [0u8; 4];
    LittleEndian::write_u32(&mut bytes, n);
    out.extend_from_slice(&bytes)?;
    Ok(())
}

/// Puts a number behind the others, in eight bytes.
#[tactic(auto, unfolding(crate::specs::Numbers::number))]
pub fn put_u64(out: &mut Vec<u8>, n: u64) -> Result<(), NoMemory>
    ensures { OnOk result (out.new.items ≡ out.old.items ++ number 8 n) }
{
    let mut bytes = [0u8; 8];
    LittleEndian::write_u64(&mut bytes, n);
    out.extend_from_slice(&bytes)?;
    Ok(())
}

/// The address of a page, in five bytes. Takes no memory.
#[tactic(auto, unfolding(crate::specs::Numbers::number))]
pub fn address(page: PageId) -> [u8; 5]
    ensures { result ≡ address page }
{
    let mut bytes = [page.file, 0, 0, 0, 0];
    LittleEndian::write_u32(&mut bytes[1..], page.page);
    bytes
}

/// Puts the address of a page behind the others, in five bytes.
pub fn put_address(out: &mut Vec<u8>, page: PageId) -> Result<(), NoMemory>
    ensures ok { OnOk result (out.new.items ≡ out.old.items ++ address page) }
    ensures number { page.page < 2 ^ 32 }
{
    out.extend_from_slice(&address(page))?;
    Ok(())
}

/// Puts a text behind the others, its length in two bytes in front.
pub fn put_text(out: &mut Vec<u8>, text: &[u8]) -> Result<(), NoMemory>
    requires { length text.now < 2 ^ 16 }
    ensures { OnOk result (out.new.items ≡ out.old.items ++ sized text.now) }
{
    put_u16(out, text.len() as u16)?;
    out.extend_from_slice(text)?;
    Ok(())
}

/// Puts a text behind the others, its length in one byte in front.
pub fn put_short(out: &mut Vec<u8>, text: &[u8]) -> Result<(), NoMemory>
    requires { length text.now < 256 }
    ensures { OnOk result (out.new.items ≡ out.old.items ++ short text.now) }
{
    out.push(text.len() as u8)?;
    out.extend_from_slice(text)?;
    Ok(())
}

/// Puts a name behind the others, its length in one byte in front.
pub fn put_name(out: &mut Vec<u8>, name: &Name) -> Result<(), NoMemory>
    ensures ok { OnOk result (out.new.items ≡ out.old.items ++ short name.now) }
    ensures name { IsLowName name.now }
{
    put_short(out, name.bytes())
}
