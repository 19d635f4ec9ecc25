//! One field after the other, read from the front of bytes; a reader stands at the first byte that isn't read yet.

ghost use Rattle.std.specs.Prelude.{◌≡◌, ◌-◌, ◌≤◌, ◌↔◌, [], length, IsTrue, OnErr};
ghost use Rattle.byte_fields.specs.Answers.{Gives};
ghost use Rattle.byte_fields.specs.Reading.{byte_at, number_at, page_in, address_at, sized_at, short_at, name_at};

use crate::Stop;
use byteorder::{ByteOrder, LittleEndian};
use page_base::{Name, PageId};
use std::marker::Model;

/// The page whose address the first five bytes are. Takes no memory.
#[tactic(auto, unfolding(crate::specs::Numbers::number_in))]
pub fn page_in(bytes: &[u8]) -> PageId
    requires { 5 ≤ length bytes.now }
    ensures { result ≡ page_in bytes.now }
{
    PageId {
        file: bytes[0],
        page: LittleEndian::read_u32(&bytes[1..]),
    }
}

/// The bytes that are still to be read. A call that refuses a field leaves them as they are.
#[derive(Debug, Drop)]
pub struct Reader<'a> {
    rest: &'a [u8],
}

impl<'a> Model for Reader<'a> {
    ghost use Rattle.std.specs.Prelude.{List, ℕ};

    ghost Value = { List ℕ };

    ghost view = { λ r. r.rest.now };
}

impl<'a> Reader<'a> {
    /// A reader at the first of these bytes.
    pub fn new(bytes: &'a [u8]) -> Self
        ensures { result ≡ bytes.now }
    {
        Reader { rest: bytes }
    }

    /// Another reader at the same place.
    pub fn again(&self) -> Reader<'a>
        ensures { result ≡ self.now }
    {
        Reader { rest: self.rest }
    }

    /// The bytes that are still to be read.
    pub fn rest(&self) -> &'a [u8]
        ensures { result.now ≡ self.now }
    {
        self.rest
    }

    /// How many bytes are still to be read.
    pub fn len(&self) -> usize
        ensures { result ≡ length self.now }
    {
        self.rest.len()
    }

    /// Whether all bytes are read.
    pub fn is_empty(&self) -> bool
        ensures { IsTrue result ↔ (self.now ≡ []) }
    {
        self.rest.is_empty()
    }

    /// Where a reader of these bytes stands, from 0: the place of the first byte that isn't read yet.
    pub fn place(&self, bytes: &[u8]) -> usize
        ensures { result ≡ length bytes.now - length self.now }
    {
        bytes.len().saturating_sub(self.rest.len())
    }

    /// The next byte. `Form` exactly where there is none.
    #[tactic(auto, unfolding(crate::specs::Reading::byte_at))]
    pub fn byte(&mut self) -> Result<u8, Stop>
        ensures read { Gives (λ b. b) result self.new (byte_at self.old) }
        ensures stays { OnErr result (self.new ≡ self.old) }
    {
        let [byte, rest @ ..] = self.rest else {
            return Err(Stop::Form);
        };
        self.rest = rest;
        Ok(*byte)
    }

    /// A number in two bytes. `Form` exactly where there are fewer.
    #[tactic(auto, unfolding(crate::specs::Reading::number_at, crate::specs::Numbers::number_in))]
    pub fn u16(&mut self) -> Result<u16, Stop>
        ensures read { Gives (λ n. n) result self.new (number_at 2 self.old) }
        ensures stays { OnErr result (self.new ≡ self.old) }
    {
        if self.rest.len() < 2 {
            return Err(Stop::Form);
        }
        let number = LittleEndian::read_u16(self.rest);
        self.rest = &self.rest[2..];
        Ok(number)
    }

    /// A number in four bytes. `Form` exactly where there are fewer.
    #[tactic(auto, unfolding(crate::specs::Reading::number_at, crate::specs::Numbers::number_in))]
    pub fn u32(&mut self) -> Result<u32, Stop>
        ensures read { Gives (λ n. n) result self.new (number_at 4 self.old) }
        ensures stays { OnErr result (self.new ≡ self.old) }
    {
        if self.rest.len() < 4 {
            return Err(Stop::Form);
        }
        let number = LittleEndian::read_u32(self.rest);
        self.rest = &self.rest[4..];
        Ok(number)
    }

    /// A number in eight bytes. `Form` exactly where there are fewer.
    #[tactic(auto, unfolding(crate::specs::Reading::number_at, crate::specs::Numbers::number_in))]
    pub fn u64(&mut self) -> Result<u64, Stop>
        ensures read { Gives (λ n. n) result self.new (number_at 8 self.old) }
        ensures stays { OnErr result (self.new ≡ self.old) }
    {
        if self.rest.len() < 8 {
            return Err(Stop::Form);
        }
        let number = LittleEndian::read_u64(self.rest);
        self.rest = &self.rest[8..];
        Ok(number)
    }

    /// The address of a page in five bytes. `Form` exactly where there are fewer.
    #[tactic(auto, unfolding(crate::specs::Reading::address_at))]
    pub fn address(&mut self) -> Result<PageId, Stop>
        ensures read { Gives (λ p. p) result self.new (address_at self.old) }
        ensures stays { OnErr result (self.new ≡ self.old) }
    {
        if self.rest.len() < 5 {
            return Err(Stop::Form);
        }
        let page = page_in(self.rest);
        self.rest = &self.rest[5..];
        Ok(page)
    }

    /// A text with its length in two bytes in front. `Form` exactly where there are fewer bytes.
    #[tactic(auto, unfolding(crate::specs::Reading::sized_at, crate::specs::Numbers::number_in))]
    pub fn text(&mut self) -> Result<&'a [u8], Stop>
        ensures read { Gives (λ text. text.now) result self.new (sized_at self.old) }
        ensures stays { OnErr result (self.new ≡ self.old) }
    {
        if self.rest.len() < 2 {
            return Err(Stop::Form);
        }
        let len = LittleEndian::read_u16(self.rest) as usize;
        if self.rest.len() < 2 + len {
            return Err(Stop::Form);
        }
        let (text, rest) = self.rest[2..].split_at(len);
        self.rest = rest;
        Ok(text)
    }

    /// A text with its length in one byte in front. `Form` exactly where there are fewer bytes.
    #[tactic(auto, unfolding(crate::specs::Reading::short_at))]
    pub fn short_text(&mut self) -> Result<&'a [u8], Stop>
        ensures read { Gives (λ text. text.now) result self.new (short_at self.old) }
        ensures stays { OnErr result (self.new ≡ self.old) }
    {
        let [len, _rest @ ..] = self.rest else {
            return Err(Stop::Form);
        };
        let len = *len as usize;
        if self.rest.len() < 1 + len {
            return Err(Stop::Form);
        }
        let (text, rest) = self.rest[1..].split_at(len);
        self.rest = rest;
        Ok(text)
    }

    /// A name in lower case, with its length in one byte in front. `Form` exactly where there are fewer bytes, or these
    /// are no such name.
    #[tactic(auto, unfolding(crate::specs::Reading::through))]
    pub fn name(&mut self) -> Result<Name, Stop>
        ensures read { Gives (λ name. name) result self.new (name_at self.old) }
        ensures stays { OnErr result (self.new ≡ self.old) }
    {
        let mut next = self.again();
        let Some(name) = Name::kept(next.short_text()?) else {
            return Err(Stop::Form);
        };
        *self = next;
        Ok(name)
    }
}
