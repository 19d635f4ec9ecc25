//! The fields of a header, read from the front of bytes; a reader stands at the first byte that isn't read yet.

ghost use Rattle.std.specs.Prelude.{◌≡◌, ◌<◌, ◌≤◌, ℕ, List, length, Ok, IfOk};
ghost use Rattle.page_base.specs.declared.column.Column.{Column};
ghost use Rattle.page_base.specs.Reading.{times_at};
ghost use Rattle.table_pages.specs.Headers.{byte_at, name_at, number_at, low_name, type_of, type_at, key_of_number, key_at, column_at, columns_at};
ghost use Rattle.table_pages.specs.Reading.{Gives};

use byteorder::{ByteOrder, LittleEndian};
use page_base::{ColType, Column, Columns, Name, NoMemory};
use std::alloc::Global;
use std::marker::Model;

// The bytes that are still to be read.
#[derive(Drop)]
pub(crate) struct Reader<'a> {
    rest: &'a [u8],
}

impl<'a> Model for Reader<'a> {
    ghost use Rattle.std.specs.Prelude.{List, ℕ};

    ghost Value = { List ℕ };

    ghost view = { λ r. r.rest.now };
}

// The name that these bytes are as they stand.
fn low_name(bytes: &[u8]) -> Option<Name>
    ensures { result ≡ low_name bytes.now }
{
    Name::kept(bytes)
}

// The type with this number and this length.
fn type_of(kind: u32, max: u32) -> Option<ColType>
    ensures { result ≡ type_of kind max }
{
    match (kind, max) {
        (1, 0) => Some(ColType::Int),
        (2, 0) => Some(ColType::Big),
        (3, 1..=8000) => Some(ColType::Text { max: max as u16 }),
        _ => None,
    }
}

// The place in the key and whether the column may be NULL, which are one number.
fn key_of_number(number: u32) -> Option<(u8, bool)>
    ensures { result ≡ key_of_number number }
{
    if number < 512 {
        Some(((number / 2) as u8, number % 2 == 1))
    } else {
        None
    }
}

impl<'a> Reader<'a> {
    pub(crate) fn new(bytes: &'a [u8]) -> Self
        ensures { result ≡ bytes.now }
    {
        Reader { rest: bytes }
    }

    #[tactic(auto, unfolding(crate::specs::Headers::byte_at))]
    fn byte(&mut self) -> Option<u8>
        ensures { Gives result self.new (byte_at self.old) }
    {
        let [byte, rest @ ..] = self.rest else {
            return None;
        };
        self.rest = rest;
        Some(*byte)
    }

    // A name behind its length.
    #[tactic(auto, unfolding(crate::specs::Headers::name_at))]
    pub(crate) fn name(&mut self) -> Option<Name>
        ensures { Gives result self.new (name_at self.old) }
    {
        let [len, rest @ ..] = self.rest else {
            return None;
        };
        let len = *len as usize;
        if rest.len() < len {
            return None;
        }
        let name = low_name(&rest[..len])?;
        self.rest = &rest[len..];
        Some(name)
    }

    #[tactic(auto, unfolding(crate::specs::Headers::number_at, crate::specs::Numbers::number_in))]
    fn number(&mut self) -> Option<u32>
        ensures { Gives result self.new (number_at self.old) }
    {
        if self.rest.len() < 4 {
            return None;
        }
        let number = LittleEndian::read_u32(self.rest);
        self.rest = &self.rest[4..];
        Some(number)
    }

    #[tactic(auto, unfolding(crate::specs::Headers::type_at))]
    fn kind(&mut self) -> Option<ColType>
        ensures { Gives result self.new (type_at self.old) }
    {
        let kind = self.number()?;
        let max = self.number()?;
        let kind = type_of(kind, max)?;
        Some(kind)
    }

    #[tactic(auto, unfolding(crate::specs::Headers::key_at))]
    fn key(&mut self) -> Option<(u8, bool)>
        ensures { Gives result self.new (key_at self.old) }
    {
        let number = self.number()?;
        let key = key_of_number(number)?;
        Some(key)
    }

    #[tactic(auto, unfolding(crate::specs::Headers::column_at))]
    fn column(&mut self) -> Option<Column>
        ensures { Gives result self.new (column_at self.old) }
    {
        let name = self.name()?;
        let kind = self.kind()?;
        let (key, nullable) = self.key()?;
        Some(Column {
            name,
            kind,
            nullable,
            key,
        })
    }

    // The columns, the number first; any where the bytes are no columns.
    pub(crate) fn columns(&mut self, alloc: Global) -> Result<Columns, NoMemory>
        ensures { IfOk result (λ cols. (all : List Column) (rest : List ℕ) → columns_at self.old ≡ Ok (all, rest) → cols ≡ all) }
    {
        let mut cols = Columns::new(alloc);
        let Some(count) = self.byte() else {
            return Ok(cols);
        };
        for _ in 0..count {
            let Some(column) = self.column() else {
                return Ok(cols);
            };
            cols.push(column)?;
        }
        Ok(cols)
    }
}
