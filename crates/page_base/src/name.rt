//! Names of tables, columns and databases, kept in place so that a copy takes no memory.

ghost use Rattle.std.specs.Prelude.{◌≡◌, ◌+◌, ◌-◌, ◌<◌, ◌≤◌, ◌↔◌, ◌++◌, List, ℕ, length, take, map, IsTrue};
ghost use Rattle.std.specs.Option.{SomeIff};
ghost use Rattle.std.specs.Result.{OkIff};
ghost use Rattle.std.specs.Char.{to_ascii_lowercase};
ghost use Rattle.std.specs.Str.{bytes_eq};
ghost use Rattle.page_base.specs.Name.{IsName, IsLowName, is_name_byte, padded};

use crate::NameRefusal;
use std::marker::Model;

/// The name of a table, a column or a database: 1 to 128 letters, digits and `_` in lower case.
#[derive(Clone, Copy, Debug)]
pub struct Name {
    // the bytes past the length are 0
    bytes: [u8; 128],
    len: u8,
}

impl Model for Name {
    ghost use Rattle.std.specs.Prelude.{List, ℕ, take, length};
    ghost use Rattle.page_base.specs.Stored.{IsStoredName, bytes_again, length_again};
    ghost use Rattle.page_base.specs.Name.{padded};

    ghost Value = { List ℕ };

    ghost view = { λ n. take n.len n.bytes };

    ghost invariant = { λ n. IsStoredName n.bytes n.len };

    ghost inverse = { λ s. record { bytes = padded s; len = length s } };

    ghost inverse_ok = { λ n h i. record { bytes = bytes_again n.bytes n.len h.stored i; len = length_again n.bytes n.len h.stored i } };
}

fn is_name_byte(byte: u8) -> bool
    ensures { result ≡ is_name_byte byte }
{
    byte.is_ascii_alphanumeric() || byte == b'_'
}

fn is_name(bytes: &[u8]) -> bool
    ensures { IsTrue result ↔ IsName bytes.now }
{
    !bytes.is_empty()
        && bytes.len() <= 128
        && !bytes[0].is_ascii_digit()
        && bytes.iter().all(|byte| is_name_byte(*byte))
}

// The bytes in lower case, and zeros behind them.
pub(crate) fn lowered(bytes: &[u8]) -> [u8; 128]
    requires { length bytes.now ≤ 128 }
    ensures { result ≡ padded (map to_ascii_lowercase bytes.now) }
{
    let mut name = [0u8; 128];
    for (i, byte) in bytes.iter().enumerate() {
        name[i] = byte.to_ascii_lowercase();
    }
    name
}

impl Name {
    /// The bytes in lower case. `Form` exactly where they aren't 1 to 128 letters, digits and `_`, the first no digit.
    pub fn read(bytes: &[u8]) -> Result<Name, NameRefusal>
        ensures { OkIff result (IsName bytes.now) (map to_ascii_lowercase bytes.now) }
    {
        if !is_name(bytes) {
            return Err(NameRefusal::Form);
        }
        Ok(Name {
            bytes: lowered(bytes),
            len: bytes.len() as u8,
        })
    }

    /// The name that these bytes are as they stand, in lower case; None exactly where they are none.
    pub fn kept(bytes: &[u8]) -> Option<Name>
        ensures { SomeIff result (IsLowName bytes.now) bytes.now }
    {
        match Name::read(bytes) {
            Ok(name) if name.is_text(bytes) => Some(name),
            _ => None,
        }
    }

    /// The name's bytes.
    pub fn bytes(&self) -> &[u8]
        ensures value { result.now ≡ self.now }
        ensures name { IsLowName self.now }
    {
        &self.bytes[..self.len as usize]
    }

    /// Whether two names are the same bytes.
    pub fn is_same(&self, other: &Name) -> bool
        ensures test { result ≡ bytes_eq self.now other.now }
        ensures is { IsTrue result ↔ (self.now ≡ other.now) }
    {
        self.bytes() == other.bytes()
    }

    /// Whether the name is this text.
    pub fn is_text(&self, text: &[u8]) -> bool
        ensures test { result ≡ bytes_eq self.now text.now }
        ensures is { IsTrue result ↔ (self.now ≡ text.now) }
    {
        self.bytes() == text
    }
}
