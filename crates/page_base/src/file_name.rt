//! Names of files, kept in place so that a copy takes no memory.

ghost use Rattle.std.specs.Prelude.{◌≡◌, ◌≤◌, ◌↔◌, ◌++◌, length, drop, IsTrue};
ghost use Rattle.std.specs.Result.{OkIff};
ghost use Rattle.std.specs.Str.{bytes_eq};
ghost use Rattle.page_base.specs.Name.{padded};
ghost use Rattle.page_base.specs.FileName.{IsFileName, is_file_name_byte, is_separator, last_part};

use crate::NameRefusal;
use std::marker::Model;

/// The name of a file: 1 to 128 letters, digits, `_`, `-` and `.`, the first no `.`.
#[derive(Clone, Copy, Debug)]
pub struct FileName {
    // the bytes past the length are 0
    bytes: [u8; 128],
    len: u8,
}

impl Model for FileName {
    ghost use Rattle.std.specs.Prelude.{List, ℕ, take, length};
    ghost use Rattle.page_base.specs.Stored.{IsStoredFileName, bytes_again, length_again};
    ghost use Rattle.page_base.specs.Name.{padded};

    ghost Value = { List ℕ };

    ghost view = { λ n. take n.len n.bytes };

    ghost invariant = { λ n. IsStoredFileName n.bytes n.len };

    ghost inverse = { λ s. record { bytes = padded s; len = length s } };

    ghost inverse_ok = { λ n h i. record { bytes = bytes_again n.bytes n.len h.stored i; len = length_again n.bytes n.len h.stored i } };
}

fn is_file_name_byte(byte: u8) -> bool
    ensures { result ≡ is_file_name_byte byte }
{
    byte.is_ascii_alphanumeric() || byte == b'_' || byte == b'-' || byte == b'.'
}

fn is_file_name(bytes: &[u8]) -> bool
    ensures { IsTrue result ↔ IsFileName bytes.now }
{
    !bytes.is_empty()
        && bytes.len() <= 128
        && bytes[0] != b'.'
        && bytes.iter().all(|byte| is_file_name_byte(*byte))
}

fn is_separator(byte: u8) -> bool
    ensures { result ≡ is_separator byte }
{
    byte == b'\\' || byte == b'/'
}

// Where the part after the last separator begins.
fn last_start(path: &[u8]) -> usize
    ensures within { result ≤ length path.now }
    ensures part { drop result path.now ≡ last_part path.now }
{
    let mut start = 0;
    for (i, byte) in path.iter().enumerate() {
        if is_separator(*byte) {
            start = i + 1;
        }
    }
    start
}

// Writes the bytes over the front.
fn write_front(to: &mut [u8], bytes: &[u8])
    requires { length bytes.now ≤ length to.old }
    ensures { to.new ≡ bytes.now ++ drop (length bytes.now) to.old }
{
    to[..bytes.len()].copy_from_slice(bytes);
}

// The bytes, and zeros behind them.
fn stored(bytes: &[u8]) -> [u8; 128]
    requires { length bytes.now ≤ 128 }
    ensures { result ≡ padded bytes.now }
{
    let mut name = [0u8; 128];
    write_front(&mut name, bytes);
    name
}

impl FileName {
    /// The part of a path after its last `\` or `/`. `Form` exactly where that part isn't 1 to 128 letters, digits,
    /// `_`, `-` and `.`, the first no `.`.
    pub fn read(bytes: &[u8]) -> Result<FileName, NameRefusal>
        ensures { OkIff result (IsFileName (last_part bytes.now)) (last_part bytes.now) }
    {
        let part = &bytes[last_start(bytes)..];
        if !is_file_name(part) {
            return Err(NameRefusal::Form);
        }
        Ok(FileName {
            bytes: stored(part),
            len: part.len() as u8,
        })
    }

    /// The name's bytes.
    pub fn bytes(&self) -> &[u8]
        ensures value { result.now ≡ self.now }
        ensures name { IsFileName self.now }
    {
        &self.bytes[..self.len as usize]
    }

    /// Whether two names are the same bytes.
    pub fn is_same(&self, other: &FileName) -> bool
        ensures test { result ≡ bytes_eq self.now other.now }
        ensures is { IsTrue result ↔ (self.now ≡ other.now) }
    {
        self.bytes() == other.bytes()
    }
}
