//! A text of a batch, left where it stands between its quotes, which contracts see as its bytes.

ghost use Rattle.std.specs.Prelude.{◌≡◌, IfOk, map};
ghost use Rattle.std.specs.Option.{SomeIff};
ghost use Rattle.std.specs.Char.{to_ascii_lowercase};
ghost use Rattle.page_base.specs.FileName.{IsFileName, last_part};
ghost use Rattle.page_base.specs.Name.{IsName};
ghost use Rattle.sql_lex.specs.Texts.{doubled, undoubled};

use page_base::{Bytes, FileName, Name, NoMemory};
use std::alloc::Global;
use std::marker::Model;

/// A text between its quotes, each quote in it doubled.
#[derive(Debug, Drop)]
pub struct Quoted<'t> {
    bytes: &'t [u8],
}

impl<'t> Model for Quoted<'t> {
    ghost use Rattle.std.specs.Prelude.{List, ℕ, ◌≡◌};
    ghost use Rattle.sql_lex.specs.Texts.{doubled, undoubled};

    ghost Value = { List ℕ };

    ghost view = { λ q. undoubled q.bytes.now };

    ghost invariant = { λ q. doubled (undoubled q.bytes.now) ≡ q.bytes.now };
}

impl<'t> Quoted<'t> {
    // The text that these bytes are between quotes.
    pub(crate) fn new(bytes: &'t [u8]) -> Quoted<'t>
        requires { doubled (undoubled bytes.now) ≡ bytes.now }
        ensures { result ≡ undoubled bytes.now }
    {
        Quoted { bytes }
    }

    /// The name of a file that the text ends with, behind its last separator; None exactly where that is none.
    pub fn file_name(&self) -> Option<FileName>
        ensures { SomeIff result (IsFileName (last_part self.now)) (last_part self.now) }
    {
        FileName::read(self.bytes).ok()
    }

    /// The name that the text is, in lower case; None exactly where it is none.
    pub fn name(&self) -> Option<Name>
        ensures { SomeIff result (IsName self.now) (map to_ascii_lowercase self.now) }
    {
        Name::read(self.bytes).ok()
    }

    /// The text's bytes, in memory of their own.
    pub fn copy(&self, alloc: Global) -> Result<Bytes, NoMemory>
        ensures { IfOk result (λ copy. copy ≡ self.now) }
    {
        let mut text = Bytes::new(alloc);
        let mut second = false;
        for byte in self.bytes {
            if *byte == b'\'' && !second {
                second = true;
            } else {
                second = false;
                text.push(*byte)?;
            }
        }
        Ok(text)
    }
}
