//! Taking a batch off the lines that are left.

ghost use Rattle.std.specs.Prelude.{◌≡◌, ◌≤◌, ◌<◌, ◌+◌, ◌-◌, ◌∷◌, [], List, ℕ, Option, Some, None, true, false, not, length, drop, take, MatchOption};
ghost use Rattle.std.specs.List.{list_all};
ghost use Rattle.script_read.specs.Lines.{is_whole};
ghost use Rattle.script_read.specs.Classes.{ends_batch};
ghost use Rattle.script_read.specs.Left.{left};
ghost use Rattle.script_read.specs.Taking.{noted, first_is_inner, TakesBatch};

use crate::class::{ends_batch, is_text};
use crate::reader::Reader;

// The bytes of a batch, the number of its first line, and that of the first line with a byte that is refused.
#[derive(Drop)]
pub(crate) struct Batch<'t> {
    pub(crate) bytes: &'t [u8],
    pub(crate) line: u32,
    pub(crate) bad: Option<u32>,
}

// The first bad line so far, where another one follows.
fn noted(bad: Option<u32>, number: u32, line: &[u8]) -> Option<u32>
    ensures { result ≡ noted bad number line.now }
{
    match bad {
        Some(found) => Some(found),
        None if is_text(line) => None,
        None => Some(number),
    }
}

// All but the last byte.
fn unended(bytes: &[u8]) -> &[u8]
    ensures { result.now ≡ take (length bytes.now - 1) bytes.now }
{
    match bytes.split_last() {
        Some((_, front)) => front,
        None => bytes,
    }
}

// The bytes in front of the rest of some lines, without the last line's end.
fn front_of<'t>(bytes: &'t [u8], rest: &[u8]) -> &'t [u8]
    requires { length rest.now ≤ length bytes.now }
    ensures { result.now ≡ take (length bytes.now - length rest.now - 1) bytes.now }
{
    unended(&bytes[..bytes.len() - rest.len()])
}

impl<'t> Reader<'t> {
    // The first line, if it doesn't end a batch.
    fn inner_line(&self) -> Option<&'t [u8]>
        ensures { MatchOption result (first_is_inner (left self.now) ≡ false) (λ line. (left self.now ≡ line.now ∷ drop 1 (left self.now)) × (ends_batch line.now ≡ false)) }
    {
        match self.peek() {
            Some(line) if !ends_batch(line) => Some(line),
            _ => None,
        }
    }

    // Takes the lines up to the one that ends the batch.
    pub(crate) fn batch(&mut self) -> Batch<'t>
        ensures takes { TakesBatch result.bytes.now result.line result.bad self.old.line (left self.old) self.new.line (left self.new) }
        ensures counted { result.line + length result.bytes.now ≤ 4294967295 }
        ensures begun { 1 ≤ result.line }
        ensures whole { list_all is_whole (left self.old) ≡ true }
    {
        let (start, line) = (self.rest(), self.line);
        let mut bad = None;
        while let Some(inner) = self.inner_line() {
            bad = noted(bad, self.line, inner);
            self.advance();
        }
        Batch {
            bytes: front_of(start, self.rest()),
            line,
            bad,
        }
    }
}
