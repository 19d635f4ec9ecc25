//! The lines that are left of a text, each with its end.

ghost use Rattle.std.specs.Prelude.{◌≡◌, ◌≤◌, ◌<◌, ◌+◌, ◌-◌, ◌∷◌, [], List, ℕ, length, drop, take, MatchOption, IfOk, if◌then◌else◌, ◌++◌};
ghost use Rattle.std.specs.List.{prefix_len};
ghost use Rattle.script_read.specs.declared.refusal.ScriptRefusal.TheVariants.{Refused};
ghost use Rattle.script_read.specs.Lines.{is_inside, is_at_end, without_returns, lines_in, lines_of, ended};

use crate::{ScriptRefusal, Why};
use page_base::NoMemory;
use std::alloc::Global;

// Whether a line feed comes next.
fn is_at_end(bytes: &[u8]) -> bool
    ensures { result ≡ is_at_end bytes.now }
{
    match bytes {
        [first, ..] => *first == b'\n',
        [] => false,
    }
}

// The bytes without each carriage return that stands just before a line feed.
fn without_returns(alloc: Global, bytes: &[u8]) -> Result<Vec<u8>, NoMemory>
    ensures { IfOk result (λ text. text.items ≡ without_returns bytes.now) }
{
    let mut text = Vec::new(alloc);
    for (i, byte) in bytes.iter().enumerate() {
        if *byte != b'\r' || !is_at_end(&bytes[i + 1..]) {
            text.push(*byte)?;
        }
    }
    Ok(text)
}

// Whether the last line lacks its end.
fn lacks_end(text: &[u8]) -> bool
    ensures text { ended (lines_in text.now) ≡ text.now ++ (if result then 10 ∷ [] else []) }
    ensures lines { lines_in (text.now ++ (if result then 10 ∷ [] else [])) ≡ lines_in text.now }
{
    match text.split_last() {
        Some((last, _)) => *last != b'\n',
        None => false,
    }
}

// The lines of a script, each with its end.
pub(crate) fn text_of(alloc: Global, bytes: &[u8]) -> Result<Vec<u8>, NoMemory>
    ensures lines { IfOk result (λ text. lines_in text.items ≡ lines_of bytes.now) }
    ensures whole { IfOk result (λ text. text.items ≡ ended (lines_in text.items)) }
    ensures short { IfOk result (λ text. length text.items ≤ length bytes.now + 1) }
{
    let mut text = without_returns(alloc, bytes)?;
    if lacks_end(text.as_slice()) {
        text.push(b'\n')?;
    }
    Ok(text)
}

// How many bytes the first line has, without its end.
fn line_len(text: &[u8]) -> usize
    ensures value { result ≡ prefix_len is_inside text.now }
    ensures within { result ≤ length text.now }
{
    text.iter().take_while(|byte| **byte != b'\n').count()
}

// The first line of a text.
fn first_line(text: &[u8]) -> &[u8]
    requires { 0 < length text.now }
    ensures { lines_in text.now ≡ result.now ∷ drop 1 (lines_in text.now) }
{
    &text[..line_len(text)]
}

// Where the line behind the first begins.
fn second_place(text: &[u8]) -> usize
    requires whole { text.now ≡ ended (lines_in text.now) }
    requires some { 0 < length (lines_in text.now) }
    ensures value { result ≡ prefix_len is_inside text.now + 1 }
    ensures within { result ≤ length text.now }
{
    line_len(text) + 1
}

// The lines behind the first.
fn behind_line(text: &[u8]) -> &[u8]
    requires whole { text.now ≡ ended (lines_in text.now) }
    requires some { 0 < length (lines_in text.now) }
    ensures lines { lines_in result.now ≡ drop 1 (lines_in text.now) }
    ensures whole { result.now ≡ ended (lines_in result.now) }
    ensures shorter { length result.now + 1 ≤ length text.now }
{
    &text[second_place(text)..]
}

// Lines, each with its end, and the number of the first.
#[derive(Drop)]
pub(crate) struct Reader<'t> {
    rest: &'t [u8],
    pub(crate) line: u32,
    ghost whole: { rest.now ≡ ended (lines_in rest.now) },
    ghost counted: { line + length rest.now ≤ 4294967296 },
    ghost numbered: { line + length (lines_in rest.now) ≤ 4294967295 },
    ghost begun: { 1 ≤ line },
}

#[tactic(auto, unfolding(crate::specs::Left::left))]
impl<'t> Reader<'t> {
    ghost use Rattle.script_read.specs.Left.{left};

    // All lines of a text.
    pub(crate) fn new(text: &'t [u8]) -> Reader<'t>
        requires whole { text.now ≡ ended (lines_in text.now) }
        requires short { length text.now ≤ 4294967295 }
        requires few { length (lines_in text.now) ≤ 4294967294 }
        ensures left { left result ≡ lines_in text.now }
        ensures line { result.line ≡ 1 }
    {
        Reader {
            rest: text,
            line: 1,
        }
    }

    // The bytes that are left: the lines, each with its end.
    pub(crate) fn rest(&self) -> &'t [u8]
        ensures lines { left self.now ≡ lines_in result.now }
        ensures whole { result.now ≡ ended (left self.now) }
        ensures counted { self.now.line + length result.now ≤ 4294967296 }
        ensures numbered { self.now.line ≤ 4294967295 }
        ensures begun { 1 ≤ self.now.line }
    {
        self.rest
    }

    // The first line, if one is left.
    pub(crate) fn peek(&self) -> Option<&'t [u8]>
        ensures { MatchOption result (left self.now ≡ []) (λ line. left self.now ≡ line.now ∷ drop 1 (left self.now)) }
    {
        if self.rest.is_empty() {
            return None;
        }
        Some(first_line(self.rest))
    }

    // The refusal of the first line.
    pub(crate) fn refused(&self, why: Why) -> ScriptRefusal
        ensures { result ≡ Refused self.now.line why }
    {
        ScriptRefusal::Refused {
            line: self.line,
            why,
        }
    }

    // Goes behind the first line.
    pub(crate) fn advance(&mut self)
        requires { 0 < length (left self.old) }
        ensures left { left self.new ≡ drop 1 (left self.old) }
        ensures line { self.new.line ≡ self.old.line + 1 }
    {
        self.rest = behind_line(self.rest);
        self.line += 1;
    }
}
