//! The pieces of a line, taken one by one: words between spaces, values between commas.

ghost use Rattle.std.specs.Prelude.{◌≡◌, ◌≤◌, ◌∷◌, [], length, MatchOption, IsTrue, ◌↔◌, false};
ghost use Rattle.std.specs.Option.{option_copied};
ghost use Rattle.reply_text.specs.Pieces.{pieces, pieces_of, piece_len, behind_first, alone, before, behind, quoted_behind, parts_at};

use std::marker::Model;

// The pieces that are left: those of the rest, or none where all were taken.
#[derive(Drop)]
pub(crate) struct Pieces<'t> {
    rest: Option<&'t [u8]>,
    separator: u8,
}

impl<'t> Model for Pieces<'t> {
    ghost use Rattle.std.specs.Prelude.{List, ℕ};
    ghost use Rattle.std.specs.Option.{option_copied};
    ghost use Rattle.reply_text.specs.Pieces.{pieces_of};

    ghost Value = { List (List ℕ) };

    ghost view = { λ p. pieces_of p.separator (option_copied p.rest) };
}

// Whether a byte is a separator.
fn parts_at(separator: u8, inside: bool, byte: u8) -> bool
    ensures { result ≡ parts_at separator inside byte }
{
    byte == separator && !inside
}

// Whether quotes are open behind a byte.
fn quoted_behind(inside: bool, byte: u8) -> bool
    ensures { result ≡ quoted_behind inside byte }
{
    if byte == b'\'' { !inside } else { inside }
}

// How long the first piece is.
fn piece_len(bytes: &[u8], separator: u8) -> usize
    ensures value { result ≡ piece_len separator false bytes.now }
    ensures within { result ≤ length bytes.now }
{
    let mut inside = false;
    for (i, byte) in bytes.iter().enumerate() {
        if parts_at(separator, inside, *byte) {
            return i;
        }
        inside = quoted_behind(inside, *byte);
    }
    bytes.len()
}

// What stands behind the first byte, if there is one.
fn behind_first(bytes: &[u8]) -> Option<&[u8]>
    ensures { option_copied result ≡ behind_first bytes.now }
{
    match bytes {
        [] => None,
        [_, rest @ ..] => Some(rest),
    }
}

// The first piece, and what stands behind its separator, if there is one.
fn cut(bytes: &[u8], separator: u8) -> (&[u8], Option<&[u8]>)
    ensures { pieces separator false bytes.now ≡ result.0.now ∷ pieces_of separator (option_copied result.1) }
{
    let (piece, more) = bytes.split_at(piece_len(bytes, separator));
    (piece, behind_first(more))
}

impl<'t> Pieces<'t> {
    // The words of a line.
    pub(crate) fn words(line: &'t [u8]) -> Pieces<'t>
        ensures { result ≡ pieces 32 false line.now }
    {
        Pieces {
            rest: Some(line),
            separator: b' ',
        }
    }

    // The values of a row.
    pub(crate) fn values(line: &'t [u8]) -> Pieces<'t>
        ensures { result ≡ pieces 44 false line.now }
    {
        Pieces {
            rest: Some(line),
            separator: b',',
        }
    }

    // Takes the first piece, if one is left.
    pub(crate) fn next(&mut self) -> Option<&'t [u8]>
        ensures { MatchOption result ((self.old ≡ []) × (self.new ≡ [])) (λ piece. self.old ≡ piece.now ∷ self.new) }
    {
        let (piece, rest) = cut(self.rest?, self.separator);
        self.rest = rest;
        Some(piece)
    }

    // Whether none is left.
    pub(crate) fn is_over(&self) -> bool
        ensures { IsTrue result ↔ (self.now ≡ []) }
    {
        self.rest.is_none()
    }

    // Takes the piece that is the only one.
    pub(crate) fn alone(&mut self) -> Option<&'t [u8]>
        ensures { option_copied result ≡ alone self.old }
    {
        let piece = self.next()?;
        if self.is_over() { Some(piece) } else { None }
    }
}

// What stands before an end.
pub(crate) fn before<'t>(line: &'t [u8], end: &[u8]) -> Option<&'t [u8]>
    ensures { option_copied result ≡ before end.now line.now }
{
    line.strip_suffix(end)
}

// What stands behind a front.
pub(crate) fn behind<'t>(line: &'t [u8], front: &[u8]) -> Option<&'t [u8]>
    ensures { option_copied result ≡ behind front.now line.now }
{
    line.strip_prefix(front)
}
