//! The lines of some bytes, taken one by one, and the number of the next.

ghost use Rattle.std.specs.Prelude.{◌≡◌, ◌≤◌, ◌<◌, ◌+◌, ◌∷◌, [], length, MatchOption};
ghost use Rattle.reply_text.specs.Lines.{lines_of, line_len};
ghost use Rattle.reply_text.specs.declared.refusal.BookRefusal.TheVariants.{Line};

use crate::BookRefusal;

// How long the first line is, with its end.
fn line_len(bytes: &[u8]) -> usize
    ensures value { result ≡ line_len bytes.now }
    ensures within { result ≤ length bytes.now }
{
    for (i, byte) in bytes.iter().enumerate() {
        if *byte == b'\n' {
            return i + 1;
        }
    }
    bytes.len()
}

// The lines that are left, and the number of the first.
#[derive(Drop)]
pub(crate) struct Lines<'t> {
    rest: &'t [u8],
    pub(crate) number: u32,
    ghost counted: { number + length rest.now ≤ 4294967295 },
}

#[tactic(auto, unfolding(crate::specs::Left::left))]
impl<'t> Lines<'t> {
    ghost use Rattle.reply_text.specs.Left.{left};

    // All lines of some bytes.
    pub(crate) fn new(bytes: &'t [u8]) -> Lines<'t>
        requires { length bytes.now < 4294967295 }
        ensures lines { left result ≡ lines_of bytes.now }
        ensures number { result.number ≡ 1 }
    {
        Lines {
            rest: bytes,
            number: 1,
        }
    }

    // Takes the first line, if one is left.
    pub(crate) fn next(&mut self) -> Option<&'t [u8]>
        ensures lines { MatchOption result ((left self.old ≡ []) × (left self.new ≡ [])) (λ line. left self.old ≡ line.now ∷ left self.new) }
        ensures number { MatchOption result (self.new.number ≡ self.old.number) (λ _. self.new.number ≡ self.old.number + 1) }
    {
        if self.rest.is_empty() {
            return None;
        }
        let (line, rest) = self.rest.split_at(line_len(self.rest));
        self.rest = rest;
        self.number += 1;
        Some(line)
    }
}
