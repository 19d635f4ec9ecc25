//! Which mark one or two bytes are.

ghost use Rattle.std.specs.Prelude.{◌≡◌};
ghost use Rattle.sql_lex.specs.Cut.{mark_of_one, mark_of_two};

use crate::Mark;

pub(crate) fn mark_of_one(byte: u8) -> Option<Mark>
    ensures { result ≡ mark_of_one byte }
{
    match byte {
        b'(' => Some(Mark::Open),
        b')' => Some(Mark::Close),
        b',' => Some(Mark::Comma),
        b';' => Some(Mark::Semicolon),
        b'.' => Some(Mark::Dot),
        b'*' => Some(Mark::Star),
        b'+' => Some(Mark::Plus),
        b'-' => Some(Mark::Minus),
        b'=' => Some(Mark::Equal),
        b'<' => Some(Mark::Less),
        b'>' => Some(Mark::Greater),
        _ => None,
    }
}

pub(crate) fn mark_of_two(first: u8, second: u8) -> Option<Mark>
    ensures { result ≡ mark_of_two first second }
{
    match (first, second) {
        (b'<', b'=') => Some(Mark::AtMost),
        (b'<', b'>') | (b'!', b'=') => Some(Mark::NotEqual),
        (b'>', b'=') => Some(Mark::AtLeast),
        _ => None,
    }
}
