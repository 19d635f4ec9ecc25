//! Where a text ends.

ghost use Rattle.std.specs.Prelude.{◌≡◌, ◌≤◌, false, length, IfSome};
ghost use Rattle.sql_lex.specs.Texts.{text_end};

use crate::bytes::{is_printable, is_quote};

// Where a text ends, counted from behind its opening quote; None where it isn't closed.
pub(crate) fn text_end(bytes: &[u8]) -> Option<usize>
    ensures value { result ≡ text_end false 0 bytes.now }
    ensures within { IfSome result (λ n. n ≤ length bytes.now) }
{
    let mut quote = false;
    for (i, byte) in bytes.iter().enumerate() {
        if is_quote(*byte) {
            quote = !quote;
        } else if quote {
            return Some(i);
        } else if !is_printable(*byte) {
            return None;
        }
    }
    quote.then_some(bytes.len())
}
