//! Numbers in the one way in which they are written.

ghost use Rattle.std.specs.Prelude.{◌≡◌, ◌^◌, ◌∷◌, pos};
ghost use Rattle.std.specs.List.{list_all};
ghost use Rattle.std.specs.Char.{is_ascii_digit};
ghost use Rattle.std.specs.Str.{IsAscii};
ghost use Rattle.std.specs.Option.{option_map};
ghost use Rattle.reply_text.specs.Numbers.{is_counting, is_numeral, number_on, negative_on, signed_on};
ghost use Rattle.reply_text.specs.Headings.{small_on};

use std::str;

const ZERO: &[u8] = b"0";

fn are_digits(bytes: &[u8]) -> bool
    ensures { result ≡ list_all is_ascii_digit bytes.now }
{
    bytes.iter().all(|byte| byte.is_ascii_digit())
}

// Digits, of which the first isn't 0.
fn is_counting(bytes: &[u8]) -> bool
    ensures { result ≡ is_counting bytes.now }
{
    match bytes {
        [] => false,
        [first, ..] => *first != b'0' && are_digits(bytes),
    }
}

// Such digits, or a 0 alone.
fn is_numeral(bytes: &[u8]) -> bool
    ensures { result ≡ is_numeral bytes.now }
{
    is_counting(bytes) || bytes == ZERO
}

fn as_text(word: &[u8]) -> &str
    requires { IsAscii word.now }
    ensures { result.now ≡ word.now }
{
    str::from_utf8(word).unwrap()
}

// The number that a word spells.
pub(crate) fn large_number(word: &[u8]) -> Option<u64>
    ensures { result ≡ number_on (2 ^ 64) word.now }
{
    if !is_numeral(word) {
        return None;
    }
    as_text(word).parse::<u64>().ok()
}

// The number of 32 bits that a word spells.
pub(crate) fn small_number(word: &[u8]) -> Option<u32>
    ensures { result ≡ small_on word.now }
{
    if !is_numeral(word) {
        return None;
    }
    as_text(word).parse::<u32>().ok()
}

// The number below 0 of a word that begins with a minus.
fn negative_number(word: &[u8], digits: &[u8]) -> Option<i64>
    requires { word.now ≡ 45 ∷ digits.now }
    ensures { result ≡ negative_on digits.now }
{
    if !is_counting(digits) {
        return None;
    }
    as_text(word).parse::<i64>().ok()
}

// The number of a word that doesn't begin with a minus.
fn positive_number(word: &[u8]) -> Option<i64>
    ensures { result ≡ option_map pos (number_on (2 ^ 63) word.now) }
{
    if !is_numeral(word) {
        return None;
    }
    as_text(word).parse::<i64>().ok()
}

// The number that a word spells, with or without a minus.
pub(crate) fn signed_number(word: &[u8]) -> Option<i64>
    ensures { result ≡ signed_on word.now }
{
    match word {
        [] => None,
        [first, digits @ ..] => {
            if *first == b'-' {
                negative_number(word, digits)
            } else {
                positive_number(word)
            }
        }
    }
}
