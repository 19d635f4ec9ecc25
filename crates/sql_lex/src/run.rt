//! What a run of letters, digits and `_` is: a number, a reserved word, another name, or none of these.

ghost use Rattle.std.specs.Prelude.{◌≡◌, ◌≤◌, ◌<◌, true, MatchOption};
ghost use Rattle.std.specs.List.{list_all};
ghost use Rattle.std.specs.Char.{is_ascii_digit};
ghost use Rattle.sql_lex.specs.Tokens.{number_of};
ghost use Rattle.sql_lex.specs.Cut.{number_kind, word_kind, run_kind, IsWord, IsRun};

use crate::{Keyword, TokenKind};
use page_base::Name;

// Numbers end here, as those of BIGINT do.
const GREATEST: u64 = 9223372036854775807;

// The number that digits spell, unless it is too large.
fn number(digits: &[u8]) -> Option<u64>
    requires { list_all is_ascii_digit digits.now ≡ true }
    ensures { MatchOption result (9223372036854775807 < number_of digits.now) (λ n. (n ≡ number_of digits.now) × (n ≤ 9223372036854775807)) }
{
    let mut number = 0;
    for digit in digits {
        let digit = u64::from(*digit - b'0');
        if number > (GREATEST - digit) / 10 {
            return None;
        }
        number = number * 10 + digit;
    }
    Some(number)
}

fn number_kind(digits: &[u8]) -> TokenKind<'static>
    requires { list_all is_ascii_digit digits.now ≡ true }
    ensures { result ≡ number_kind (number_of digits.now) }
{
    match number(digits) {
        Some(number) => TokenKind::Number(number as i64),
        None => TokenKind::Bad,
    }
}

fn word_kind(word: &[u8]) -> TokenKind<'static>
    requires form { IsWord word.now }
    ensures { result ≡ word_kind word.now }
{
    match Name::read(word) {
        Ok(name) => match Keyword::read(&name) {
            Some(key) => TokenKind::Key(key),
            None => TokenKind::Named(name),
        },
        Err(_) => TokenKind::Bad,
    }
}

// The kind of a run.
pub(crate) fn run_kind(run: &[u8]) -> TokenKind<'static>
    requires { IsRun run.now }
    ensures { result ≡ run_kind run.now }
{
    let [first, ..] = run else {
        return TokenKind::Bad;
    };
    if first.is_ascii_digit() {
        number_kind(run)
    } else {
        word_kind(run)
    }
}
