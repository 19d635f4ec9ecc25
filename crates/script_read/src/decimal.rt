//! Numbers as decimal digits, as far as a script needs them.

ghost use Rattle.std.specs.Prelude.{◌≡◌, ◌≤◌, ◌<◌, MatchOption};
ghost use Rattle.std.specs.List.{list_all};
ghost use Rattle.std.specs.Char.{is_ascii_digit};
ghost use Rattle.script_read.specs.Decimal.{is_decimal, number_of};

// No script has more sessions.
pub(crate) const MOST_SESSIONS: usize = 64;

fn are_digits(bytes: &[u8]) -> bool
    ensures { result ≡ list_all is_ascii_digit bytes.now }
{
    bytes.iter().all(|byte| byte.is_ascii_digit())
}

// Whether these are a number's digits, without zeros in front.
pub(crate) fn is_decimal(bytes: &[u8]) -> bool
    ensures { result ≡ is_decimal bytes.now }
{
    match bytes {
        [] => false,
        [digit] => digit.is_ascii_digit(),
        [first, _second, _rest @ ..] => *first != b'0' && are_digits(bytes),
    }
}

// The number that digits spell, unless it is above 64.
pub(crate) fn small_number(digits: &[u8]) -> Option<usize>
    ensures { MatchOption result (64 < number_of digits.now) (λ n. (n ≡ number_of digits.now) × (n ≤ 64)) }
{
    let mut number = 0;
    for digit in digits {
        number = number * 10 + usize::from(digit.saturating_sub(b'0'));
        if number > MOST_SESSIONS {
            return None;
        }
    }
    Some(number)
}
