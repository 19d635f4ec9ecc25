//! The picks on a line of a schedule.

ghost use Rattle.std.specs.Prelude.{◌≡◌, ◌≤◌, ◌<◌, length, MatchOption};
ghost use Rattle.script_read.specs.Decimal.{number_of};
ghost use Rattle.script_read.specs.Picks.{word_of, kind_of, until_of, digits_len, of_flusher, pick_by, pick_of};

use crate::decimal::{is_decimal, small_number};
use plain_model::{Kind, Pick, Until};

const KINDS: [Kind; 21] = [
    Kind::Start,
    Kind::Lock,
    Kind::Latch,
    Kind::Look,
    Kind::Fetch,
    Kind::Seek,
    Kind::Read,
    Kind::Plan,
    Kind::Pass,
    Kind::Copy,
    Kind::Mark,
    Kind::Claim,
    Kind::Change,
    Kind::Back,
    Kind::Heal,
    Kind::Cut,
    Kind::Gather,
    Kind::Swap,
    Kind::Commit,
    Kind::Say,
    Kind::Leave,
];

// The word of a kind of step.
fn word_of(kind: Kind) -> &'static str
    ensures { result.now ≡ word_of kind }
{
    match kind {
        Kind::Start => "start",
        Kind::Lock => "lock",
        Kind::Latch => "latch",
        Kind::Look => "look",
        Kind::Fetch => "fetch",
        Kind::Seek => "seek",
        Kind::Read => "read",
        Kind::Plan => "plan",
        Kind::Pass => "pass",
        Kind::Copy => "copy",
        Kind::Mark => "mark",
        Kind::Claim => "claim",
        Kind::Change => "change",
        Kind::Back => "back",
        Kind::Heal => "heal",
        Kind::Cut => "cut",
        Kind::Gather => "gather",
        Kind::Swap => "swap",
        Kind::Commit => "commit",
        Kind::Say => "say",
        Kind::Leave => "leave",
        Kind::Flush => "flush",
    }
}

// The kind that a word names.
fn kind_of(word: &[u8]) -> Option<Kind>
    ensures { result ≡ kind_of word.now }
{
    KINDS
        .iter()
        .copied()
        .find(|kind| word == word_of(*kind).as_bytes())
}

// How far a pick goes that has this behind its number.
fn until_of(rest: &[u8]) -> Option<Until>
    ensures { result ≡ until_of rest.now }
{
    match rest {
        [] => Some(Until::One),
        [b'@', word @ ..] => kind_of(word).map(Until::At),
        [b'!'] => Some(Until::Reply),
        _ => None,
    }
}

// How many digits a word begins with.
fn digits_len(word: &[u8]) -> usize
    ensures value { result ≡ digits_len word.now }
    ensures within { result ≤ length word.now }
{
    word.iter().take_while(|byte| byte.is_ascii_digit()).count()
}

// The flusher takes single steps alone.
fn of_flusher(until: Until) -> Option<Pick>
    ensures { result ≡ of_flusher until }
{
    match until {
        Until::One => Some(Pick { who: 0, until }),
        _ => None,
    }
}

// The pick of this session that goes so far, if there is one.
fn pick_by(who: u8, until: Option<Until>) -> Option<Pick>
    ensures { result ≡ pick_by who until }
{
    match until? {
        until if who == 0 => of_flusher(until),
        until => Some(Pick { who, until }),
    }
}

// The session that digits name, if it is there.
fn session_of(sessions: usize, digits: &[u8]) -> Option<u8>
    requires { sessions ≤ 64 }
    ensures { MatchOption result (sessions < number_of digits.now) (λ n. (n ≡ number_of digits.now) × (n ≤ sessions)) }
{
    match small_number(digits) {
        Some(number) if number <= sessions => Some(number as u8),
        _ => None,
    }
}

// The pick that a word is, if it is one.
pub(crate) fn pick_of(sessions: usize, word: &[u8]) -> Option<Pick>
    requires { sessions ≤ 64 }
    ensures { result ≡ pick_of sessions word.now }
{
    let (digits, rest) = word.split_at(digits_len(word));
    if !is_decimal(digits) {
        return None;
    }
    match session_of(sessions, digits) {
        Some(who) => pick_by(who, until_of(rest)),
        None => None,
    }
}
