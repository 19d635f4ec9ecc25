//! What a line of a script is, whatever its place.

ghost use Rattle.std.specs.Prelude.{◌≡◌, ◌≤◌, length};
ghost use Rattle.std.specs.List.{list_all, prefix_len};
ghost use Rattle.script_read.specs.Classes.{is_text_byte, is_text, is_blank_byte, is_blank, is_comment, is_skipped, begins_with_colon, goes, is_go, ends_batch, number_part, is_session, is_schedule};

use crate::decimal::is_decimal;

const COMMENT: &[u8] = b"--";

const SESSION: &[u8] = b":session ";

const SCHEDULE: &[u8] = b":schedule";

fn is_text_byte(byte: u8) -> bool
    ensures { result ≡ is_text_byte byte }
{
    byte == b'\t' || (32 <= byte && byte <= 126)
}

// Whether a line has no byte that is refused.
pub(crate) fn is_text(line: &[u8]) -> bool
    ensures { result ≡ is_text line.now }
{
    line.iter().all(|byte| is_text_byte(*byte))
}

fn is_blank_byte(byte: u8) -> bool
    ensures { result ≡ is_blank_byte byte }
{
    byte == b' ' || byte == b'\t'
}

pub(crate) fn is_blank(line: &[u8]) -> bool
    ensures { result ≡ is_blank line.now }
{
    line.iter().all(|byte| is_blank_byte(*byte))
}

// Whether a line may stand before the first session.
pub(crate) fn is_skipped(line: &[u8]) -> bool
    ensures { result ≡ is_skipped line.now }
{
    is_blank(line) || line.starts_with(COMMENT)
}

pub(crate) fn begins_with_colon(line: &[u8]) -> bool
    ensures { result ≡ begins_with_colon line.now }
{
    match line {
        [first, ..] => *first == b':',
        [] => false,
    }
}

// The letters `go`, and blanks behind them.
fn goes(bytes: &[u8]) -> bool
    ensures { result ≡ goes bytes.now }
{
    match bytes {
        [g, o, rest @ ..] => {
            g.to_ascii_lowercase() == b'g' && o.to_ascii_lowercase() == b'o' && is_blank(rest)
        }
        _ => false,
    }
}

// How many blanks stand in front.
fn blank_len(line: &[u8]) -> usize
    ensures value { result ≡ prefix_len is_blank_byte line.now }
    ensures within { result ≤ length line.now }
{
    line.iter().take_while(|byte| is_blank_byte(**byte)).count()
}

pub(crate) fn is_go(line: &[u8]) -> bool
    ensures { result ≡ is_go line.now }
{
    goes(&line[blank_len(line)..])
}

// Whether a line ends a batch.
pub(crate) fn ends_batch(line: &[u8]) -> bool
    ensures { result ≡ ends_batch line.now }
{
    begins_with_colon(line) || is_go(line)
}

// What stands behind `:session ` in a line, or would.
pub(crate) fn number_part(line: &[u8]) -> &[u8]
    ensures { result.now ≡ number_part line.now }
{
    match line.get(SESSION.len()..) {
        Some(digits) => digits,
        None => &[],
    }
}

pub(crate) fn is_session(line: &[u8]) -> bool
    ensures { result ≡ is_session line.now }
{
    line.starts_with(SESSION) && is_decimal(number_part(line))
}

pub(crate) fn is_schedule(line: &[u8]) -> bool
    ensures { result ≡ is_schedule line.now }
{
    line == SCHEDULE
}
