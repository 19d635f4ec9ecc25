//! Which bytes belong together.

ghost use Rattle.std.specs.Prelude.{◌≡◌, ◌≤◌, length};
ghost use Rattle.std.specs.List.{prefix_len};
ghost use Rattle.page_base.specs.Name.{is_name_byte};
ghost use Rattle.sql_lex.specs.Texts.{is_quote, is_printable};
ghost use Rattle.sql_lex.specs.Tokens.{is_white, goes_on};
ghost use Rattle.sql_lex.specs.Cut.{name_len};

pub(crate) fn is_white(byte: u8) -> bool
    ensures { result ≡ is_white byte }
{
    byte == b' ' || byte == b'\t' || byte == b'\n'
}

pub(crate) fn is_name_byte(byte: u8) -> bool
    ensures { result ≡ is_name_byte byte }
{
    byte.is_ascii_alphanumeric() || byte == b'_'
}

pub(crate) fn is_quote(byte: u8) -> bool
    ensures { result ≡ is_quote byte }
{
    byte == b'\''
}

pub(crate) fn is_printable(byte: u8) -> bool
    ensures { result ≡ is_printable byte }
{
    32 <= byte && byte <= 126
}

// Whether a byte belongs to a word or number that began with another.
pub(crate) fn goes_on(first: u8, byte: u8) -> bool
    ensures { result ≡ goes_on first byte }
{
    if first.is_ascii_digit() {
        byte.is_ascii_digit()
    } else {
        is_name_byte(first) && is_name_byte(byte)
    }
}

// How many bytes in front go on with a word or number that began with another.
pub(crate) fn run_len(first: u8, bytes: &[u8]) -> usize
    ensures value { result ≡ prefix_len (goes_on first) bytes.now }
    ensures within { result ≤ length bytes.now }
{
    bytes
        .iter()
        .take_while(|byte| goes_on(first, **byte))
        .count()
}

// How many letters, digits and `_` stand in front.
pub(crate) fn name_len(bytes: &[u8]) -> usize
    ensures value { result ≡ name_len bytes.now }
    ensures within { result ≤ length bytes.now }
{
    bytes.iter().take_while(|byte| is_name_byte(**byte)).count()
}
