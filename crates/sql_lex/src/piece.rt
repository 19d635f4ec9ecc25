//! Which piece stands in front of some bytes: white space, a comment or a token, and how long it is.

ghost use Rattle.std.specs.Prelude.{◌≡◌, ◌≤◌, ◌<◌, ◌-◌, true, false, length, take, drop, None};
ghost use Rattle.std.specs.List.{prefix_len};
ghost use Rattle.sql_lex.specs.Texts.{text_end};
ghost use Rattle.sql_lex.specs.Tokens.{starts, goes_on};
ghost use Rattle.sql_lex.specs.Cut.{run_piece, text_piece, closed_name, bracket_piece, is_bracket, mark_piece, mark_of_one, pair_piece, sign_piece, piece_of, name_len, comment_piece, mark_of_two, IsRun};
ghost use Rattle.sql_lex.specs.Comments.{is_in_line, comment_end};

use crate::bytes::{is_name_byte, is_quote, is_white, name_len, run_len};
use crate::comment::{comment_end, line_len};
use crate::run::run_kind;
use crate::sign::{mark_of_one, mark_of_two};
use crate::text::text_end;
use crate::{Mark, Quoted, TokenKind};
use page_base::Name;

// White space or a comment, which is no token, or a token; and how many bytes it has.
pub(crate) type Piece<'t> = (Option<TokenKind<'t>>, usize);

// So many bytes are letters, digits and `_`.
fn run_piece(bytes: &[u8], len: usize) -> Piece<'_>
    requires within { len ≤ length bytes.now }
    requires run { IsRun (take len bytes.now) }
    ensures { result ≡ run_piece bytes.now len }
{
    (Some(run_kind(&bytes[..len])), len)
}

// A quote with these bytes behind it.
fn text_piece(behind: &[u8]) -> Piece<'_>
    ensures { result ≡ text_piece behind.now (text_end false 0 behind.now) }
{
    match text_end(behind) {
        Some(end) => (
            Some(TokenKind::Text(Quoted::new(&behind[..end - 1]))),
            end + 1,
        ),
        None => (Some(TokenKind::Bad), behind.len() + 1),
    }
}

fn is_closed(behind: &[u8]) -> bool
    ensures { result ≡ starts is_bracket behind.now }
{
    match behind {
        [] => false,
        [first, ..] => *first == b']',
    }
}

// An opening bracket and a name of so many bytes behind it, if a closing one follows.
fn closed_name(name: Name, len: usize, closed: bool) -> Piece<'static>
    requires { len ≤ 128 }
    ensures { result ≡ closed_name name len closed }
{
    if closed {
        (Some(TokenKind::Bracketed(name)), len + 2)
    } else {
        (Some(TokenKind::Bad), 1)
    }
}

// An opening bracket with these letters, digits and `_` and then these bytes behind it.
fn bracketed(letters: &[u8], behind: &[u8]) -> Piece<'static>
    ensures { result ≡ bracket_piece letters.now behind.now }
{
    match Name::read(letters) {
        Ok(name) => closed_name(name, letters.len(), is_closed(behind)),
        Err(_) => (Some(TokenKind::Bad), 1),
    }
}

// An opening bracket with these bytes behind it.
fn bracket_piece(behind: &[u8]) -> Piece<'static>
    ensures { result ≡ bracket_piece (take (name_len behind.now) behind.now) (drop (name_len behind.now) behind.now) }
{
    let (letters, behind) = behind.split_at(name_len(behind));
    bracketed(letters, behind)
}

// A mark of one byte, if it is one.
fn mark_piece(mark: Option<Mark>) -> Piece<'static>
    ensures { result ≡ mark_piece mark }
{
    match mark {
        Some(mark) => (Some(TokenKind::Mark(mark)), 1),
        None => (Some(TokenKind::Bad), 1),
    }
}

// Two signs that open no comment.
fn pair_piece(first: u8, second: u8) -> Piece<'static>
    ensures { result ≡ pair_piece first (mark_of_two first second) }
{
    match mark_of_two(first, second) {
        Some(mark) => (Some(TokenKind::Mark(mark)), 2),
        None => mark_piece(mark_of_one(first)),
    }
}

// The opening of a comment with these bytes behind it.
fn comment_piece(behind: &[u8]) -> Piece<'static>
    ensures { result ≡ comment_piece behind.now (comment_end 0 0 0 behind.now) }
{
    match comment_end(behind) {
        Some(end) => (None, end + 2),
        None => (Some(TokenKind::Bad), behind.len() + 2),
    }
}

// A sign with these bytes behind it.
fn sign_piece(first: u8, behind: &[u8]) -> Piece<'static>
    ensures { result ≡ sign_piece first behind.now }
{
    let [second, more @ ..] = behind else {
        return mark_piece(mark_of_one(first));
    };
    if first == b'-' && *second == b'-' {
        return (None, line_len(more) + 2);
    }
    if first == b'/' && *second == b'*' {
        return comment_piece(more);
    }
    pair_piece(first, *second)
}

fn front_piece(bytes: &[u8]) -> Piece<'_>
    ensures { result ≡ piece_of bytes.now }
{
    let [first, behind @ ..] = bytes else {
        return (Some(TokenKind::End), 0);
    };
    if is_white(*first) {
        return (None, 1);
    }
    if is_name_byte(*first) {
        return run_piece(bytes, run_len(*first, behind) + 1);
    }
    if is_quote(*first) {
        return text_piece(behind);
    }
    if *first == b'[' {
        return bracket_piece(behind);
    }
    sign_piece(*first, behind)
}

// The piece in front; the end, without a byte, where there are none.
pub(crate) fn piece(bytes: &[u8]) -> Piece<'_>
    ensures value { result ≡ piece_of bytes.now }
    ensures within { result.1 ≤ length bytes.now }
    ensures some { result.0 ≡ None → 0 < result.1 }
{
    front_piece(bytes)
}
