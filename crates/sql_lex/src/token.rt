//! What a batch is made of, between its bytes and its statements.

ghost use Rattle.std.specs.Prelude.{◌≡◌, ◌↔◌, IsTrue};
ghost use Rattle.sql_lex.specs.Words.{is_same_mark};

use crate::{Keyword, Quoted};
use page_base::Name;

/// A sign that stands for itself.
#[derive(Clone, Copy, Debug, PartialEq, Eq)]
pub enum Mark {
    Open,
    Close,
    Comma,
    Semicolon,
    Dot,
    Star,
    Plus,
    Minus,
    Equal,
    NotEqual,
    Less,
    AtMost,
    Greater,
    AtLeast,
}

impl Mark {
    /// Whether two marks are one.
    pub fn is_same(self, other: Mark) -> bool
        ensures test { result ≡ is_same_mark self other }
        ensures is { IsTrue result ↔ (self ≡ other) }
    {
        self == other
    }
}

/// What a token is: a reserved word, another name, a name in brackets, a number, a text, a mark, bytes that can stand nowhere,
/// or the batch's end.
#[derive(Debug, Drop)]
pub enum TokenKind<'t> {
    Key(Keyword),
    Named(Name),
    Bracketed(Name),
    Number(i64),
    Text(Quoted<'t>),
    Mark(Mark),
    Bad,
    End,
}

/// A token, and the place in the batch where it begins.
#[derive(Debug, Drop)]
pub struct Token<'t> {
    pub at: u32,
    pub kind: TokenKind<'t>,
}
