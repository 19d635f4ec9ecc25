//! Tokens of a batch by their numbers: how many there are, and where one stands.

ghost use Rattle.std.specs.Prelude.{◌≡◌, ◌<◌, ◌≤◌, length, drop};
ghost use Rattle.sql_lex.specs.Cut.{tokens_from};
ghost use Rattle.sql_lex.specs.Ahead.{first_of};

use crate::TokenKind;
use crate::tokens::token_from;

/// How many tokens there are from a place on, with the end.
pub fn token_count(batch: &[u8], from: usize) -> usize
    requires within { from ≤ length batch.now }
    requires short { length batch.now < 4294967295 }
    ensures count { result ≡ length (tokens_from batch.now from) }
    ensures few { result ≤ 4294967295 }
{
    let mut at = from;
    let mut count = 0;
    loop {
        let (token, next) = token_from(batch, at);
        count += 1;
        match &token.kind {
            TokenKind::End => return count,
            _ => at = next,
        }
    }
}

/// The place of a token, by its number from 0.
pub fn token_place(batch: &[u8], number: usize) -> u32
    requires there { number < length (tokens_from batch.now 0) }
    requires short { length batch.now < 4294967295 }
    ensures { result ≡ (first_of (drop number (tokens_from batch.now 0))).at }
{
    let mut at = 0;
    for _ in 0..number {
        (_, at) = token_from(batch, at);
    }
    let (token, _) = token_from(batch, at);
    token.at
}
