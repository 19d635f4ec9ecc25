//! Productions of the grammar as types, so that what may come, and lists, are read and proved once for all of them.

ghost use Rattle.std.specs.Prelude.{◌≡◌, ◌≤◌, ◌+◌, ◌-◌, true, Bool, List, [], length};
ghost use Rattle.sql_lex.specs.Ahead.{first_of, behind_first};
ghost use Rattle.sql_form.specs.Form.{Form, Value, May, Many, Parts};
ghost use Rattle.sql_form.specs.Grammar.{first, counts, is_full, spared};
ghost use Rattle.sql_form.specs.Plain.{is_plain};
ghost use Rattle.sql_form.specs.Grammar.{is_solid};
ghost use Rattle.sql_form.specs.Read.{read, limited};
ghost use Rattle.sql_form.specs.Rules.{strict};
ghost use Rattle.sql_stmt.specs.Answers.{Gives};
ghost use Rattle.sql_stmt.specs.Saying.{SayEach, SaysOption};

use crate::take::{is_mark, name_ahead, refused};
use page_base::ListOf;
use sql_lex::{Mark, ParseRefusal, Tokens};
use std::alloc::Global;

/// A production: what it says, whether it begins with the token in front, and how it is read.
pub(crate) trait Production {
    type Said: Drop;

    ghost form: { Form };

    ghost says: { Self.Said → Value form → Type 0 };

    fn is_ahead(tokens: &Tokens<'_>) -> bool
        ensures { result ≡ first form (first_of tokens.now).kind };

    fn read(alloc: Global, tokens: &mut Tokens<'_>) -> Result<Self::Said, ParseRefusal>
        ensures { Gives says result (read strict form tokens.old) tokens.new };

    ghost plain: { is_plain form ≡ true };

    ghost solid: { is_solid form ≡ true };
}

// What may come once, or not.
pub(crate) fn optional<P: Production>(
    alloc: Global,
    tokens: &mut Tokens<'_>,
) -> Result<Option<P::Said>, ParseRefusal>
    ensures { Gives (SaysOption P.says) result (read strict (May P.form) tokens.old) tokens.new }
{
    if !P::is_ahead(tokens) {
        return Ok(None);
    }
    Ok(Some(P::read(alloc, tokens)?))
}

// Whether a part that is counted begins with the token in front: every part, or one that begins with a name.
fn is_counted<P: Production>(tokens: &Tokens<'_>, every: bool) -> bool
    ensures { result ≡ counts every P.form (first_of tokens.now).kind }
{
    P::is_ahead(tokens) && (every || name_ahead(tokens).is_some())
}

// How many parts may be counted behind one.
fn spared(counted: bool, spare: usize) -> usize
    ensures { result ≡ spared counted spare }
{
    if counted {
        spare.saturating_sub(1)
    } else {
        spare
    }
}

// A part, unless it is counted and none may be any more.
fn part<P: Production>(
    alloc: Global,
    tokens: &mut Tokens<'_>,
    counted: bool,
    spare: usize,
) -> Result<P::Said, ParseRefusal>
    ensures { Gives P.says result (limited (is_full true counted spare) (first_of tokens.old).at (read strict P.form tokens.old)) tokens.new }
{
    if counted && spare == 0 {
        return Err(refused(tokens));
    }
    P::read(alloc, tokens)
}

// part { , part }; so many at most, of every part or of those that begin with a name.
pub(crate) fn list<P: Production>(
    alloc: Global,
    tokens: &mut Tokens<'_>,
    most: usize,
    every: bool,
) -> Result<ListOf<P::Said>, ParseRefusal>
    ensures { Gives (SayEach P.says) result (read strict (Parts most every P.form) tokens.old) tokens.new }
{
    let mut parts = ListOf::new(alloc);
    let mut spare = most;
    'parts: loop {
        let counted = is_counted::<P>(tokens, every);
        let part = part::<P>(alloc, tokens, counted, spare)?;
        parts.push(part)?;
        spare = spared(counted, spare);
        if !is_mark(tokens, Mark::Comma) {
            return Ok(parts);
        }
        tokens.advance();
    }
}

// Any number of them, one behind the other.
pub(crate) fn many<P: Production>(
    alloc: Global,
    tokens: &mut Tokens<'_>,
) -> Result<ListOf<P::Said>, ParseRefusal>
    requires { is_plain (Many P.form) ≡ true }
    ensures { Gives (SayEach P.says) result (read strict (Many P.form) tokens.old) tokens.new }
{
    let mut items = ListOf::new(alloc);
    'items: while P::is_ahead(tokens) {
        let item = P::read(alloc, tokens)?;
        items.push(item)?;
    }
    Ok(items)
}
