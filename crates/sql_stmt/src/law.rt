//! What the grammar of statements promises, as functions whose contracts say it.

ghost use Rattle.std.specs.Prelude.{ℕ, List};
ghost use Rattle.sql_lex.specs.declared.token.Token.{Token};
ghost use Rattle.sql_lex.specs.Tokens.{Lexes};
ghost use Rattle.sql_form.specs.Grammar.{IsPlain};
ghost use Rattle.sql_stmt.specs.Laws.{SaysOneThing, IsTold};
ghost use Rattle.sql_stmt.specs.Statements.{batch};

/// In a batch one token tells how to go on.
pub fn one_token_tells_how_to_go_on()
    ensures { IsPlain batch }
{}

/// A batch says one thing.
pub fn batches_say_one_thing()
    ensures { (bytes : List ℕ) → SaysOneThing bytes }
{}

/// The tokens of a batch are read exactly where it is in the grammar, and refused where no batch begins with them.
pub fn batches_are_told_by_their_tokens()
    ensures { (bytes : List ℕ) (ts : List Token) → Lexes 0 bytes ts → IsTold bytes ts }
{}
