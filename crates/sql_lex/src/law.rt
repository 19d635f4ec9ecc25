//! What the cutting promises of itself, as functions whose contracts say it.

ghost use Rattle.std.specs.Prelude.{ℕ, List};
ghost use Rattle.sql_lex.specs.Laws.{HasOneCutting, HaveOneEnd};

/// All bytes are cut into tokens, and in one way.
pub fn bytes_have_one_cutting()
    ensures { (batch : List ℕ) → HasOneCutting batch }
{}

/// The tokens of a batch end with the end, at the batch's length, and no other of them is the end.
pub fn tokens_have_one_end()
    ensures { (batch : List ℕ) → HaveOneEnd batch }
{}
