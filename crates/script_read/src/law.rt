//! What the grammar of scripts promises of itself, as functions whose contracts say it.

ghost use Rattle.std.specs.Prelude.{ℕ, List};
ghost use Rattle.plain_model.specs.declared.pick.Pick.{Pick};
ghost use Rattle.script_read.specs.Laws.{HasOneReading, HasOneRefusal, ReadsAsWritten};

/// A script says one thing, wherever the parts of its expressions lie in memory.
pub fn scripts_have_one_reading()
    ensures { (bytes : List ℕ) → HasOneReading bytes }
{}

/// Of bytes that are no script one line at most is the first that is refused, for one reason.
pub fn scripts_have_one_refusal()
    ensures { (bytes : List ℕ) → HasOneRefusal bytes }
{}

/// A word is read as a pick exactly where it is written as one.
pub fn picks_are_read_as_written()
    ensures { (sessions : ℕ) (word : List ℕ) (pick : Pick) → ReadsAsWritten sessions word pick }
{}
