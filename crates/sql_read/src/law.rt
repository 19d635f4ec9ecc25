//! What the grammar promises of batches, as functions whose contracts say it.

ghost use Rattle.std.specs.Prelude.{ℕ, List};
ghost use Rattle.sql_read.specs.Laws.{HasOneReading, HasOnePlace, HasOneStmtPlace, HasEachPlace, HasOneLack};

/// A batch has one list of statements, wherever the parts of their expressions lie in memory.
pub fn batches_have_one_reading()
    ensures { (bytes : List ℕ) → HasOneReading bytes }
{}

/// A batch that is refused is refused at one place.
pub fn refusals_have_one_place()
    ensures { (bytes : List ℕ) → HasOnePlace bytes }
{}

/// A statement has one place.
pub fn statements_have_one_place()
    ensures { (bytes : List ℕ) (n : ℕ) → HasOneStmtPlace bytes n }
{}

/// Each statement of a batch has a place.
pub fn statements_have_places()
    ensures { (bytes : List ℕ) → HasEachPlace bytes }
{}

/// Statements that a batch lacks are missing at one place.
pub fn missing_statements_have_one_place()
    ensures { (bytes : List ℕ) → HasOneLack bytes }
{}
