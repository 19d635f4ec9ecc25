//! What rows that are put keep, as functions whose contracts say it.

ghost use Rattle.std.specs.Prelude.{◌≡◌, true, List, length};
ghost use Rattle.page_base.specs.declared.column.Column.{Column};
ghost use Rattle.page_base.specs.declared.value.Value.{Value};
ghost use Rattle.plain_model.specs.Sizes.{size_of_row, size_of_values};
ghost use Rattle.plain_model.specs.Sound.{is_definition};
ghost use Rattle.plain_model.specs.Tables.{key_of};
ghost use Rattle.row_fmt.specs.Keys.{key_bytes};
ghost use Rattle.row_fmt.specs.Rows.{row_bytes};
ghost use Rattle.row_types.specs.Fitting.{PutsWhatFits, PutsWhatIsHeld};
ghost use Rattle.row_types.specs.Limits.{PutsWhatIsSmall};

/// What a statement puts into a table fits the table's columns, where the statement is sound and suits them.
pub fn rows_that_are_put_fit()
    ensures { PutsWhatFits }
{}

/// A row has as many bytes as its size says, and so has the key of any row under the columns of a good definition.
pub fn sizes_are_lengths()
    ensures rows { (row : List Value) → length (row_bytes row) ≡ size_of_row row }
    ensures keys { (cols : List Column) (row : List Value) → is_definition cols ≡ true → length (key_bytes cols row) ≡ size_of_values (key_of cols row) }
{}

/// What a statement puts into a table is within the limits of rows and keys, where the table's rows are.
pub fn rows_that_are_put_are_small()
    ensures { PutsWhatIsSmall }
{}

/// The numbers and texts in what a statement puts into a table are in the range of their types, where those of the
/// table's rows are.
pub fn rows_that_are_put_are_in_range()
    ensures { PutsWhatIsHeld }
{}
