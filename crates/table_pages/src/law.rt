//! What the bytes of rows promise, as functions whose contracts say it.

ghost use Rattle.std.specs.Prelude.{◌≡◌, ◌<◌, ℕ, List, Some, length, slice_index};
ghost use Rattle.page_base.specs.declared.column.Column.{Column};
ghost use Rattle.page_base.specs.declared.value.Value.{Value};
ghost use Rattle.row_fmt.specs.Rows.{IsRow, row_bytes};
ghost use Rattle.plain_model.specs.Sizes.{size_of_row};
ghost use Rattle.table_pages.specs.Rows.{row_of};

/// What is read as a row is the one row that the bytes spell, and what spells a row is read as it.
pub fn rows_are_read_as_spelled()
    ensures read { (cols : List Column) (bytes : List ℕ) (row : List Value) → ((i : ℕ) → slice_index bytes i < 256) → row_of cols bytes ≡ Some row → IsRow cols bytes row }
    ensures spelled { (cols : List Column) (bytes : List ℕ) (row : List Value) → IsRow cols bytes row → row_of cols bytes ≡ Some row }
{}

/// A row has as many bytes as its size says.
pub fn rows_have_their_size()
    ensures { (row : List Value) → length (row_bytes row) ≡ size_of_row row }
{}
