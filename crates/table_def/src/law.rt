//! What the rule for columns promises, as functions whose contracts say it.

ghost use Rattle.std.specs.Prelude.{◌≡◌, ◌≤◌, ◌↔◌, true, List, [], length};
ghost use Rattle.plain_model.specs.Sound.{are_columns};
ghost use Rattle.table_def.specs.declared.parts.TablePart.{TablePart};
ghost use Rattle.table_def.specs.Parts.{written};
ghost use Rattle.table_def.specs.Faults.{is_bad};
ghost use Rattle.table_def.specs.Defined.{columns_of};

/// Columns that parts define are those of a definition that isn't a bad one, or none, where at most 64 parts are columns.
pub fn defined_columns_are_good()
    ensures { (parts : List TablePart) → length (written parts) ≤ 64 → are_columns (columns_of parts) ≡ true }
{}

/// Parts define no columns exactly where their definition is a bad one.
pub fn no_columns_are_those_of_a_bad_definition()
    ensures { (parts : List TablePart) → (columns_of parts ≡ []) ↔ (is_bad parts ≡ true) }
{}
