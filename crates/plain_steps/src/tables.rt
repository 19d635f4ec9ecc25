//! A change is of one table, and a table after changes depends on that table alone.

ghost use Rattle.std.specs.Prelude.{◌≡◌, ℕ, List, true, false};
ghost use Rattle.std.specs.FinMap as finite;
ghost use Rattle.std.specs.List.{AllByRecursion};
ghost use Rattle.std.specs.Str.{bytes_eq};
ghost use Rattle.plain_model.specs.declared.stmt.Stmt.{Stmt};
ghost use Rattle.plain_model.specs.Meaning.{shape, change_and_reply};
ghost use Rattle.plain_model.specs.Statements.{table_named};
ghost use Rattle.plain_model.specs.Tables.{Change, Tables, apply};
ghost use Rattle.plain_steps.specs.Changes.{named_by, columns_of, IsOfRow, AreOf};

/// Over tables that have the same table of a name, changes leave the same table of that name; and those that are of other
/// tables leave it as it was.
pub fn changes_are_of_one_table()
    ensures same { (changes : List Change) (tables other : Tables) (name : List ℕ) → finite.get tables name ≡ finite.get other name → finite.get (apply changes tables) name ≡ finite.get (apply changes other) name }
    ensures others { (changes : List Change) (tables : Tables) (name : List ℕ) → AllByRecursion (λ c. bytes_eq name (named_by c) ≡ false) changes → finite.get (apply changes tables) name ≡ finite.get tables name }
    ensures columns { (changes : List Change) (tables : Tables) (name : List ℕ) → AllByRecursion IsOfRow changes → columns_of (apply changes tables) name ≡ columns_of tables name }
{}

/// What a statement changes and replies depends on its table alone, and its shape on that table's columns.
pub fn statements_read_one_table()
    ensures reply { (stmt : Stmt) (tables other : Tables) → finite.get tables (table_named stmt) ≡ finite.get other (table_named stmt) → change_and_reply stmt tables ≡ change_and_reply stmt other }
    ensures shape { (stmt : Stmt) (tables other : Tables) → columns_of tables (table_named stmt) ≡ columns_of other (table_named stmt) → shape stmt tables ≡ shape stmt other }
    ensures changes { (stmt : Stmt) (tables : Tables) → AreOf (table_named stmt) (change_and_reply stmt tables).0 }
{}
