//! What the definitions of values, truths and types promise together, as functions whose contracts say it.

ghost use Rattle.std.specs.Prelude.{◌≡◌, List, None};
ghost use Rattle.page_base.specs.declared.column.Column.{Column};
ghost use Rattle.page_base.specs.declared.value.Value.{Value};
ghost use Rattle.page_base.specs.declared.value.Truth.{Truth};
ghost use Rattle.plain_model.specs.Tree.{Tree, Entries, Compare, Between, In, And, Or, Last, More};
ghost use Rattle.plain_model.specs.declared.expr.CompareOp.TheVariants.{Eq, Le, Ge};
ghost use Rattle.sql_eval.specs.Laws.{IsValuePart, IsTruthPart, Overflows};
ghost use Rattle.plain_model.specs.Logic.{and3, or3, not3};
ghost use Rattle.plain_model.specs.Truths.{truth_of};
ghost use Rattle.plain_model.specs.Values.{value_of};

/// `x BETWEEN a AND b` is `x >= a AND x <= b`.
pub fn between_is_two_comparisons()
    ensures { (cols : List Column) (row : List Value) (x a b : Tree) → truth_of cols row (Between x a b) ≡ truth_of cols row (And (Compare Ge x a) (Compare Le x b)) }
{}

/// `x IN (a)` is `x = a`, and `x IN (a, ..)` is `x = a OR x IN (..)`.
pub fn in_is_equalities()
    ensures last { (cols : List Column) (row : List Value) (x a : Tree) → truth_of cols row (In x (Last a)) ≡ truth_of cols row (Compare Eq x a) }
    ensures more { (cols : List Column) (row : List Value) (x a : Tree) (rest : Entries) → truth_of cols row (In x (More a rest)) ≡ truth_of cols row (Or (Compare Eq x a) (In x rest)) }
{}

/// OR is what NOT makes of AND.
pub fn or_is_not_and()
    ensures { (a b : Truth) → or3 a b ≡ not3 (and3 (not3 a) (not3 b)) }
{}

/// An overflow in a part is one of the whole, whatever the other parts come to.
pub fn an_overflow_is_that_of_the_whole()
    ensures values { (cols : List Column) (row : List Value) (part whole : Tree) → IsValuePart part whole → value_of cols row part ≡ None → Overflows cols row whole }
    ensures truths { (cols : List Column) (row : List Value) (part whole : Tree) → IsTruthPart part whole → truth_of cols row part ≡ None → Overflows cols row whole }
{}
