//! What heaps keep, as functions whose contracts say it.

ghost use Rattle.std.specs.Prelude.{List};
ghost use Rattle.page_base.specs.declared.column.Column.{Column};
ghost use Rattle.page_base.specs.declared.value.Value.{Value};
ghost use Rattle.plain_model.specs.Tables.{Rows};
ghost use Rattle.table_walk.specs.Plans.{cut_all, put_all};
ghost use Rattle.table_walk.specs.Filling.{KeepsByKeys};
ghost use Rattle.table_heap.specs.Heap.{heap_shape};
ghost use Rattle.table_heap.specs.Leaves.{Leaf, ByKeys, all_rows, cut_keys, put_rows};

/// Wherever they go, the rows of the leaves are the old ones without those that are cut and with those that are put.
pub fn placed_rows_are_the_rows()
    ensures { (cols : List Column) (cut put : List (List Value)) (leaves : List Leaf) (rows : Rows) → ByKeys cols (all_rows leaves) rows → ByKeys cols (all_rows (put_rows cols put (cut_keys cols cut leaves))) (put_all cols put (cut_all cut rows)) }
{}

/// In a heap a row may give way to another of its key and size: its leaves name no page, and it keeps nothing beside its rows.
pub fn heaps_keep_by_keys()
    ensures { KeepsByKeys heap_shape }
{}
