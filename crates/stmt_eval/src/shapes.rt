//! Whether a statement suits the columns of its table, whatever the table's rows are.

ghost use Rattle.std.specs.Prelude.{◌≡◌, ◌||◌, IfOk, [], List, ℕ, map, is_none};
ghost use Rattle.page_base.specs.declared.column.Column.{Column};
ghost use Rattle.std.specs.List.{list_any, list_all};
ghost use Rattle.std.specs.Str.{bytes_eq};
ghost use Rattle.plain_model.specs.declared.stmt.SetItem.{SetItem};
ghost use Rattle.plain_model.specs.declared.stmt.OrderItem.{OrderItem};
ghost use Rattle.plain_model.specs.Inserting.{target_names};
ghost use Rattle.plain_model.specs.Shapes.{is_lost, type_in, is_lost_filter, comes_to_truth, is_ill_filter, is_summable, is_lost_sum, is_ill_sum, are_lost, are_ill, may_stand, may_all_stand, is_key_name, select_fault, insert_fault, update_fault, delete_fault};
ghost use Rattle.plain_model.specs.Names.{is_unknown};
ghost use Rattle.plain_model.specs.Sound.{are_distinct};

use page_base::{Columns, Name, NoMemory};
use plain_model::{
    DeleteStmt, Expr, ExprType, InsertStmt, Items, Message, Names, OrderItem, SelectStmt, SetItem,
    Sum, UpdateStmt,
};
use sql_eval::{column_type, comparison_type, first_unknown, place_of, tree_type};
use std::alloc::Global;

// Whether no column has the name.
fn is_unknown(cols: &Columns, name: &Name) -> bool
    ensures { result ≡ is_unknown cols.now name.now }
{
    place_of(cols, name).is_none()
}

// Whether an expression names what is no column.
fn is_lost(cols: &Columns, e: &Expr) -> bool
    ensures { result ≡ is_lost cols.now e.now }
{
    first_unknown(e, cols).is_some()
}

fn is_lost_filter(cols: &Columns, filter: &Option<Expr>) -> bool
    ensures { result ≡ is_lost_filter cols.now filter.now }
{
    match filter {
        None => false,
        Some(e) => is_lost(cols, e),
    }
}

fn comes_to_truth(kind: Option<ExprType>) -> bool
    ensures { result ≡ comes_to_truth kind }
{
    matches!(kind, Some(ExprType::Truth))
}

// Whether the types in a filter don't fit.
fn is_ill_filter(cols: &Columns, filter: &Option<Expr>) -> bool
    ensures { result ≡ is_ill_filter cols.now filter.now }
{
    match filter {
        None => false,
        Some(e) => !comes_to_truth(tree_type(e, cols)),
    }
}

fn is_lost_sum(cols: &Columns, sum: &Sum) -> bool
    ensures { result ≡ is_lost_sum cols.now sum.now }
{
    match sum {
        Sum::CountAll => false,
        Sum::SumOf(e) => is_lost(cols, e),
    }
}

// SUM takes numbers, and no bare NULL.
fn is_summable(kind: Option<ExprType>) -> bool
    ensures { result ≡ is_summable kind }
{
    matches!(kind, Some(ExprType::Int | ExprType::Big))
}

fn is_ill_sum(cols: &Columns, sum: &Sum) -> bool
    ensures { result ≡ is_ill_sum cols.now sum.now }
{
    match sum {
        Sum::CountAll => false,
        Sum::SumOf(e) => !is_summable(tree_type(e, cols)),
    }
}

fn is_any_lost(cols: &Columns, exprs: &[Expr]) -> bool
    ensures { result ≡ list_any (is_lost cols.now) exprs.now }
{
    exprs.iter().any(|e| is_lost(cols, e))
}

fn is_any_sum_lost(cols: &Columns, sums: &[Sum]) -> bool
    ensures { result ≡ list_any (is_lost_sum cols.now) sums.now }
{
    sums.iter().any(|sum| is_lost_sum(cols, sum))
}

// Whether the items of a SELECT name what is no column.
fn are_lost(cols: &Columns, items: &Items) -> bool
    ensures { result ≡ are_lost cols.now items.now }
{
    match items {
        Items::Star => false,
        Items::Exprs(exprs) => is_any_lost(cols, exprs.as_slice()),
        Items::Sums(sums) => is_any_sum_lost(cols, sums.as_slice()),
    }
}

fn is_any_ill(cols: &Columns, exprs: &[Expr]) -> bool
    ensures { result ≡ list_any (λ e. is_none (type_in cols.now e)) exprs.now }
{
    exprs.iter().any(|e| tree_type(e, cols).is_none())
}

fn is_any_sum_ill(cols: &Columns, sums: &[Sum]) -> bool
    ensures { result ≡ list_any (is_ill_sum cols.now) sums.now }
{
    sums.iter().any(|sum| is_ill_sum(cols, sum))
}

// Whether the types in them don't fit.
fn are_ill(cols: &Columns, items: &Items) -> bool
    ensures { result ≡ are_ill cols.now items.now }
{
    match items {
        Items::Star => false,
        Items::Exprs(exprs) => is_any_ill(cols, exprs.as_slice()),
        Items::Sums(sums) => is_any_sum_ill(cols, sums.as_slice()),
    }
}

// Whether a value of this type may stand in the column of this name.
fn may_stand(cols: &Columns, name: &Name, kind: Option<ExprType>) -> bool
    ensures { result ≡ may_stand cols.now name.now kind }
{
    match (column_type(cols, name), kind) {
        (Some(column), Some(kind)) => comparison_type(column, kind).is_some(),
        _ => false,
    }
}

// The type of a value without columns. Takes no memory.
fn given_type(alloc: Global, e: &Expr) -> Option<ExprType>
    ensures { result ≡ type_in [] e.now }
{
    let none = Columns::new(alloc);
    tree_type(e, &none)
}

// Whether there is a value for each name, which may stand in the name's column.
fn may_all_stand(alloc: Global, cols: &Columns, names: &[Name], exprs: &[Expr]) -> bool
    ensures { result ≡ may_all_stand cols.now names.now exprs.now }
{
    match names {
        [] => exprs.is_empty(),
        [name, names @ ..] => match exprs {
            [] => false,
            [e, exprs @ ..] => {
                may_stand(cols, name, given_type(alloc, e))
                    && may_all_stand(alloc, cols, names, exprs)
            }
        },
    }
}

// Whether a name is one of these.
fn is_one_of(name: &Name, names: &[Name]) -> bool
    ensures { result ≡ list_any (bytes_eq name.now) names.now }
{
    names.iter().any(|other| name.is_same(other))
}

// Whether no name stands twice.
fn are_distinct(names: &[Name]) -> bool
    ensures { result ≡ are_distinct names.now }
{
    match names {
        [] => true,
        [name, rest @ ..] => !is_one_of(name, rest) && are_distinct(rest),
    }
}

// Whether a name is that of a column that is set.
fn is_set_in(name: &Name, sets: &[SetItem]) -> bool
    ensures { result ≡ list_any (bytes_eq name.now) (map (λ (i : SetItem). i.col) sets.now) }
{
    match sets {
        [] => false,
        [set, rest @ ..] => name.is_same(&set.col) || is_set_in(name, rest),
    }
}

// Whether no column is set twice.
fn are_distinct_sets(sets: &[SetItem]) -> bool
    ensures { result ≡ are_distinct (map (λ (i : SetItem). i.col) sets.now) }
{
    match sets {
        [] => true,
        [set, rest @ ..] => !is_set_in(&set.col, rest) && are_distinct_sets(rest),
    }
}

// Whether a column of the key has this name.
fn is_key_name(cols: &Columns, name: &Name) -> bool
    ensures { result ≡ is_key_name cols.now name.now }
{
    cols.as_slice()
        .iter()
        .any(|column| column.name.is_same(name) && 1 <= column.key)
}

fn has_unknown_order(cols: &Columns, order: &[OrderItem]) -> bool
    ensures { result ≡ list_any (λ (o : OrderItem). is_unknown cols.now o.col) order.now }
{
    order.iter().any(|item| is_unknown(cols, &item.col))
}

// The names of all columns.
fn all_names(alloc: Global, cols: &Columns) -> Result<Names, NoMemory>
    ensures { IfOk result (λ list. list ≡ map (λ (c : Column). c.name) cols.now) }
{
    let mut names = Names::new(alloc);
    for column in cols.as_slice() {
        names.push(column.name)?;
    }
    Ok(names)
}

/// The names of the columns for which an INSERT gives values: all of the table's where it names none.
pub(crate) fn target_names(alloc: Global, names: &Names, cols: &Columns) -> Result<Names, NoMemory>
    ensures { IfOk result (λ list. list ≡ target_names names.now cols.now) }
{
    match names.as_slice() {
        [] => all_names(alloc, cols),
        [_, ..] => names.copy(alloc),
    }
}

// Whether a SELECT names what is no column.
fn is_lost_select(stmt: &SelectStmt, cols: &Columns) -> bool
    ensures { result ≡ (are_lost cols.now stmt.now.items || (is_lost_filter cols.now stmt.now.filter || list_any (λ (o : OrderItem). is_unknown cols.now o.col) stmt.now.order)) }
{
    are_lost(cols, &stmt.items)
        || is_lost_filter(cols, &stmt.filter)
        || has_unknown_order(cols, stmt.order.as_slice())
}

/// What in a SELECT doesn't suit these columns: `NO_COLUMN` for a name, `TYPE_CLASH` for a type.
pub(crate) fn select_fault(stmt: &SelectStmt, cols: &Columns) -> Option<u32>
    ensures { result ≡ select_fault stmt.now cols.now }
{
    let ill = are_ill(cols, &stmt.items) || is_ill_filter(cols, &stmt.filter);
    if is_lost_select(stmt, cols) {
        return Some(Message::NO_COLUMN);
    }
    if ill { Some(Message::TYPE_CLASH) } else { None }
}

// Whether each list of values suits the names.
fn are_lists_right(alloc: Global, stmt: &InsertStmt, names: &Names, cols: &Columns) -> bool
    ensures { result ≡ list_all (may_all_stand cols.now names.now) stmt.now.rows }
{
    stmt.rows.as_slice().iter().all(|exprs| may_all_stand(
        alloc,
        cols,
        names.as_slice(),
        exprs.as_slice(),
    ))
}

// Whether an INSERT names what is no column.
fn is_lost_insert(stmt: &InsertStmt, cols: &Columns) -> bool
    ensures { result ≡ list_any (is_unknown cols.now) stmt.now.cols }
{
    stmt.cols
        .as_slice()
        .iter()
        .any(|name| is_unknown(cols, name))
}

/// What in an INSERT doesn't suit these columns: `NO_COLUMN` for a name, `TYPE_CLASH` for a column named twice and
/// for a list of values that doesn't suit its columns. `names` are the columns that get values.
pub(crate) fn insert_fault(
    alloc: Global,
    stmt: &InsertStmt,
    names: &Names,
    cols: &Columns,
) -> Option<u32>
    requires { names.now ≡ target_names stmt.now.cols cols.now }
    ensures { result ≡ insert_fault stmt.now cols.now }
{
    let distinct = are_distinct(stmt.cols.as_slice());
    let right = are_lists_right(alloc, stmt, names, cols);
    if is_lost_insert(stmt, cols) {
        return Some(Message::NO_COLUMN);
    }
    if !distinct || !right {
        Some(Message::TYPE_CLASH)
    } else {
        None
    }
}

// Whether an item of a SET list names what is no column.
fn is_lost_set(cols: &Columns, set: &SetItem) -> bool
    ensures { result ≡ (is_unknown cols.now set.now.col || is_lost cols.now set.now.to) }
{
    is_unknown(cols, &set.col) || is_lost(cols, &set.to)
}

// Whether the value of a SET item may stand in its column.
fn may_set(cols: &Columns, set: &SetItem) -> bool
    ensures { result ≡ may_stand cols.now set.now.col (type_in cols.now set.now.to) }
{
    may_stand(cols, &set.col, tree_type(&set.to, cols))
}

// Whether an item of a SET list names what is no column.
fn is_any_set_lost(sets: &[SetItem], cols: &Columns) -> bool
    ensures { result ≡ list_any (λ (i : SetItem). is_unknown cols.now i.col || is_lost cols.now i.to) sets.now }
{
    sets.iter().any(|set| is_lost_set(cols, set))
}

// Whether an UPDATE names what is no column.
fn is_lost_update(stmt: &UpdateStmt, cols: &Columns) -> bool
    ensures { result ≡ (list_any (λ (i : SetItem). is_unknown cols.now i.col || is_lost cols.now i.to) stmt.now.sets || is_lost_filter cols.now stmt.now.filter) }
{
    is_any_set_lost(stmt.sets.as_slice(), cols) || is_lost_filter(cols, &stmt.filter)
}

// Whether an UPDATE sets a column of the key.
fn sets_key(stmt: &UpdateStmt, cols: &Columns) -> bool
    ensures { result ≡ list_any (λ (i : SetItem). is_key_name cols.now i.col) stmt.now.sets }
{
    stmt.sets
        .as_slice()
        .iter()
        .any(|set| is_key_name(cols, &set.col))
}

// Whether each value may stand in the column that it is set to.
fn may_all_set(stmt: &UpdateStmt, cols: &Columns) -> bool
    ensures { result ≡ list_all (λ (i : SetItem). may_stand cols.now i.col (type_in cols.now i.to)) stmt.now.sets }
{
    stmt.sets.as_slice().iter().all(|set| may_set(cols, set))
}

/// What in an UPDATE doesn't suit these columns: `NO_COLUMN` for a name, `KEY_UPDATE` for a column of the key, `TYPE_CLASH` for
/// a column set twice and for a type.
pub(crate) fn update_fault(stmt: &UpdateStmt, cols: &Columns) -> Option<u32>
    ensures { result ≡ update_fault stmt.now cols.now }
{
    let distinct = are_distinct_sets(stmt.sets.as_slice());
    let right = may_all_set(stmt, cols);
    let ill = is_ill_filter(cols, &stmt.filter);
    if is_lost_update(stmt, cols) {
        return Some(Message::NO_COLUMN);
    }
    if sets_key(stmt, cols) {
        return Some(Message::KEY_UPDATE);
    }
    if !distinct || !right || ill {
        Some(Message::TYPE_CLASH)
    } else {
        None
    }
}

/// What in a DELETE doesn't suit these columns: `NO_COLUMN` for a name, `TYPE_CLASH` for a type.
pub(crate) fn delete_fault(stmt: &DeleteStmt, cols: &Columns) -> Option<u32>
    ensures { result ≡ delete_fault stmt.now cols.now }
{
    if is_lost_filter(cols, &stmt.filter) {
        return Some(Message::NO_COLUMN);
    }
    if is_ill_filter(cols, &stmt.filter) {
        return Some(Message::TYPE_CLASH);
    }
    None
}
