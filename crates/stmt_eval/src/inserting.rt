//! The new rows of an INSERT, each against the table and the rows before it.

ghost use Rattle.std.specs.Prelude.{◌≡◌, List, [], ◌∷◌, map, option_and_then, IfOk, OnOk};
ghost use Rattle.page_base.specs.declared.value.Value.{Value};
ghost use Rattle.plain_model.specs.Inserting.{given_for, new_row, fault_among, inserted_from};
ghost use Rattle.plain_model.specs.Storing.{kept_as};
ghost use Rattle.plain_model.specs.Tables.{key_of};
ghost use Rattle.plain_model.specs.Tree.{tree_of};
ghost use Rattle.plain_model.specs.Values.{value_of};
ghost use Rattle.sql_eval.specs.Given.{Gives};
ghost use Rattle.stmt_eval.specs.Given.{Takes};
ghost use Rattle.stmt_eval.specs.Keys.{HasKeys, Inserts};

use crate::keys::key_of;
use crate::refusal::{RowRefusal, Stop};
use crate::rows::stop_at;
use crate::storing::{kept_as, new_row_fault};
use page_base::{Column, Columns, Name, NoMemory, Row, RowList, Value};
use plain_model::{Expr, ExprList, ExprRows, Message, Names};
use sql_eval::{EvalRefusal, value};
use std::alloc::Global;
use std::collections::BTreeSet;

// The value of an expression without columns.
fn given_value(alloc: Global, e: &Expr) -> Result<Value, EvalRefusal>
    ensures { Gives result (value_of [] [] (tree_of e.now)) }
{
    let (cols, row) = (Columns::new(alloc), Row::new(alloc));
    value(alloc, e, &cols, &row)
}

// The value that is given for the column of a name, NULL where none is.
fn given_for(
    alloc: Global,
    names: &[Name],
    exprs: &[Expr],
    name: &Name,
) -> Result<Value, EvalRefusal>
    ensures { Gives result (given_for names.now exprs.now name.now) }
{
    match names {
        [] => Ok(Value::Null),
        [first, names @ ..] => match exprs {
            [] => Ok(Value::Null),
            [e, exprs @ ..] => {
                if first.is_same(name) {
                    return given_value(alloc, e);
                }
                given_for(alloc, names, exprs, name)
            }
        },
    }
}

// The value that is given for a column, as the column keeps it.
fn new_cell(
    alloc: Global,
    names: &Names,
    exprs: &ExprList,
    column: &Column,
) -> Result<Value, EvalRefusal>
    ensures { Gives result (option_and_then (kept_as column.now.kind) (given_for names.now exprs.now column.now.name)) }
{
    let found = given_for(alloc, names.as_slice(), exprs.as_slice(), &column.name)?;
    kept_as(column.kind, found).ok_or(EvalRefusal::Overflow)
}

// A new row as the columns keep it.
fn new_row(
    alloc: Global,
    names: &Names,
    cols: &Columns,
    exprs: &ExprList,
) -> Result<Row, EvalRefusal>
    ensures { Gives result (new_row names.now cols.now exprs.now) }
{
    let mut row = Row::new(alloc);
    for column in cols.as_slice() {
        row.push(new_cell(alloc, names, exprs, column)?)?;
    }
    Ok(row)
}

// One more key.
fn add_key(keys: &mut BTreeSet<Row>, key: Row) -> Result<(), NoMemory>
    ensures { OnOk result ((others : List (List Value)) → HasKeys keys.old others → HasKeys keys.new (key ∷ others)) }
{
    keys.insert(key)?;
    Ok(())
}

// The keys of the rows of a table.
fn keys_of(alloc: Global, cols: &[Column], rows: &RowList) -> Result<BTreeSet<Row>, NoMemory>
    ensures { IfOk result (λ keys. HasKeys keys (map (key_of cols.now) rows.now)) }
{
    let mut keys = BTreeSet::new(alloc);
    for row in rows.as_slice() {
        add_key(&mut keys, key_of(alloc, cols, row)?)?;
    }
    Ok(keys)
}

// What refuses a new row of this key among others.
fn fault_among(cols: &[Column], keys: &BTreeSet<Row>, row: &Row, key: &Row) -> Option<u32>
    requires { key.now ≡ key_of cols.now row.now }
    ensures { (others : List (List Value)) → HasKeys keys.now others → result ≡ fault_among cols.now others row.now }
{
    match new_row_fault(cols, row, key) {
        Some(number) => Some(number),
        None => if keys.contains(key) {
            Some(Message::KEY_IS_THERE)
        } else {
            None
        },
    }
}

// A new row, whose key comes among the others.
fn next_row(
    alloc: Global,
    names: &Names,
    cols: &Columns,
    keys: &mut BTreeSet<Row>,
    exprs: &ExprList,
) -> Result<Row, RowRefusal>
    ensures { Inserts names.now cols.now exprs.now keys.old keys.new result }
{
    let row = new_row(alloc, names, cols, exprs)?;
    let key = key_of(alloc, cols.as_slice(), &row)?;
    match fault_among(cols.as_slice(), keys, &row, &key) {
        Some(number) => Err(RowRefusal::Refused(number)),
        None => {
            add_key(keys, key)?;
            Ok(row)
        }
    }
}

/// The new rows of an INSERT, or the refusal of the first that fails, with its place from 1. `rows` are the table's.
pub(crate) fn inserted(
    alloc: Global,
    names: &Names,
    cols: &Columns,
    rows: &RowList,
    lists: &ExprRows,
) -> Result<RowList, Stop>
    ensures { Takes result (inserted_from cols.now (map (key_of cols.now) rows.now) 1 (map (new_row names.now cols.now) lists.now)) }
{
    let mut keys = keys_of(alloc, cols.as_slice(), rows)?;
    let mut news = RowList::new(alloc);
    for (i, exprs) in lists.as_slice().iter().enumerate() {
        match next_row(alloc, names, cols, &mut keys, exprs) {
            Ok(row) => news.push(row)?,
            Err(why) => return Err(stop_at(why, i + 1)),
        }
    }
    Ok(news)
}
