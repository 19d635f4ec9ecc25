//! Tables read from the rows of table 0.

ghost use Rattle.std.specs.Prelude.{ℕ, List, ◌≡◌, ◌≢◌, ◌+◌, ◌^◌, ◌<◌, ◌≤◌, [], true, length, drop, MatchOption, IfOk, IfErr};
ghost use Rattle.page_base.specs.declared.column.Column.{Column};
ghost use Rattle.page_base.specs.Name.{IsLowName};
ghost use Rattle.plain_model.specs.Sound.{is_type};
ghost use Rattle.sys_cat.specs.declared.desc.TableDesc.{TableDesc};
ghost use Rattle.sys_cat.specs.Rows.{table_row, column_row};
ghost use Rattle.sys_cat.specs.Lists.{IsHead, AreTables};
ghost use Rattle.sys_cat.specs.Reading.{may_follow, AreLongest};
ghost use Rattle.sys_cat.specs.Answers.{GivesDescs, Refuses};

use crate::desc::{DescList, DescRefusal, TableDesc};
use crate::growing::{can_grow, is_whole};
use crate::line::line_of;
use page_base::{Column, Columns, Name, NoMemory, PageId, Row, RowList, TableNo};
use std::alloc::Global;

// The column of this ordinal that a row tells of, if it does.
fn column_at(name: &Name, ord: usize, row: &Row) -> Option<Column>
    requires { IsLowName name.now }
    ensures { MatchOption result ((c : Column) → IsLowName c.name → is_type c.kind ≡ true → c.key < 256 → ord < 2 ^ 31 → row.now ≢ column_row name.now ord c) (λ c. IsLowName c.name × (row.now ≡ column_row name.now ord c)) }
{
    let line = line_of(row)?;
    if !line.name.is_same(name) || line.ord as usize != ord {
        return None;
    }
    line.column()
}

// The columns in front of rows, up to the first that can't be one more.
fn columns_at(alloc: Global, name: &Name, rows: &[Row]) -> Result<Columns, NoMemory>
    requires { IsLowName name.now }
    ensures { IfOk result (AreLongest name.now rows.now) }
{
    let mut cols = Vec::new(alloc);
    for row in rows {
        let Some(column) = column_at(name, cols.len() + 1, row) else {
            return Ok(Columns::from(cols));
        };
        cols.push(column)?;
        if !can_grow(cols.as_slice()) {
            cols.pop();
            return Ok(Columns::from(cols));
        }
    }
    Ok(Columns::from(cols))
}

// Whether a table of this name and number may stand behind others.
fn may_follow(descs: &[TableDesc], desc: &TableDesc) -> bool
    ensures { result ≡ may_follow descs.now desc.now }
{
    match descs {
        [] => true,
        [first, descs @ ..] => {
            first.name.cmp(&desc.name).is_lt()
                && first.number != desc.number
                && may_follow(descs, desc)
        }
    }
}

// The table behind others that a row tells of, if it does; still without columns.
fn table_at(alloc: Global, descs: &[TableDesc], row: &Row) -> Option<TableDesc>
    ensures { MatchOption result ((d : TableDesc) → IsHead d → may_follow descs.now d ≡ true → row.now ≢ table_row d) (λ d. IsHead d × (may_follow descs.now d ≡ true) × (row.now ≡ table_row d)) }
{
    let line = line_of(row)?;
    if line.ord != 0 || line.text.is_some() || line.a == 0 || line.b > 255 {
        return None;
    }
    let desc = TableDesc {
        name: line.name,
        number: TableNo(line.a),
        root: PageId {
            file: line.b as u8,
            page: line.c,
        },
        cols: Columns::new(alloc),
    };
    if !may_follow(descs, &desc) {
        return None;
    }
    Some(desc)
}

/// The tables that rows tell of, fewer than 4,294,967,295, in the order of table 0's key. `Form` exactly where the rows
/// are no list of tables: each with another name and number, up to 64 columns, and a key as a CREATE TABLE defines it.
pub fn descs(alloc: Global, rows: &RowList) -> Result<DescList, DescRefusal>
    requires { length rows.now < 4294967295 }
    // What is read has these rows.
    ensures tables { IfOk result (AreTables rows.now) }
    // What has these rows is read, unless memory runs out.
    ensures only { (ds : List TableDesc) → AreTables rows.now ds → GivesDescs ds result }
    // Which row it is.
    ensures refused { IfErr result (Refuses rows.now) }
{
    let mut descs = Vec::new(alloc);
    let mut i = 0;
    while i < rows.len() {
        let Some(mut desc) = table_at(alloc, descs.as_slice(), rows.at(i)) else {
            return Err(DescRefusal::Form { row: i as u32 });
        };
        let cols = columns_at(alloc, &desc.name, &rows.as_slice()[i + 1..])?;
        i += 1 + cols.len();
        if !is_whole(cols.as_slice()) {
            return Err(DescRefusal::Form { row: i as u32 });
        }
        desc.cols = cols;
        descs.push(desc)?;
    }
    Ok(DescList::from(descs))
}
