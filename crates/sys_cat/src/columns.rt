//! Table 0 as a table: where its root is, and which columns it has.

ghost use Rattle.std.specs.Prelude.{◌≡◌, IfOk};
ghost use Rattle.page_base.specs.Name.{IsLowName};
ghost use Rattle.sys_cat.specs.Rows.{column, table_0, zero_root};

use page_base::{ColType, Column, Columns, Name, NoMemory, PageId};
use std::alloc::Global;

/// The root of table 0, page 1 of file 0. Takes no memory.
pub fn root() -> PageId
    ensures { result ≡ zero_root }
{
    PageId { file: 0, page: 1 }
}

fn column(name: &[u8], kind: ColType, key: u8) -> Column
    requires { IsLowName name.now }
    ensures { result ≡ column name.now kind key }
{
    Column {
        name: Name::kept(name).unwrap(),
        kind,
        nullable: false,
        key,
    }
}

/// The columns of table 0: name and ord, which are its key, text, a, b and c, none of which may be NULL.
#[tactic(auto, unfolding(crate::specs::Rows::table_0), using(crate::proofs::ColumnLemmas::names))]
pub fn zero_columns(alloc: Global) -> Result<Columns, NoMemory>
    ensures { IfOk result (λ cols. cols ≡ table_0) }
{
    let cols = vec![in alloc;
        column(b"name", ColType::Text { max: 128 }, 1),
        column(b"ord", ColType::Int, 2),
        column(b"text", ColType::Text { max: 128 }, 0),
        column(b"a", ColType::Int, 0),
        column(b"b", ColType::Int, 0),
        column(b"c", ColType::Int, 0),
    ]?;
    Ok(Columns::from(cols))
}
