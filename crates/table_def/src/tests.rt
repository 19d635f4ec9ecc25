//! A definition that is kept, with memory enough. Each cause of a bad one is a table of the repository's tests.

use crate::{ColumnOption, ColumnPart, OptionList, TablePart, TableParts, WrittenType, columns_of};
use page_base::{Columns, Name, NoMemory};
use std::alloc::Global;
use std::process::Abort;
use std::test::Fail;

// The columns that at most 64 parts define.
#[tactic(auto, using(crate::proofs::Written::written_are_parts))]
fn defined(rt: &impl Abort, alloc: Global, parts: &TableParts) -> Result<Columns, NoMemory> {
    assert!(rt; parts.len() <= 64);
    columns_of(alloc, parts)
}

#[test]
fn a_column_is_the_key(rt: HostRuntime) -> Result<(), Fail> {
    let alloc = rt.alloc();
    let mut parts = TableParts::new(alloc);
    parts.push(TablePart::Column(ColumnPart {
        name: Name::read(b"a")?,
        kind: WrittenType::Int,
        options: OptionList::from(Vec::from_slice(alloc, &[ColumnOption::PrimaryKey])?),
    }))?;
    let columns = defined(&rt, alloc, &parts)?;
    assert_eq!(rt; columns.len(), 1);
    assert_eq!(rt; columns.at(0).key, 1);
    Ok(())
}
