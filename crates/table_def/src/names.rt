//! The names of the columns, and whether a name stands among others.

ghost use Rattle.std.specs.Prelude.{◌≡◌, IfOk};
ghost use Rattle.plain_model.specs.Sound.{are_distinct};
ghost use Rattle.table_def.specs.Parts.{names_of, is_among};

use crate::{TablePart, TableParts};
use page_base::{Name, NoMemory};
use plain_model::Names;
use std::alloc::Global;

/// The names of the columns, in order.
pub(crate) fn names_of(alloc: Global, parts: &TableParts) -> Result<Names, NoMemory>
    ensures { IfOk result (λ names. names ≡ names_of parts.now) }
{
    let mut names = Names::new(alloc);
    for part in parts.as_slice() {
        match part {
            TablePart::Column(column) => names.push(column.name)?,
            TablePart::Key(_) => {}
        }
    }
    Ok(names)
}

/// Whether a name is one of these.
pub(crate) fn is_among(names: &[Name], name: &Name) -> bool
    ensures { result ≡ is_among names.now name.now }
{
    names.iter().any(|other| name.is_same(other))
}

/// Whether no name stands twice.
pub(crate) fn are_distinct(names: &[Name]) -> bool
    ensures { result ≡ are_distinct names.now }
{
    for (i, name) in names.iter().enumerate() {
        if is_among(&names[i + 1..], name) {
            return false;
        }
    }
    true
}
