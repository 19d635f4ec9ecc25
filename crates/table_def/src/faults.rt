//! What makes a definition a bad one, each cause by a test of its own.

ghost use Rattle.std.specs.Prelude.{◌≡◌, not};
ghost use Rattle.table_def.specs.Parts.{written, in_column, names_of};
ghost use Rattle.table_def.specs.Keys.{key_of};
ghost use Rattle.table_def.specs.Faults.{contradicts, has_contradiction, is_bad_length, has_bad_length, is_null_key, has_null_key, has_unknown, has_wrong_size, is_bad_key, is_bad};

use crate::keys::{key_of, lacks_one_key};
use crate::kinds::has_length;
use crate::names::{are_distinct, is_among};
use crate::options::{says_not_null, says_null};
use crate::{ColumnPart, TablePart, TableParts};
use page_base::Name;

// Whether a column is declared NULL and NOT NULL.
fn contradicts(column: &ColumnPart) -> bool
    ensures { result ≡ contradicts column.now }
{
    says_null(column) && says_not_null(column)
}

// Whether a column is declared NULL and is in the key.
fn is_null_key(key: &[Name], column: &ColumnPart) -> bool
    ensures { result ≡ is_null_key key.now column.now }
{
    says_null(column) && is_among(key, &column.name)
}

// Whether a part is a column that is declared NULL and NOT NULL.
fn has_contradiction_in(part: &TablePart) -> bool
    ensures { result ≡ in_column contradicts part.now }
{
    match part {
        TablePart::Column(column) => contradicts(column),
        TablePart::Key(_) => false,
    }
}

// Whether a part is a column with a length that no VARCHAR may have.
fn has_bad_length_in(part: &TablePart) -> bool
    ensures { result ≡ in_column is_bad_length part.now }
{
    match part {
        TablePart::Column(column) => !has_length(column.kind),
        TablePart::Key(_) => false,
    }
}

// Whether a part is a column of the key that is declared NULL.
fn has_null_key_in(key: &[Name], part: &TablePart) -> bool
    ensures { result ≡ in_column (is_null_key key.now) part.now }
{
    match part {
        TablePart::Column(column) => is_null_key(key, column),
        TablePart::Key(_) => false,
    }
}

// Whether one of the columns is declared NULL and NOT NULL.
fn has_contradiction(parts: &TableParts) -> bool
    ensures { result ≡ has_contradiction (written parts.now) }
{
    parts
        .as_slice()
        .iter()
        .any(|part| has_contradiction_in(part))
}

// Whether one of the columns has a length that no VARCHAR may have.
fn has_bad_length(parts: &TableParts) -> bool
    ensures { result ≡ has_bad_length (written parts.now) }
{
    parts.as_slice().iter().any(|part| has_bad_length_in(part))
}

// Whether one of the key's columns is declared NULL.
fn has_null_key(key: &[Name], parts: &TableParts) -> bool
    ensures { result ≡ has_null_key key.now (written parts.now) }
{
    parts
        .as_slice()
        .iter()
        .any(|part| has_null_key_in(key, part))
}

// Whether a name of the key is that of no column.
fn has_unknown(key: &[Name], names: &[Name]) -> bool
    ensures { result ≡ has_unknown key.now names.now }
{
    key.iter().any(|name| !is_among(names, name))
}

// Whether the key has no columns, or more than 16.
fn has_wrong_size(key: &[Name]) -> bool
    ensures { result ≡ has_wrong_size key.now }
{
    key.is_empty() || key.len() > 16
}

// Whether the columns of these names can't have this key.
fn is_bad_key(key: &[Name], names: &[Name], parts: &TableParts) -> bool
    requires { names.now ≡ names_of parts.now }
    ensures { result ≡ is_bad_key key.now (written parts.now) }
{
    has_wrong_size(key) || !are_distinct(key) || has_unknown(key, names) || has_null_key(key, parts)
}

/// Whether the definition is a bad one, with the names of its columns.
pub(crate) fn is_bad(parts: &TableParts, names: &[Name]) -> bool
    requires { names.now ≡ names_of parts.now }
    ensures { result ≡ is_bad parts.now }
{
    lacks_one_key(parts)
        || is_bad_key(key_of(parts), names, parts)
        || !are_distinct(names)
        || has_contradiction(parts)
        || has_bad_length(parts)
}
