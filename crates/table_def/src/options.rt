//! What is declared of a column behind its type.

ghost use Rattle.std.specs.Prelude.{◌≡◌, length, filter};
ghost use Rattle.table_def.specs.Options.{is_null, is_not_null, is_primary_key, says_null, says_not_null};

use crate::{ColumnOption, ColumnPart};

fn is_null(option: ColumnOption) -> bool
    ensures { result ≡ is_null option }
{
    matches!(option, ColumnOption::Null)
}

fn is_not_null(option: ColumnOption) -> bool
    ensures { result ≡ is_not_null option }
{
    matches!(option, ColumnOption::NotNull)
}

fn is_primary_key(option: ColumnOption) -> bool
    ensures { result ≡ is_primary_key option }
{
    matches!(option, ColumnOption::PrimaryKey)
}

/// Whether a column is declared NULL.
pub(crate) fn says_null(column: &ColumnPart) -> bool
    ensures { result ≡ says_null column.now }
{
    column
        .options
        .as_slice()
        .iter()
        .any(|option| is_null(*option))
}

/// Whether a column is declared NOT NULL.
pub(crate) fn says_not_null(column: &ColumnPart) -> bool
    ensures { result ≡ says_not_null column.now }
{
    column
        .options
        .as_slice()
        .iter()
        .any(|option| is_not_null(*option))
}

/// How often PRIMARY KEY stands behind a column's type.
pub(crate) fn own_keys(column: &ColumnPart) -> usize
    ensures { result ≡ length (filter is_primary_key column.now.options) }
{
    column
        .options
        .as_slice()
        .iter()
        .filter(|option| is_primary_key(**option))
        .count()
}
