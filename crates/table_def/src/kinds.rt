//! The type that a column has, by the one that is written.

ghost use Rattle.std.specs.Prelude.{◌≡◌, true};
ghost use Rattle.table_def.specs.Kinds.{has_length, kind_of};

use crate::WrittenType;
use page_base::ColType;

/// Whether a type's length is one that it may have: 1 to 8,000 of a VARCHAR.
pub(crate) fn has_length(kind: WrittenType) -> bool
    ensures { result ≡ has_length kind }
{
    match kind {
        WrittenType::Varchar(max) => 1 <= max && max <= 8000,
        _ => true,
    }
}

/// The type that is written.
pub(crate) fn kind_of(kind: WrittenType) -> ColType
    requires { has_length kind ≡ true }
    ensures { result ≡ kind_of kind }
{
    match kind {
        WrittenType::Int => ColType::Int,
        WrittenType::Bigint => ColType::Big,
        WrittenType::Varchar(max) => ColType::Text { max: max as u16 },
    }
}
