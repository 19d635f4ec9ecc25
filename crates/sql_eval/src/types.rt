//! Why an expression has no type.

use page_base::Name;
use thiserror::Error;

/// Why an expression has no type.
#[derive(Clone, Copy, Debug, PartialEq, Eq, Error)]
pub enum TypeRefusal {
    /// When a name is no column: the first such from the left.
    #[error("there is no such column")]
    Column(Name),
    /// When all names are columns and the types don't fit.
    #[error("the types don't fit")]
    Kind,
    /// Never: a name is copied in place.
    #[error("no memory was found")]
    Memory,
}
