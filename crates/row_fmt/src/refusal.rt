//! Why bytes are not read as a row.

use thiserror::Error;

/// Why bytes are not read as a row.
#[derive(Clone, Copy, Debug, PartialEq, Eq, Error)]
pub enum RowRefusal {
    /// When the bytes are no row of these columns: `at` is the first byte of the first field that breaks a rule, is cut
    /// short or is too much.
    #[error("byte {at} is no part of a row of these columns")]
    Form { at: u32 },
    /// When no memory was found.
    #[error("no memory was found")]
    Memory,
}
