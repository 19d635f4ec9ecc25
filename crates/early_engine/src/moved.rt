//! What a step did.

/// What a step did.
#[derive(Clone, Copy, Debug, PartialEq, Eq)]
pub enum Moved {
    /// It was done.
    Went,
    /// There was nothing left to do.
    Ended,
}
