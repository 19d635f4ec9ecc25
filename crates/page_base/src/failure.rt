//! The refusals that every layer knows: no memory, a failed object of the outside, bytes that are no name.

use std::alloc::{AllocError, AllocFailed};
use thiserror::Error;

/// No memory was found.
#[derive(Clone, Copy, Debug, PartialEq, Eq, Error)]
#[error("no memory was found")]
pub struct NoMemory;

impl From<AllocError> for NoMemory {
    fn from(_: AllocError) -> Self {
        NoMemory
    }
}

impl<T: Drop> From<AllocFailed<T>> for NoMemory {
    fn from(_: AllocFailed<T>) -> Self {
        NoMemory
    }
}

/// An object of the outside failed: its count of faults rose.
#[derive(Clone, Copy, Debug, PartialEq, Eq, Error)]
#[error("a device failed")]
pub struct Failed;

/// Why bytes are no name.
#[derive(Clone, Copy, Debug, PartialEq, Eq, Error)]
pub enum NameRefusal {
    /// When the bytes have another form than that of a name.
    #[error("this is no name")]
    Form,
}
