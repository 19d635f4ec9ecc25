//! Where a reader of a snapshot finds a page.

/// Where a reader of a snapshot finds a page: in the snapshot's sparse file, or in the source.
#[derive(Clone, Copy, Debug, PartialEq, Eq)]
pub enum Place {
    Sparse,
    Through,
}
