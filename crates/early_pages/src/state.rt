//! Which states a snapshot has, and where its reader finds a page.

/// The state of a snapshot: being made, in use, or lost since a copy or a read failed.
#[derive(Clone, Copy, Debug, PartialEq, Eq)]
pub enum SnapState {
    Making,
    Online,
    Suspect,
}

/// Where a snapshot's reader finds a page: in the sparse file, or through it in the source.
#[derive(Clone, Copy, Debug, PartialEq, Eq)]
pub enum Place {
    Sparse,
    Through,
}
