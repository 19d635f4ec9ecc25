//! One snapshot: what is kept of it beside its pages.

use crate::{FileNames, SnapState, SparseSet};
use page_base::Name;
use page_dev::PageFile;
use std::marker::Model;

/// A snapshot.
#[derive(Drop)]
pub(crate) struct Snapshot<P: PageFile> {
    pub(crate) name: Name,
    pub(crate) files: FileNames,
    pub(crate) cut: u64,
    pub(crate) state: SnapState,
    pub(crate) set: SparseSet<P>,
}

impl<P: PageFile> Model for Snapshot<P> {
    ghost use Rattle.early_pages.specs.Catalog.{Snap};

    ghost Value = { Snap };

    ghost view = { λ a. record { name = a.name; files = a.files; cut = a.cut; state = a.state; set = a.set } };
}
