//! What is kept of one snapshot beside its pages.

ghost use Rattle.std.specs.Prelude.{◌≡◌};
ghost use Rattle.std.specs.Borrow.{Lends, sem};
ghost use Rattle.rec_log.specs.Records.{WorkOf};
ghost use Rattle.rec_log.specs.contracts.transaction.Work.{the_row as work_row};
ghost use Rattle.snap_cat.specs.Catalog.{Snap, owing};
ghost use Rattle.snap_cat.specs.contracts.snapshot.Snapshot.{the_row};

use crate::FileNames;
use page_base::Name;
use rec_log::Work;
use std::marker::Model;

/// The state of a snapshot: being made, in use, or lost since a copy or a read failed.
#[derive(Clone, Copy, Debug, PartialEq, Eq)]
pub enum SnapState {
    Making,
    Online,
    Suspect,
}

// A snapshot.
#[derive(Drop)]
pub(crate) struct Snapshot {
    pub(crate) name: Name,
    pub(crate) files: FileNames,
    pub(crate) cut: u64,
    pub(crate) state: SnapState,
    pub(crate) owed: Work,
}

impl Model for Snapshot {
    ghost use Rattle.snap_cat.specs.Catalog.{Snap};

    ghost Value = { Snap };

    ghost view = { λ a. record { name = a.name; files = a.files; cut = a.cut; state = a.state; owed = a.owed } };
}

impl Snapshot {
    // The records that are owed, to be changed in place.
    pub(crate) fn owed_mut(&mut self) -> &mut Work
        ensures* lends { sem 𝓛 (Lends the_row work_row self.entry result (owing self.entry.now)) }
        ensures value { result.now ≡ self.entry.now.owed }
    {
        &mut self.owed
    }
}
